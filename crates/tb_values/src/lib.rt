//! What expressions of a testbench are worth, where `$random` draws and `$time` counts.
//!
//! `Draws` threads the generator through what `vlog_meaning` says of each production, so no operator is said again; `draw` makes
//! the expression with numbers in the places of its `$random` and `$time`, and `value` of `vlog_meaning` does the rest. Most
//! expressions hold neither and are not copied. In its proofs `Variants` has each production in one evaluation, `Drawing` that
//! the expression with numbers says just that, `Staying` that the others stay what they are, and `Keeping` that shapes stay.
#![tactic(auto)]

mod changing;
mod draws;
mod evaluation;
mod laws;
mod numbers;

pub use changing::changes;
pub use draws::draw;
pub use evaluation::{Moment, count, evaluate, holds};
pub use laws::evaluations;
