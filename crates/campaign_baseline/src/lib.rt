//! What the benches of a campaign say of the design itself, before any mutant: a bench that the design fails tells nothing of mutants.
//!
//! A baseline is the word of a bench, by the definition of its simulation, and the cycle in which it ended. It is no test: it makes
//! no row and takes no step. `simulating` finds the baselines, `told` tells them, line by line, and whether all pass, `auto` how
//! many cycles a mutant may take where the project says ten times the greatest, and `limit` whether the campaign can be run by them, and under which.
//! `laws` has that baselines are one.
#![tactic(auto)]

mod auto;
pub mod laws;
mod limit;
mod simulating;
mod told;

pub use auto::auto_cycles;
pub use limit::cycle_limit;
pub use simulating::baselines;
pub use told::{all_pass, baseline_text, failing_text};
