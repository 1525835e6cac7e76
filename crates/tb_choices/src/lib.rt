//! Which item of a case statement of a testbench is taken.
//!
//! `sizes` has the size of all expressions of a `case`, `matching` whether one of an item's labels matches, and `selection` the
//! first item with such a label, or else the default. `vlog_refusals` says which bits of a label are no matter, for designs and
//! benches alike.
#![tactic(auto)]

mod matching;
mod selection;
mod sizes;

pub use selection::{choose, default_item};
pub use sizes::case_size;
