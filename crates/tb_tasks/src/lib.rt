//! What the system tasks of a testbench print.
//!
//! `argument` has one value or string, `format` the pieces of a format, each with its argument, `task` the tasks by their names,
//! and `fitting` whether the arguments fit, which a reader of benches asks once.
#![tactic(auto)]

mod argument;
mod fitting;
mod format;
mod task;

pub use fitting::arguments_fit;
pub use task::perform;
