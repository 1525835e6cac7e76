//! How a call ends, the exit status that it then has, and the line that tells a person of it.
#![tactic(auto)]

mod fault_lines;
mod outcome;

pub use fault_lines::fault_line;
pub use outcome::{Outcome, exit_status};
