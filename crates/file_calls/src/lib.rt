//! Calls over the database in a file, whatever the file held: one call, and what follows for lists of calls.
#![tactic(auto)]

mod call;
pub mod laws;

pub use call::call_on_file;
pub use mcy_top::{Outcome, exit_status, failing_baselines, fault_line};
