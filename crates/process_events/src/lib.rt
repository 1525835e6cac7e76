//! When a process runs: at each change of what it reads, or at each rising edge of its clock (IEEE 1364-2005, 9.7 and 9.9).
//!
//! No scope is needed, since of two edges the one whose name the body does not read is the clock.
#![tactic(auto)]

mod generator;
mod reads;
mod sensitivity;

pub use reads::{expr_reads, stmt_reads};
pub use sensitivity::{Sensitivity, clock_of, sensitivity_of};
