//! Why a testbench is refused, and which of several reasons is told.
//!
//! `Order` says which of several is told: the first by place, then by kind; of two that differ one comes before the other, so it
//! is one (`first_is_one`).
#![tactic(auto)]

mod error;
mod fault;
mod laws;

pub use error::BenchError;
pub use fault::{BenchFault, earlier, wrong};
pub use laws::first_is_one;
