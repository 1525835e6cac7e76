//! Clauses whose free bits settle every other variable by propagation.
#![tactic(auto)]

mod miter;

pub use miter::Miter;
