//! The clauses of two netlists, which have a model exactly where a step of them differs.
//!
//! `matching` tells the first port or register that does not stand at its place in the other netlist (`Matching`); `pair` makes
//! the gates of both in one list, so that what the two share is made once, then an exclusive or for each bit that a step shows
//! (`Copies`), and the clauses of these. In its specs, `Refusals` is why a pair has no clauses, `Differences` what a model of
//! them is, `Weights` how many gates a design counts (`weights` computes it), and `Laws` that a mutant is never refused for a
//! port or a register, nor, where its design counts at most 100,000 gates, for gates or free bits.
//!
//! In its proofs, `Weighing` bounds the gates of both copies by the weights of their cells, `Widths` and `Stepping` show that two
//! steps are alike exactly where the bits that they show are the same, `Apart` what a row of exclusive ors tells, `Starting`
//! which values of the free bits are those of given inputs and registers, and `Telling` puts this together: a model is a step
//! that differs, and each such step has a model.
#![tactic(auto)]

mod error;
mod laws;
mod matching;
mod pair;
mod weights;

pub use error::EncodeError;
pub use laws::{mutants_are_accepted, mutants_are_alike};
pub use pair::encode;
pub use weights::design_gates;
