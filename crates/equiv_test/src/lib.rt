//! The equivalence test of a netlist and a mutant of it, by a search whose lemmas a checker has taken.
//!
//! An `EqJob` (`job`) holds the search of the pair's clauses and a simulator of each netlist. Before the search begins,
//! `patterns` simulates the clauses with 64 patterns of the free bits at a time, and where that shows no difference asks
//! `model_guide` for a guess. `turning` takes a turn of the search: a refutation or an attempt is handed out with the checker
//! that took its lemmas. Of a pattern or a model `words` reads the inputs and registers that its free bits are, with which
//! `place` simulates both netlists, up to the first output or register that differs. There is one since the clauses' models are
//! the steps that differ.
//!
//! In its specs, `Verdicts` says what each verdict shows, `Turns` what a turn comes to, and `Jobs` what a job is. In its proofs,
//! `Reading` follows the words of the ports, `Apart` the comparison, and `Telling` puts the verdicts together.
#![tactic(auto)]

mod job;
mod patterns;
mod place;
mod turning;
mod verdict;
mod words;

pub use job::EqJob;
pub use verdict::{DiffPlace, Difference, EqVerdict};
