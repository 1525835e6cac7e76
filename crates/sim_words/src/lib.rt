//! The words of mutations in tests by simulation, as laws over the definitions.
//!
//! The word of a mutation is that of the bench with any netlist that runs as the mutant at the site, whose outputs are as wide as
//! the design's and whose registers start with the same (`SimWords`). In its proofs, `Cycles` has that two such netlists have the
//! same cycles, by way of the mutant, `Moving` takes a simulation from the one to the other phase by phase, and `Words` the word.
#![tactic(auto)]

mod laws;

pub use laws::{mutants_tell_the_same, one_sim_word};
