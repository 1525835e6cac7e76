//! Whether a mutant is equal to its design in one step: all values of inputs and registers are tried.
//!
//! A design is compared with its mutants by what both give for each number over the bits of all inputs and registers: what stands
//! at the outputs, and then what the registers take. The program takes the laws alone; the test by all values is the plain form
//! of that of `equiv_test`. `Equal` says what equality in one step is, between machines: a netlist and what its readers see in
//! it. In its proofs, `MutantTrials` and `MutantNetlists` go from the netlist of a mutant to the design whose readers see the
//! mutated bit, and `Sights` shows that what each reader sees at its own bits rests on what stands there, from which each mutant
//! has one solution (`Solved`).
#![tactic(auto)]

mod bits;
mod design;
mod laws;
mod settle;

pub use design::{Design, Given, GivenList, MAX_FREE_BITS};
pub use laws::{
    designs_have_one_solution, mutants_are_netlists, mutants_have_one_solution,
    one_step_equality_lasts,
};
