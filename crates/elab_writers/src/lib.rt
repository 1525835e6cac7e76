//! The laws of builders in which all items of a design are built: each bit has one writer at most, so that a netlist can be made.
//!
//! There are definitions and laws alone, between `elab_items` and `elab_finish`: what each item that is built leaves, the builder
//! has when all are. `Numbers` says which signals are declared and which are ports. In its proofs, `Newness` is about assignments
//! in which nothing is refused, whose bits have no writer before, `Inputs` is about inputs of instances, `Fresh`, `Variables` and
//! `Processes` about processes, whose variables have no writer before and stand once among them; `OneWriter` goes from item to
//! item. `Declared` is about the numbers of signals, `Finishing` collects what is asked where the netlist is made, and
//! `Registers` finds the registers of the design in the builder.
#![tactic(auto)]

mod laws;

pub use laws::{designs_can_finish, items_have_one_writer};
