//! Elaboration: the netlist of a source, from its modules and the name of the top.
//!
//! `design` flattens the modules and has the public call. `ports` lists the ports of the top by their numbers, in the order of
//! its head, and `flags` tells which signals are inputs; `building` declares the signals, gives them their start values, has the
//! turns of loops counted and builds the items; then `ending` makes the netlist by `finish_design` of `elab_finish`, with what
//! `numbers` lists: the inputs without the clock, the declared signals in order, the clock's name, and the left sides. `answers`
//! says which answer each refusal is.
//!
//! In its specs, `Tops` says what the source of modules is, `Elaborations` what its netlist is, `Accepted` that nothing in it is
//! refused, and `Refusals` why there is none; `Parts` is about the code's parts. In its proofs, `Once` is about flags and lists of numbers, `Begun`, `Counted` and `Netlists`
//! go from the laws of the crates below to the netlist, `Sources` to the modules, and `Told` is about results.
#![tactic(auto)]

mod answers;
mod building;
mod design;
mod ending;
mod flags;
mod numbers;
mod ports;

pub use design::elaborate;
pub use elab_items::ElabError;
