//! Netlists as gates: the literal of each net, over free bits that are the inputs and the registers.
//!
//! The cells of a netlist are gone over in its order, with a table of the literal of each net. `free` begins it: the nets of
//! inputs and registers are variables, from 1 on. `cells` adds each cell from the rows that stand at its input ports, and lays
//! the row at Y into the table. In its specs, `NetLits` has the table as a function of the net, `Made` what is made of a netlist,
//! and `Meanings` that the nets solve a cycle.
//!
//! In its proofs, `Laying` shows that a row that is laid is its number that is laid, so that the literals follow the nets as
//! `netlist_core` settles them (`Solving`).
#![tactic(auto)]

mod cells;
mod free;
mod lits;

pub use cells::netlist_gates;
pub use lits::NetLits;
