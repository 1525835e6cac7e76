//! The nets of a testbench settle: one pass over its assigns and the design, in their order.
//!
//! `pass` settles the nets of a scene and a simulator of the design. `node` settles one of them: `assign` applies the updates of
//! an assign, by its plan where it has one (`tb_plans`), and by a plain copy of a word where that is all it is, `design` settles
//! the simulator with what the scene has at its inputs and shows its outputs. In its specs, `Settling` says what nets mean to a
//! phase and when they can settle, `Nodes` what holds of the nodes that have settled, `Laws` what updates depend on and which
//! bits they give values.
//!
//! In its proofs, `Reading` is about values and the bits that are read, `Windows` about updates, `Replacing` and `Stores` about
//! the bits of a store, `Planning` is about what a plan gives, `Passing` and `Turning` show that a node that settles leaves those
//! before settled, `Ending` that the phase has then settled, and `Once` that there is one store to which it can.
#![tactic(auto)]

mod assign;
mod design;
mod laws;
mod node;
mod pass;

pub use laws::{assignments_rest, nets_settle_once};
pub use pass::settle;
pub use tb_nets::{NetNode, Nets};
