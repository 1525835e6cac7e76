//! The nets of a testbench whose items have no fault: an order in which they settle, or the place of the first one on a loop.
//!
//! `wired` gives their nodes to `tb_nets`, and `places` has the place of each. In its proofs `Sides` shows that assignments in
//! which nothing is wrong can be carried out, `Single` that the design stands among the nets once, `Placed` that each node has
//! its place, and `Wiring` that the nets can settle.
#![tactic(auto)]

mod places;
mod wired;

pub use wired::{Wired, wire};
