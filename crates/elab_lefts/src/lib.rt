//! The left sides of a flattened design, by which the place of a loop of nets is told.
//!
//! `items` lists the left sides of all items: the bits that `assigned_bits` of `elab_items` finds in an assignment, ports, and in
//! `process` the variables of combinational processes, each made a `Left` in `lists`. In its specs, `Lefts` says which left sides
//! an item has. In its proofs, `Found` shows that a bit which an item joins is one of them, and `Covering` goes to all items: so
//! each loop of nets has a left side.
#![tactic(auto)]

mod items;
mod laws;
mod lists;
mod process;

pub use items::lefts_of;
pub use laws::loops_have_left_sides;
