//! What processes do: the effect of statements, and latches (IEEE 1364-2005, 9.2 and 9.4 to 9.7).
//!
//! There are definitions and their laws alone. `specs/Steps` turns a statement into plain steps: loops become their turns, cases
//! their arms. `specs/LeftSides` says which bits a left side writes, `specs/Effects` what steps leave from any values, and
//! `specs/Latches` which variable of a combinational process would be a latch. `specs/Examples` has small statements with what
//! each leaves, worked out by hand, and `src/examples.rt` proves that they do.
//!
//! In its proofs, `Kept` shows that a process changes only what it assigns, and `Sizes`, `Alike`, `Pointwise` and `Unlatched`
//! that one without a latch leaves the same from any values of the variables that it assigns: two runs keep the bits in common
//! that are assigned on each path.
#![tactic(auto)]

mod examples;
mod laws;

pub use examples::{assignments_of_examples, latches_of_examples, turns_of_examples};
pub use laws::{last_item_serves, loops_turn, processes_leave, statements_run, statements_step};
