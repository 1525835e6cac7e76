//! The laws that the items of a flattened design are refused in one way, or built as one netlist.
//!
//! There are definitions and laws alone: what is refused in an item does not tell builders apart that have the same signals, of
//! which the same bits are written (`Alike`). `Reasons` says when two answers are one. In its proofs, `Sides` is about
//! assignments, `Writing` about signals with a writer, `Steps` about the statements of a process, whose refusals rest on these
//! signals alone, `Processes` and `Refusing` about items, `Meaning` about what they mean, `Building` about what they leave,
//! `Built` shows that this is what they lay, and `Stopping` goes over the items of a design.
#![tactic(auto)]

mod laws;

pub use laws::{designs_are_one, items_are_built_once, items_are_refused_once};
