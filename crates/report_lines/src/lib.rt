//! The lines of a report by themselves: what each says, its expressions, and the formats of its texts.
//!
//! Operators of one precedence are one list, done from left to right, so that a chain of a thousand sums nests no deeper than
//! one; `and` and `or` are such operators, whose left operand may decide. `Formats` takes a text apart byte by byte.
#![tactic(auto)]

mod expr;
mod fits;
mod format;
mod head;
mod parting;
mod printing;
mod reading;
mod words;

pub use expr::{Expr, Operator, Term};
pub use fits::head_fits;
pub use format::Format;
pub use head::{Head, head_of};
