//! Continuous assignments and the connections of instances become cells and joints (IEEE 1364-2005, 6.1 and 12.3.9).
//!
//! `connection` has the public calls: the cells of a value by `build_expr`, and then, in `joining`, a joint for each bit of the
//! port, from the lowest on. In its specs, `Values` says what a right side gives and why it is refused, `Built` what a call
//! leaves, and `Laid` which netlist that is, as a function of the builder before (`Laying` in the proofs).
//!
//! Continuous assignments are built in `assign`. `scan` reads a left side: what is wrong with the names and indices of its parts,
//! and, as a `Slice`, each part in which nothing is wrong. `second` looks for the first of their bits that has a writer, and
//! `assign` takes the earlier of both by place, or adds the cells of the right side and joins the parts, the last one to the
//! lowest bits. What else is wrong in a left side is what is wrong in the expression of the same form, by `same_form` of
//! `elab_proc`. `written` lists the bits that a left side writes.
//!
//! In its specs, `Forms` has the parts of an expression that has the form of a left side, `Sides` says what is wrong in a left
//! side and which bits it writes, `Writers` which bit has a writer, and `Assignments` what an assignment means and which refusal
//! is its first; `Parts` and `Seen` say what the code's slices and its set of nets stand for.
#![tactic(auto)]

mod assign;
mod connection;
mod joining;
mod laws;
mod refusal;
mod scan;
mod second;
mod slice;
mod written;

pub use assign::build_assign;
pub use connection::{build_input, tie_input};
pub use laws::{forms_have_parts, outputs_are_laid};
pub use refusal::{AssignError, Refusal};
pub use written::{WrittenBit, written_bits};
