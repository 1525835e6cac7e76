//! Expressions of a testbench as formulas: the names in them are numbers of signals, and the widths and signs of their parts
//! are known.
//!
//! A `Formula` is made of an expression once, which is then evaluated many times. `Formulas` has what a formula comes to, in the
//! terms of `vlog_meaning` (`formula_value`), with which signals it can be evaluated (`FitsIn`, by recursion on the formula), and
//! that it is worth what the expression is, whatever the signals are (`IsFormulaOf`). A part that reads no signal becomes a
//! number. A `$random` or `$time` in an expression has no formula that changes, so who makes one looks for them first (`changes`
//! of `tb_values`).
//!
//! In its proofs `Layers` opens a formula by its kind, `Values` has each kind's value, `Widening` that what fits a width fits a
//! greater one, and `Making` the formulas of each production. Parts of a concatenation stand one in front of the other, so a
//! formula nests at most 128 deep for each concatenation.
#![tactic(auto)]

mod building;
mod formula;
mod parts;
mod signals;

pub use building::formula_of;
pub use formula::{Formula, Part};
