//! Rows of a table of expressions, as `tests/expressions.py` writes them: a width, the values of names, `;` and the expression in
//! postfix form.
#![tactic(auto)]

mod names;
mod postfix;

pub use names::{Given, read_given};
pub use postfix::Stack;
