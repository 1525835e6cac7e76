//! What is planned for expressions before cells are made.
//!
//! `Kinds` says which operator is which kind of cell, `Made` which cells an expression makes, in order, and what is not supported
//! in it. `constant` has what a constant is as a place or a count, and `unsupported` looks for the first place of what is not
//! supported.
#![tactic(auto)]

mod constant;
mod kinds;
mod unsupported;

pub use constant::{bound_of, count_of, index_width, is_constant};
pub use kinds::{binary_kind, unary_kind};
pub use unsupported::{division_unsupported, index_unsupported, unsupported_in};
