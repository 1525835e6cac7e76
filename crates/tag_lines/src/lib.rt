//! The lines of a tag script by themselves: what each says, and its expressions.
//!
//! `Grammar` parts the tokens of an expression at the operators of the lowest precedence that stand outside parentheses, and so
//! does the code, on slices: each call on the inside of a parenthesis or `not` has one in `room` less, so calls nest no deeper
//! than the 32 constructs that may be open. `Lines` says what a line says, and `Uses` whether its tests are those of the project
//! and its names are assigned. Its trees are made of `Boxed` and `Listed` of `tree_parts`, which `vlog_syntax` has under the same
//! names for the trees of Verilog.
#![tactic(auto)]

mod expr;
mod head;
mod naming;
mod parting;
mod reading;
mod uses;
mod words;

pub use expr::{Comparison, Expr};
pub use head::{Head, Words, head_of};
pub use naming::add_names;
pub use uses::{Uses, is_place, uses_of};
pub use words::{argument_of, is_last, is_word, place_in_texts};
