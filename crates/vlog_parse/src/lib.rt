//! From the tokens of a Verilog source to its trees.
//!
//! `parse` goes over the tokens four times, each time in a straight line: `classes` says what the grammar sees of each token;
//! `read` of `vlog_grammar` gives the steps of the trees, each production before its parts; `too_deep` goes over the steps and
//! counts what is nested; and `build_modules` goes over them from the last to the first and makes the modules. In its specs,
//! `Words` and `Classes` have the reserved words and where attributes stand, `Nesting` which constructs count, and `Parsing` what
//! `parse` answers. Of the productions only the table of `vlog_grammar` and the meanings of `vlog_trees` and the three crates
//! below it know.
#![tactic(auto)]

mod classes;
mod nesting;
mod parser;
mod words;

pub use parser::{each_part_is_there, one_answer, parse};
pub use vlog_expand::ParseError;
