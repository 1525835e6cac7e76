//! What a terminal is told of an outcome behind its line: the line of the file in which it is, with a caret, and a hint.
//!
//! `design`, `feature`, `limit`, `project`, `book` and `outcome` have a hint for each name of a refusal. `place` finds the line in the file, which
//! is read again, and `excerpt` shows it. The line of the outcome itself and its status say all that is promised.
#![tactic(auto)]

mod book;
mod design;
mod excerpt;
mod feature;
mod limit;
mod outcome;
mod place;
mod project;
mod telling;
mod told;
mod unexpected;

pub use telling::hint_text;
