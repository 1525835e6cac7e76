//! The sources of a design, read into modules: their texts, their tokens behind their directives, and their trees.
//!
//! Files are read in three rounds, so that the first fault is told whatever the order of files: `texts` looks whether each is
//! UTF-8, `given` carries out the directives of each under one limit, and `trees` makes the modules.
#![tactic(auto)]

mod error;
mod given;
mod place;
mod reading;
mod texts;
mod trees;

pub use error::ReadError;
pub use reading::{one_answer, read_modules};
