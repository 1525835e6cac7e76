//! The words of the command line, read by `clap`: what they ask for, if they ask for something.
#![tactic(auto)]

mod asked;
mod command;
mod numbers;
mod program;
mod reading;
mod values;

pub use asked::{Asked, MutationNumbers};
pub use command::Command;
pub use reading::read_words;
