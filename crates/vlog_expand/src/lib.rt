//! The directives of a Verilog source, and the faults of its reading.
#![tactic(auto)]

mod conditions;
mod error;
mod file;
pub mod laws;
mod lines;
mod macros;
mod output;
mod reading;
mod word;

pub use error::ParseError;
pub use file::expand;
