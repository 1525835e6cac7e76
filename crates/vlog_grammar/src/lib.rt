//! The grammar of the Verilog profile as one table of productions, and the exact reader over it.
#![tactic(auto)]

mod class;
mod reader;
mod rule;
mod step;
mod stop;
mod table;

pub use class::Class;
pub use reader::{one_answer, read};
pub use rule::{Kind, Rule};
pub use step::{Step, Token};
pub use stop::{Reading, Stop};
pub use table::{Symbol, parts_of};
