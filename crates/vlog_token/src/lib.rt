//! Tokens of a Verilog source, as slices of its text, and the values of its numbers.
#![tactic(auto)]

mod bytes;
mod gap;
mod laws;
mod numeral;
mod part;
mod place;
mod quoted;
mod run;
mod scan;
mod shape;
mod symbol;
mod token;
mod value;

pub use laws::one_answer;
pub use numeral::number;
pub use quoted::{name_of, string_value};
pub use scan::tokens;
pub use token::{Token, TokenError, TokenKind};
pub use value::Number;
