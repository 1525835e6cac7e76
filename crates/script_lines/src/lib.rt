//! The lines of a tag script or a report: which of them say something, how far each is indented, and its tokens (docs/FORMATS.md,
//! "Scripts").
//!
//! Nothing is refused here. A row says that its line cannot be read, so that the first fault of all is told by who reads the
//! rows.
//!
//! `Tokens` says what the tokens of a line are, one in front and those behind it, `Rows` which lines count and how far they are
//! indented, and `Parting` how the tokens of an expression are parted at the signs of a level, which both scripts have their own of.
#![tactic(auto)]

mod class;
mod keyword;
mod parting;
mod row;
mod token;

pub use keyword::Keyword;
pub use parting::{Sign, before, front_len, is_symbol};
pub use row::{Row, RowList, rows};
pub use token::{Token, TokenList};
