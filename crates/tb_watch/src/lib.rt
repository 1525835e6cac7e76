//! Texts that are looked for in what a bench prints, piece by piece.
//!
//! A search keeps the end of the text so far, one byte shorter than the word, and looks in it with the next piece, so what it
//! costs is linear in the pieces, and nothing once the word was found.
#![tactic(auto)]

mod search;
mod watch;

pub use search::Search;
pub use watch::Watch;
