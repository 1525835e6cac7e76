//! What the productions of statements and of events mean (IEEE 1364-2005, A.6).
//!
//! A production of another kind is one of items.
#![tactic(auto)]

mod events;
mod statements;

pub use statements::make_statement;
