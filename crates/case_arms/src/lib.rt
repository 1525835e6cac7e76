//! The arms of a case statement: which of its items are arms, and what is done where none of them matches (IEEE 1364-2005, 9.5).
#![tactic(auto)]

mod chosen;
mod named;
mod selector;

pub use chosen::{Chosen, arms_in};
pub use named::names_all;
