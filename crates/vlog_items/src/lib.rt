//! What the productions of items and of instances mean (IEEE 1364-2005, A.1.4, A.4, A.6.1).
//!
//! A production of another kind is one of declarations or modules.
#![tactic(auto)]

mod instances;
mod items;

pub use items::{assignment, make_item};
