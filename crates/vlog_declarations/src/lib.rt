//! What the productions of declarations and of modules mean (IEEE 1364-2005, A.1, A.2).
//!
//! A production of another kind means nothing here.
#![tactic(auto)]

mod declarations;
mod modules;

pub use declarations::make_declaration;
