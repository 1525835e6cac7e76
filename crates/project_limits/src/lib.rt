//! How large what a project file says may be, and what its options speak of.
#![tactic(auto)]

mod laws;

pub use laws::{options_are_known, projects_are_small};
