//! The cone of the last of a list of clauses.
#![tactic(auto)]

mod cone;

pub use cone::Cone;
