//! The laws of elaboration: modules are elaborated in one way, to one netlist or one refusal.
//!
//! There are laws alone: the definitions of `elab_hier` leave no choice but that of want of memory. In its proofs, `Sources`
//! shows that the source of modules is one, `Endings` that what was built is ended as one netlist, `Refused` that its end is
//! refused in one way or not at all, `Items` goes over the items of a design, whose cells have room where they are built,
//! `Limits` counts the cells of a netlist, and `OneAnswer` puts them together: the start values of a source pin the builder that
//! its items are built in.
#![tactic(auto)]

mod laws;

pub use elab_hier::{ElabError, elaborate};
pub use laws::sources_have_one_answer;
