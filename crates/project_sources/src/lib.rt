//! The netlist of a project's sources: their files are read, their modules elaborated.
//!
//! `netlist` has the whole way from files to a netlist, and the law that there is one answer, by the laws of `source_trees` and
//! `hier_once`. `skipped` tells which of its cells are within instances that a project skips.
#![tactic(auto)]

mod checked;
mod netlist;
mod skipped;

pub use checked::CheckedNetlist;
pub use netlist::{NetlistError, one_answer, read_netlist, read_sources};
pub use skipped::{cells_are_skipped_once, skipped_cells};
