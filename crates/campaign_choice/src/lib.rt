//! What a project asks for, as far as no bench says it: its scripts and files, the sites that it leaves out and those that its
//! mutations are, the limits of its netlist, and its campaign as a book keeps it.
#![tactic(auto)]

mod campaign;
mod choice;
pub mod laws;
mod limits;
mod mutations;
mod omitted;
mod project;

pub use choice::{Choice, SiteList, choose};
pub use limits::excess;
pub use mutations::all_sites;
pub use omitted::{lacks_sites, omitted_sites};
pub use project::{Scripted, all_files, design_part, scripts_of};
