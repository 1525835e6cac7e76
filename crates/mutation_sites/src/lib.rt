//! Mutation sites: the places at which a netlist is broken, and the netlists that come of it.
//!
//! `Modes` says which modes a port has, `Sites` the list, and `Counts` how long its parts are, by which `site_count` counts
//! without the list. `Mutants` says what the readers see in a mutant, and `Wiring` which parts its netlist has: a copy whose
//! readers are connected to another bit, and the cell that drives it. In its proofs, `Alike` and `Back` are the two directions of
//! the runs, `SameShapes` compares the cells, `Kept` and `Acyclic` show that no test of `Netlist::check` refuses the parts (a way
//! through the new cell is one of the netlist without it), and `Pigeons` that a number is left for the new net. `SiteTexts` has
//! the text of a site.
#![tactic(auto)]

mod count;
mod driver;
mod laws;
mod mode;
mod mutant;
mod place;
mod readers;
mod site;
mod site_list;
mod text;
mod unused;
mod wiring;

pub use count::site_count;
pub use laws::ports_have_their_sites;
pub use mode::{Mode, ModeSet};
pub use mutant::mutate;
pub use place::span_at;
pub use site::{Place, Site};
pub use site_list::sites;
pub use text::{kind_text, site_text};
