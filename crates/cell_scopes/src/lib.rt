//! The scopes of cells: in which instance each cell of a design stands.
//!
//! `Scopes` says it by the flattened design alone, whose items add the cells in their order. `cells` builds the items once more and
//! sees how many cells each adds; it makes no netlist.
#![tactic(auto)]

mod cells;
mod laws;

pub use cells::skipped_cells;
pub use laws::cells_have_their_scopes;
