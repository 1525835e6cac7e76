//! Rows of programs of cases that describe netlists: the names of cell kinds, the bits at ports, and the parts that statements add.
//!
//! BITS are the bits at a port from bit 0 on, with commas between them: a net by its number, `5..8` for the nets from 5 to 8, `low`
//! and `high` for the constants, and `none` where there are none.
#![tactic(auto)]

mod kind;
mod parts;
mod ports;

pub use kind::kind_of;
pub use parts::{add_part, netlist_of};
pub use ports::{PLACE, add_nets, bits_of, cell, no_parts, number_of, port};
