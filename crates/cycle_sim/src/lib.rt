//! A simulator of netlists, cycle by cycle.
//!
//! A `Sim` has a table with one number of up to 128 bits for each driver: inputs, registers' Q and cells' Y, in this order.
//! `parts` reads it: the bits of a port are parts, each some consecutive bits of one driver, and a `Reading` says whether they
//! are a constant, a whole driver, one part or several. `places` finds where each net is driven and how wide each driver is, and
//! `wiring` the parts of each reader and a `Gate` for each cell: its kind, the width of its Y and the wires of its input ports.
//! Both are made once for a netlist; `readers` has for each driver the cells that read it, by their places in the netlist's
//! order. A number that changes marks the cells that read it (`marks`, a bit for each place), so that each cell without a mark
//! has the number that comes of those at its input ports (`IsCurrent`). `state` lays inputs and registers into the table,
//! `computing` says what a gate comes to, the kinds of cells for which numbers are enough by the numbers alone, and `cycle`
//! computes the marked cells in their order: what it marks stands further on, so that one pass leaves no mark.
//!
//! In its specs, `Simulated` says which nets a table stands for, `Steps` that steps go through a run, `Parts` which bits parts
//! have and what is read there, `Gates` which gate a cell has and its number, `Places` where nets are driven, `Marks` what marks
//! and readers say, and `Kept` what a `Sim` keeps between its calls; in its proofs, `Laid` shows that a number written in the
//! table is laid on its driver's nets, and `Current` that a cell whose input ports keep their numbers keeps its own.
#![tactic(auto)]

mod computing;
mod cycle;
mod laws;
mod marks;
mod parts;
mod places;
mod readers;
mod sim;
mod state;
mod wiring;

pub use laws::steps_are_runs;
pub use sim::Sim;
