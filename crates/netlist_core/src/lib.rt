//! The netlist: cells, registers and the nets between them, which netlists can be run, and what a run is.
//!
//! `Netlist::check` goes over the parts five times: `size` counts cells and bits, `shape` compares widths, `drivers` makes the
//! table of drivers, net by net, and looks in it for each net that is read, and `reads` tells which cells each cell reads, of which
//! `net_order` finds the order or the least one on a loop. In its specs, `Cells` is the table of cell kinds, `Shapes` the widths
//! of their ports, `Runs` the equations of a run, `Drivers` and `Orders` what drives and reads what, `Checked` the refusals, and
//! `Solutions` exactly one run and the laws; `Marking`, `Sources`, `Settled` and `Sizes` say what the code's steps compute.
#![tactic(auto)]

mod bit;
mod cell;
mod check;
mod copy;
mod drivers;
mod formed;
mod laws;
mod netlist;
mod port;
mod raw;
mod reads;
mod shape;
mod size;

pub use bit::{Bit, BitList, PortList};
pub use cell::{Cell, CellKind, CellList, input_ports, output_port};
pub use copy::{copy_bits, copy_port_list, copy_raw};
pub use formed::is_formed;
pub use laws::one_run;
pub use netlist::{NetError, Netlist};
pub use port::{Port, Ports, Register, RegisterList};
pub use raw::RawNetlist;
pub use shape::{Shape, has_shape};
pub use size::{net_bits, register_bits};
