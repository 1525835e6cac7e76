//! Mutation sites: the places at which a netlist is broken.
use crate::mode::Mode;

/// Where a port stands: at a cell or at a register, by its number.
#[derive(Clone, Copy, Debug, PartialEq, Eq)]
pub enum Place {
    Cell(u32),
    Register(u32),
}

/// How a bit is changed, and which: its place, the port, counted from 0, and the bit of the port. The ports of a cell are
/// those of its kind, in order; of a register 0 is D and 1 is Q.
#[derive(Clone, Copy, Debug, PartialEq, Eq)]
pub struct Site {
    pub mode: Mode,
    pub place: Place,
    pub port: u8,
    pub bit: u8,
}
