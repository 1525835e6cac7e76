//! Cells, and which of their ports are inputs.
ghost use Rattle.std.specs.Prelude.{◌≡◌};
ghost use Rattle.netlist_core.specs.Runs.{input_ports, output_port};

use crate::bit::{Bit, BitList, PortList};
use mcy_base::{Items, Span};

/// What a cell computes.
#[derive(Clone, Copy, Debug, PartialEq, Eq)]
pub enum CellKind {
    Not,
    Neg,
    And,
    Or,
    Xor,
    Xnor,
    Add,
    Sub,
    Mul,
    Lt,
    Le,
    Gt,
    Ge,
    Eq,
    Ne,
    Shl,
    Shr,
    Sshr,
    Rand,
    Ror,
    Rxor,
    Rnand,
    Rnor,
    Rxnor,
    Lnot,
    Land,
    Lor,
    Mux,
    Pick,
    Put,
}

/// A cell: what it computes, whether its order is that of signed numbers, the bits at its ports, and the
/// place of its operator in the source.
pub struct Cell {
    pub kind: CellKind,
    pub is_signed: bool,
    pub ports: PortList,
    pub span: Span,
}

impl Drop for Cell {
    fn drop(self) {
        let Cell {
            kind: _kind,
            is_signed: _is_signed,
            ports: _ports,
            span: _span,
        } = self;
    }
}

/// Cells by number, from 0.
pub type CellList = Items<Cell>;

/// The input ports: all ports of a cell but the last.
pub fn input_ports(ports: &[BitList]) -> &[BitList]
    ensures { result.now ≡ input_ports ports.now }
{
    &ports[..ports.len().saturating_sub(1)]
}

/// The bits of Y, the last port.
pub fn output_port(ports: &[BitList]) -> &[Bit]
    ensures { result.now ≡ output_port ports.now }
{
    if ports.is_empty() {
        return &[];
    }
    ports[ports.len() - 1].as_slice()
}
