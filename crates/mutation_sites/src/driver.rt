//! The cell that drives the new net of a mutant.
ghost use Rattle.std.specs.Prelude.{◌≡◌, ◌∷◌, ◌++◌, [], false, IfOk, OnOk};
ghost use Rattle.netlist_core.specs.declared.cell.CellKind.TheVariants.{Not};
ghost use Rattle.netlist_core.specs.declared.bit.Bit.TheVariants.{Net};
ghost use Rattle.mutation_sites.specs.Wiring.{new_cells};

use crate::mode::Mode;
use mcy_base::{Items, Span};
use netlist_core::{Bit, BitList, Cell, CellKind, PortList};
use std::alloc::{AllocError, Global};

/// How the new net gets its value: the mode, the unmutated bit and control bit, the net's number, and the cell's place in
/// the source. For a constant there is no such cell.
#[derive(Clone, Copy)]
pub(crate) struct Driver {
    pub(crate) mode: Mode,
    pub(crate) bit: Bit,
    pub(crate) control: Bit,
    pub(crate) net: u32,
    pub(crate) span: Span,
}

impl Driver {
    /// Adds the cell.
    pub(crate) fn add(self, alloc: Global, cells: &mut Vec<Cell>) -> Result<(), AllocError>
        ensures { OnOk result (cells.new.items ≡ cells.old.items ++ new_cells self.mode self.bit self.control self.net self.span) }
    {
        match self.mode {
            Mode::Const0 | Mode::Const1 => return Ok(()),
            Mode::Inv => cells.push(self.inverter(alloc)?)?,
            Mode::Cnot0 => cells.push(self.gate(alloc, CellKind::Xnor)?)?,
            Mode::Cnot1 => cells.push(self.gate(alloc, CellKind::Xor)?)?,
        }
        Ok(())
    }

    /// The cell that inverts the bit.
    fn inverter(self, alloc: Global) -> Result<Cell, AllocError>
        ensures { IfOk result (λ c. c ≡ record { kind = Not; is_signed = false; ports = (self.bit ∷ []) ∷ (Net self.net ∷ []) ∷ []; span = self.span }) }
    {
        let ports = vec![in alloc;
            one_bit(alloc, self.bit)?,
            one_bit(alloc, Bit::Net(self.net))?,
        ]?;
        Ok(self.cell(CellKind::Not, PortList::from_vec(ports)))
    }

    /// The cell of the bit and its control bit.
    fn gate(self, alloc: Global, kind: CellKind) -> Result<Cell, AllocError>
        ensures { IfOk result (λ c. c ≡ record { kind = kind; is_signed = false; ports = (self.bit ∷ []) ∷ (self.control ∷ []) ∷ (Net self.net ∷ []) ∷ []; span = self.span }) }
    {
        let ports = vec![in alloc;
            one_bit(alloc, self.bit)?,
            one_bit(alloc, self.control)?,
            one_bit(alloc, Bit::Net(self.net))?,
        ]?;
        Ok(self.cell(kind, PortList::from_vec(ports)))
    }

    /// The cell of this kind with these ports.
    fn cell(self, kind: CellKind, ports: PortList) -> Cell
        ensures { result ≡ record { kind = kind; is_signed = false; ports = ports; span = self.span } }
    {
        Cell {
            kind,
            is_signed: false,
            ports,
            span: self.span,
        }
    }
}

/// A port of one bit.
fn one_bit(alloc: Global, bit: Bit) -> Result<BitList, AllocError>
    ensures { IfOk result (λ bits. bits ≡ bit ∷ []) }
{
    let bits = vec![in alloc; bit]?;
    Ok(BitList::from_vec(bits))
}
