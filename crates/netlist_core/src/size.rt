//! How many bits a netlist has.
ghost use Rattle.std.specs.Prelude.{◌≡◌};
ghost use Rattle.netlist_core.specs.Runs.{bits_at, q_bits, output_port};
ghost use Rattle.netlist_core.specs.Drivers.{y_bits};
ghost use Rattle.netlist_core.specs.Checked.{all_bits, net_bits, free_bits};
ghost use Rattle.netlist_core.specs.Sizes.{counted};

use crate::cell::{Cell, output_port};
use crate::port::{Port, Register};
use crate::raw::RawNetlist;

/// The bits of inputs or outputs together.
fn port_bits(ports: &[Port]) -> usize
    ensures { result ≡ counted (all_bits (bits_at ports.now)) }
{
    let mut total: usize = 0;
    for port in ports {
        total = total.saturating_add(port.bits.as_slice().len());
    }
    total
}

/// The bits of registers together.
pub fn register_bits(registers: &[Register]) -> usize
    ensures { result ≡ counted (all_bits (q_bits registers.now)) }
{
    let mut total: usize = 0;
    for register in registers {
        total = total.saturating_add(register.q.as_slice().len());
    }
    total
}

/// The bits of cells' Y together.
fn cell_bits(cells: &[Cell]) -> usize
    ensures { result ≡ counted (all_bits (y_bits cells.now)) }
{
    let mut total: usize = 0;
    for cell in cells {
        total = total.saturating_add(output_port(cell.ports.as_slice()).len());
    }
    total
}

/// The bits of inputs, outputs, registers and cells' Y together.
pub fn net_bits(raw: &RawNetlist) -> usize
    ensures { result ≡ counted (net_bits raw.now) }
{
    port_bits(raw.inputs.as_slice())
        .saturating_add(port_bits(raw.outputs.as_slice()))
        .saturating_add(register_bits(raw.registers.as_slice()))
        .saturating_add(cell_bits(raw.cells.as_slice()))
}

/// The bits of inputs and registers together.
pub(crate) fn free_bits(raw: &RawNetlist) -> usize
    ensures { result ≡ counted (free_bits raw.now) }
{
    port_bits(raw.inputs.as_slice()).saturating_add(register_bits(raw.registers.as_slice()))
}
