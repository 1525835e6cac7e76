//! Whether the parts of a netlist are formed as `Netlist::check` asks: widths in range, and drivers that are nets.
ghost use Rattle.std.specs.Prelude.{◌≡◌, ◌≤◌, ◌↔◌, IsTrue, length};
ghost use Rattle.netlist_core.specs.Runs.{bits_at, q_bits, output_port};
ghost use Rattle.netlist_core.specs.Drivers.{y_bits};
ghost use Rattle.netlist_core.specs.Checked.{AllWide, AllNets, AllPortsNets, AllRegistersFit, AllCellsWide, IsFormed};

use crate::bit::{Bit, BitList};
use crate::cell::{Cell, output_port};
use crate::port::{Port, Register};
use crate::raw::RawNetlist;

/// Whether a port has 1 to 128 bits.
fn is_wide(bits: &[Bit]) -> bool
    ensures { IsTrue result ↔ ((1 ≤ length bits.now) × (length bits.now ≤ 128)) }
{
    1 <= bits.len() && bits.len() <= 128
}

/// Whether each bit is a net.
fn are_nets(bits: &[Bit]) -> bool
    ensures { IsTrue result ↔ AllNets bits.now }
{
    for bit in bits {
        if let Bit::Fixed(_) = *bit {
            return false;
        }
    }
    true
}

/// Whether inputs or outputs have 1 to 128 bits each.
fn are_wide(ports: &[Port]) -> bool
    ensures { IsTrue result ↔ AllWide (bits_at ports.now) }
{
    for port in ports {
        if !is_wide(port.bits.as_slice()) {
            return false;
        }
    }
    true
}

/// Whether the bits of inputs are nets.
fn are_entered(ports: &[Port]) -> bool
    ensures { IsTrue result ↔ AllPortsNets (bits_at ports.now) }
{
    for port in ports {
        if !are_nets(port.bits.as_slice()) {
            return false;
        }
    }
    true
}

/// Whether D and Q of a register are as wide as its start value.
fn fits(register: &Register) -> bool
    ensures { IsTrue result ↔ ((length register.now.d ≡ register.now.start.width) × (length register.now.q ≡ register.now.start.width)) }
{
    let width = usize::from(register.start.width());
    register.d.as_slice().len() == width && register.q.as_slice().len() == width
}

/// Whether that holds of each register.
fn all_fit(registers: &[Register]) -> bool
    ensures { IsTrue result ↔ AllRegistersFit registers.now }
{
    for register in registers {
        if !fits(register) {
            return false;
        }
    }
    true
}

/// Whether the bits of Q's are nets.
fn are_stored(registers: &[Register]) -> bool
    ensures { IsTrue result ↔ AllPortsNets (q_bits registers.now) }
{
    for register in registers {
        if !are_nets(register.q.as_slice()) {
            return false;
        }
    }
    true
}

/// Whether the ports of a cell have 1 to 128 bits each.
fn has_wide_ports(ports: &[BitList]) -> bool
    ensures { IsTrue result ↔ AllWide ports.now }
{
    for port in ports {
        if !is_wide(port.as_slice()) {
            return false;
        }
    }
    true
}

/// Whether that holds of each cell.
fn all_have_wide_ports(cells: &[Cell]) -> bool
    ensures { IsTrue result ↔ AllCellsWide cells.now }
{
    for cell in cells {
        if !has_wide_ports(cell.ports.as_slice()) {
            return false;
        }
    }
    true
}

/// Whether the bits of Y's are nets.
fn are_computed(cells: &[Cell]) -> bool
    ensures { IsTrue result ↔ AllPortsNets (y_bits cells.now) }
{
    for cell in cells {
        if !are_nets(output_port(cell.ports.as_slice())) {
            return false;
        }
    }
    true
}

/// Whether widths are in range, and those of a register are one.
fn has_widths(raw: &RawNetlist) -> bool
    ensures { IsTrue result ↔ (AllWide (bits_at raw.now.inputs) × AllWide (bits_at raw.now.outputs) × AllRegistersFit raw.now.registers × AllCellsWide raw.now.cells) }
{
    let inputs = are_wide(raw.inputs.as_slice());
    let outputs = are_wide(raw.outputs.as_slice());
    let registers = all_fit(raw.registers.as_slice());
    let cells = all_have_wide_ports(raw.cells.as_slice());
    inputs && outputs && registers && cells
}

/// Whether the bits of inputs, Q's and Y's are nets.
fn drives_nets(raw: &RawNetlist) -> bool
    ensures { IsTrue result ↔ (AllPortsNets (bits_at raw.now.inputs) × AllPortsNets (q_bits raw.now.registers) × AllPortsNets (y_bits raw.now.cells)) }
{
    let inputs = are_entered(raw.inputs.as_slice());
    let registers = are_stored(raw.registers.as_slice());
    let cells = are_computed(raw.cells.as_slice());
    inputs && registers && cells
}

/// Whether each input, output and port of a cell has 1 to 128 bits, D and Q of each register are as wide as its
/// start value, and no bit of an input, a Q or a Y is a constant.
pub fn is_formed(raw: &RawNetlist) -> bool
    ensures { IsTrue result ↔ IsFormed raw.now }
{
    let widths = has_widths(raw);
    let nets = drives_nets(raw);
    widths && nets
}
