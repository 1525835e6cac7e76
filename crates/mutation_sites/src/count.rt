//! How many sites a netlist has, without the list of them.
ghost use Rattle.std.specs.Prelude.{◌≡◌, ◌<◌, ◌^◌, length};
ghost use Rattle.mutation_sites.specs.Sites.{sites};
ghost use Rattle.mutation_sites.specs.Counts.{port_count, ports_count, cells_count, registers_count};

use crate::mode::ModeSet;
use netlist_core::{Bit, BitList, Cell, Netlist, Register};

/// How many sites the netlist has for a set of modes.
pub fn site_count(netlist: &Netlist, modes: ModeSet) -> u64
    ensures { result ≡ length (sites modes netlist.now.raw) }
{
    let raw = netlist.raw();
    let cells = cells_count(raw.cells.as_slice(), modes);
    let registers = registers_count(raw.registers.as_slice(), modes);
    cells + registers
}

/// The sites of cells.
fn cells_count(cells: &[Cell], modes: ModeSet) -> u64
    requires { cells_count modes cells.now < 2 ^ 64 }
    ensures { result ≡ cells_count modes cells.now }
{
    let mut count = 0;
    for cell in cells {
        count += ports_count(cell.ports.as_slice(), modes);
    }
    count
}

/// The sites of registers.
fn registers_count(registers: &[Register], modes: ModeSet) -> u64
    requires { registers_count modes registers.now < 2 ^ 64 }
    ensures { result ≡ registers_count modes registers.now }
{
    let mut count = 0;
    for register in registers {
        count += port_count(register.d.as_slice(), modes);
        count += port_count(register.q.as_slice(), modes);
    }
    count
}

/// The sites of a cell, from the bits at its ports.
fn ports_count(ports: &[BitList], modes: ModeSet) -> u64
    requires { ports_count modes ports.now < 2 ^ 64 }
    ensures { result ≡ ports_count modes ports.now }
{
    let mut count = 0;
    for bits in ports {
        count += port_count(bits.as_slice(), modes);
    }
    count
}

/// The sites of a port: as many at each bit as there are modes.
fn port_count(bits: &[Bit], modes: ModeSet) -> u64
    requires { port_count modes bits.now < 2 ^ 64 }
    ensures { result ≡ port_count modes bits.now }
{
    bits.len() as u64 * modes.at_width(bits.len()).count()
}
