//! Copies of a netlist's parts in which readers are connected to another bit.
ghost use Rattle.std.specs.Prelude.{◌≡◌, ◌≤◌, length, map, slice_set, IfOk, if◌then◌else◌};
ghost use Rattle.netlist_core.specs.Runs.{Port as ReaderPort};
ghost use Rattle.mutation_sites.specs.declared.readers.Change.TheVariants.{Nothing};
ghost use Rattle.mutation_sites.specs.Mutants.{change_of};
ghost use Rattle.mutation_sites.specs.Wiring.{replaced, connected, ports_connected, cell_connected, cells_connected, register_connected, registers_connected, port_connected};

use crate::readers::{Change, Readers};
use mcy_base::{Items, Text};
use netlist_core::{
    Bit, BitList, Cell, Netlist, Port, PortList, Ports, Register, RegisterList, copy_bits,
};
use std::alloc::{AllocError, Global};

/// Which readers read the new bit.
#[derive(Clone, Copy)]
pub(crate) struct Wiring {
    pub(crate) readers: Readers,
    pub(crate) new: Bit,
}

/// A bit, where a net is replaced.
fn replaced(net: u32, new: Bit, bit: Bit) -> Bit
    ensures { result ≡ replaced net new bit }
{
    match bit {
        Bit::Net(n) if n == net => new,
        other => other,
    }
}

/// A reader's bits with the change.
fn connected(alloc: Global, bits: &BitList, change: Change, new: Bit) -> Result<BitList, AllocError>
    ensures { IfOk result (λ b. b ≡ connected change new bits.now) }
{
    match change {
        Change::Nothing => copy_bits(alloc, bits),
        Change::AtBit(bit) => with_bit(alloc, bits.as_slice(), bit, new),
        Change::AtNet(net) => with_net(alloc, bits.as_slice(), net, new),
    }
}

/// The bits with the new one at this place, where there is such a place.
fn with_bit(alloc: Global, bits: &[Bit], bit: u8, new: Bit) -> Result<BitList, AllocError>
    ensures { IfOk result (λ b. b ≡ slice_set bits.now bit new) }
{
    let mut items = bits.to_vec(alloc)?;
    set_bit(&mut items, bit as usize, new);
    Ok(Items::from_vec(items))
}

/// Sets a bit, where there is one of this number.
fn set_bit(bits: &mut [Bit], i: usize, new: Bit)
    ensures { bits.new ≡ slice_set bits.old i new }
{
    if i < bits.len() {
        bits[i] = new;
    }
}

/// The bits with the new one in place of a net.
fn with_net(alloc: Global, bits: &[Bit], net: u32, new: Bit) -> Result<BitList, AllocError>
    ensures { IfOk result (λ b. b ≡ map (replaced net new) bits.now) }
{
    let mut items = Vec::new(alloc);
    for bit in bits {
        items.push(replaced(net, new, *bit))?;
    }
    Ok(Items::from_vec(items))
}

/// The ports of a cell: each input port with its change, and Y.
fn ports_connected(
    alloc: Global,
    wiring: Wiring,
    cell: u32,
    ports: &[BitList],
) -> Result<PortList, AllocError>
    requires { length ports.now ≤ 4 }
    ensures { IfOk result (λ p. p ≡ ports_connected wiring.readers wiring.new cell 0 ports.now) }
{
    let mut items = Vec::new(alloc);
    for (port, bits) in ports.iter().enumerate() {
        let change = port_change(wiring.readers, cell, port as u8, port + 1 < ports.len());
        items.push(connected(alloc, bits, change, wiring.new)?)?;
    }
    Ok(Items::from_vec(items))
}

/// What changes at a port of a cell: nothing at Y, which reads nothing.
fn port_change(readers: Readers, cell: u32, port: u8, is_input: bool) -> Change
    ensures { result ≡ if is_input then change_of readers (ReaderPort cell port) else Nothing }
{
    if is_input {
        readers.at_port(cell, port)
    } else {
        Change::Nothing
    }
}

/// A cell, connected so.
fn cell_connected(
    alloc: Global,
    wiring: Wiring,
    number: u32,
    cell: &Cell,
) -> Result<Cell, AllocError>
    requires { length cell.now.ports ≤ 4 }
    ensures { IfOk result (λ c. c ≡ cell_connected wiring.readers wiring.new number cell.now) }
{
    Ok(Cell {
        kind: cell.kind,
        is_signed: cell.is_signed,
        ports: ports_connected(alloc, wiring, number, cell.ports.as_slice())?,
        span: cell.span,
    })
}

/// The cells.
pub(crate) fn cells_connected(
    alloc: Global,
    wiring: Wiring,
    netlist: &Netlist,
) -> Result<Vec<Cell>, AllocError>
    ensures { IfOk result (λ list. list.items ≡ cells_connected wiring.readers wiring.new 0 netlist.now.raw.cells) }
{
    let mut items = Vec::new(alloc);
    for (number, cell) in netlist.raw().cells.as_slice().iter().enumerate() {
        items.push(cell_connected(alloc, wiring, number as u32, cell)?)?;
    }
    Ok(items)
}

/// A register, whose D has its change.
fn register_connected(
    alloc: Global,
    wiring: Wiring,
    number: u32,
    register: &Register,
) -> Result<Register, AllocError>
    ensures { IfOk result (λ r. r ≡ register_connected wiring.readers wiring.new number register.now) }
{
    let change = wiring.readers.at_next(number);
    Ok(Register {
        name: Text::copy(alloc, register.name.as_str())?,
        span: register.span,
        d: connected(alloc, &register.d, change, wiring.new)?,
        q: copy_bits(alloc, &register.q)?,
        start: register.start,
    })
}

/// The registers.
pub(crate) fn registers_connected(
    alloc: Global,
    wiring: Wiring,
    netlist: &Netlist,
) -> Result<RegisterList, AllocError>
    ensures { IfOk result (λ list. list ≡ registers_connected wiring.readers wiring.new 0 netlist.now.raw.registers) }
{
    let mut items = Vec::new(alloc);
    for (number, register) in netlist.raw().registers.as_slice().iter().enumerate() {
        items.push(register_connected(alloc, wiring, number as u32, register)?)?;
    }
    Ok(Items::from_vec(items))
}

/// An input or an output, with a change.
fn port_connected(alloc: Global, port: &Port, change: Change, new: Bit) -> Result<Port, AllocError>
    ensures { IfOk result (λ p. p ≡ port_connected change new port.now) }
{
    Ok(Port {
        name: Text::copy(alloc, port.name.as_str())?,
        bits: connected(alloc, &port.bits, change, new)?,
    })
}

/// Inputs or outputs, with a change.
pub(crate) fn ports_changed(
    alloc: Global,
    ports: &Ports,
    change: Change,
    new: Bit,
) -> Result<Ports, AllocError>
    ensures { IfOk result (λ list. list ≡ map (port_connected change new) ports.now) }
{
    let mut items = Vec::new(alloc);
    for port in ports.as_slice() {
        items.push(port_connected(alloc, port, change, new)?)?;
    }
    Ok(Items::from_vec(items))
}
