//! The bits at a place of a netlist, and who reads them.
ghost use Rattle.std.specs.Prelude.{◌≡◌, ◌+◌, ◌%◌, ◌<◌, length, slice_get};
ghost use Rattle.netlist_core.specs.Orders.{ports_of};
ghost use Rattle.mutation_sites.specs.Mutants.{register_port, port_at, readers_at, readers_at_port, readers_at_register};
ghost use Rattle.mutation_sites.specs.Wiring.{bit_of, control_of, span_at, no_span};

use crate::readers::Readers;
use crate::site::{Place, Site};
use mcy_base::Span;
use netlist_core::{Bit, BitList, RawNetlist};

/// The bits at a port of a place; none where there is no such port.
pub(crate) fn port_at(raw: &RawNetlist, place: Place, port: u8) -> &[Bit]
    ensures { result.now ≡ port_at raw.now place port }
{
    match place {
        Place::Cell(cell) => match ports_of(raw, cell).get(port as usize) {
            Some(bits) => bits.as_slice(),
            None => &[],
        },
        Place::Register(register) => register_port(raw, register, port),
    }
}

/// The ports of a cell.
fn ports_of(raw: &RawNetlist, cell: u32) -> &[BitList]
    ensures { result.now ≡ ports_of (slice_get raw.now.cells cell) }
{
    match raw.cells.as_slice().get(cell as usize) {
        Some(cell) => cell.ports.as_slice(),
        None => &[],
    }
}

/// The D or the Q of a register.
fn register_port(raw: &RawNetlist, register: u32, port: u8) -> &[Bit]
    ensures { result.now ≡ register_port (slice_get raw.now.registers register) port }
{
    match raw.registers.as_slice().get(register as usize) {
        Some(register) => {
            if port == 0 {
                register.d.as_slice()
            } else {
                register.q.as_slice()
            }
        }
        None => &[],
    }
}

/// Bit i of these bits.
pub(crate) fn bit_of(bits: &[Bit], i: usize) -> Bit
    requires { i < length bits.now }
    ensures { result ≡ bit_of bits.now i }
{
    bits[i]
}

/// The bit that controls bit i of these bits: the next one, and after the last the first.
pub(crate) fn control_of(bits: &[Bit], i: usize) -> Bit
    requires { i < length bits.now }
    ensures { result ≡ control_of bits.now i }
{
    bits[(i + 1) % bits.len()]
}

/// Who reads the mutated bit of a site.
pub(crate) fn readers_at(raw: &RawNetlist, site: &Site) -> Readers
    ensures { result ≡ readers_at raw.now site.now.place site.now.port site.now.bit }
{
    match site.place {
        Place::Cell(cell) => readers_at_port(cell, site.port, site.bit, ports_of(raw, cell)),
        Place::Register(register) => {
            let q = register_port(raw, register, 1);
            readers_at_register(register, site.port, site.bit, q)
        }
    }
}

/// The readers at a port of a cell: at an input port the cell alone, at Y all.
fn readers_at_port(cell: u32, port: u8, bit: u8, ports: &[BitList]) -> Readers
    ensures { result ≡ readers_at_port cell port bit ports.now }
{
    let place = port as usize;
    if place + 1 != ports.len() {
        return Readers::OfPort { cell, port, bit };
    }
    Readers::of_bit(bit_or_zero(ports[place].as_slice(), bit))
}

/// The readers at a port of a register: at D the register alone, at Q all.
fn readers_at_register(register: u32, port: u8, bit: u8, q: &[Bit]) -> Readers
    ensures { result ≡ readers_at_register register port bit q.now }
{
    if port == 0 {
        return Readers::OfNext { register, bit };
    }
    Readers::of_bit(bit_or_zero(q, bit))
}

/// Bit i of these bits, 0 where there is none.
fn bit_or_zero(bits: &[Bit], i: u8) -> Bit
    ensures { result ≡ bit_of bits.now i }
{
    bits.get(i as usize).copied().unwrap_or(Bit::Fixed(false))
}

/// The place in the sources of a cell or a register; of one that the netlist does not have, line 0 of file 0.
pub fn span_at(raw: &RawNetlist, place: Place) -> Span
    ensures { result ≡ span_at raw.now place }
{
    match place {
        Place::Cell(cell) => match raw.cells.as_slice().get(cell as usize) {
            Some(cell) => cell.span,
            None => no_span(),
        },
        Place::Register(register) => match raw.registers.as_slice().get(register as usize) {
            Some(register) => register.span,
            None => no_span(),
        },
    }
}

/// No place in a source.
fn no_span() -> Span
    ensures { result ≡ no_span }
{
    Span {
        file: 0,
        line: 0,
        col: 0,
    }
}
