//! Which parts each reader reads.
ghost use Rattle.std.specs.Prelude.{◌≡◌, ◌≤◌, ◌<◌, ◌+◌, ◌++◌, ◌∷◌, ◌^◌, [], List, IfOk, IfSome, OnOk, IsTrue, map, length};
ghost use Rattle.std.specs.List.{All};
ghost use Rattle.netlist_core.specs.declared.bit.Bit.{Bit as Wire};
ghost use Rattle.netlist_core.specs.Numbers.{number};
ghost use Rattle.netlist_core.specs.Runs.{Nets as Values, values, bits_at, d_bits, input_ports};
ghost use Rattle.netlist_core.specs.Solutions.{driving};
ghost use Rattle.cycle_sim.specs.Parts.{source_bits, part_bits, all_bits, AllWhole, IsReading, IsWired, AllWired};
ghost use Rattle.cycle_sim.specs.Places.{ArePlaced, ArePortsPlaced, AreBelow, ArePortsBelow};
ghost use Rattle.cycle_sim.specs.Gates.{AllGates};
ghost use Rattle.cycle_sim.specs.Marks.{AreReaders};

use crate::parts::{Gate, Part, Place, Reading, Source, Wires};
use crate::places::{places_of, widths_of};
use crate::readers::readers_of;
use mcy_base::Items;
use netlist_core::{Bit, BitList, Netlist, input_ports, output_port};
use std::alloc::{AllocError, Global};

/// Whether a bit is the one after a part.
fn goes_on(part: Part, next: Source) -> bool
    ensures narrow { IsTrue result → part.width < 128 }
    ensures bits { IsTrue result → (drivers : List (List Wire)) (bit : Wire) → length (part_bits drivers part) ≡ part.width → source_bits drivers next 1 ≡ bit ∷ [] → source_bits drivers part.first (part.width + 1) ≡ part_bits drivers part ++ bit ∷ [] }
{
    if part.width >= 128 {
        return false;
    }
    match (part.first, next) {
        (Source::Constant(a), Source::Constant(b)) => a == b,
        (Source::Driver(a), Source::Driver(b)) => {
            a.driver == b.driver && u32::from(a.bit) + u32::from(part.width) == u32::from(b.bit)
        }
        _ => false,
    }
}

/// A part of one bit.
fn one(first: Source) -> Part
    ensures { result ≡ record { first = first; width = 1 } }
{
    Part { first, width: 1 }
}

/// Adds a bit above parts: to the last one where it goes on there, else as a part of its own.
fn add_bit(parts: &mut Vec<Part>, next: Source) -> Result<(), AllocError>
    ensures { OnOk result ((drivers : List (List Wire)) (bit : Wire) → AllWhole drivers parts.old.items → source_bits drivers next 1 ≡ bit ∷ [] → AllWhole drivers parts.new.items × (all_bits drivers parts.new.items ≡ all_bits drivers parts.old.items ++ bit ∷ [])) }
{
    let Some(last) = parts.pop() else {
        parts.push(one(next))?;
        return Ok(());
    };
    if goes_on(last, next) {
        parts.push(Part {
            first: last.first,
            width: last.width + 1,
        })?;
        return Ok(());
    }
    parts.push(last)?;
    parts.push(one(next))?;
    Ok(())
}

/// Where a bit comes from.
fn source_of(places: &[Place], bit: Bit) -> Source
    requires { AreBelow (length places.now) (bit ∷ []) }
    ensures { (drivers : List (List Wire)) → ArePlaced drivers places.now (bit ∷ []) → source_bits drivers result 1 ≡ bit ∷ [] }
{
    match bit {
        Bit::Fixed(b) => Source::Constant(b),
        Bit::Net(net) => Source::Driver(places[net as usize]),
    }
}

/// The number of bits that are all constants.
fn fixed_number(bits: &[Bit]) -> Option<u128>
    requires { length bits.now ≤ 128 }
    ensures value { IfSome result (λ n. (nets : Values) → number (values nets bits.now) ≡ n) }
    ensures fits { IfSome result (λ n. n < 2 ^ length bits.now) }
{
    match bits {
        [] => Some(0),
        [first, rest @ ..] => match *first {
            Bit::Net(_) => None,
            Bit::Fixed(bit) => {
                let above = fixed_number(rest)?;
                if bit {
                    Some(2 * above + 1)
                } else {
                    Some(2 * above)
                }
            }
        },
    }
}

/// How the number at one part is read, where drivers have these widths.
fn single(widths: &[u8], part: Part) -> Reading
    ensures { (drivers : List (List Wire)) → map length drivers ≡ widths.now → IsReading drivers result (part_bits drivers part) (part ∷ []) }
{
    match part.first {
        Source::Constant(_) => Reading::Single(part),
        Source::Driver(place) => {
            let driver = place.driver as usize;
            if place.bit == 0 && driver < widths.len() && widths[driver] == part.width {
                Reading::Whole(place.driver)
            } else {
                Reading::Single(part)
            }
        }
    }
}

/// How the number at parts is read, where drivers have these widths.
fn reading_of(widths: &[u8], bits: &[Bit], parts: &[Part]) -> Reading
    requires { length bits.now ≤ 128 }
    ensures { (drivers : List (List Wire)) → map length drivers ≡ widths.now → all_bits drivers parts.now ≡ bits.now → AllWhole drivers parts.now → IsReading drivers result bits.now parts.now }
{
    if let Some(number) = fixed_number(bits) {
        return Reading::Number(number);
    }
    match parts {
        [only] => single(widths, *only),
        _ => Reading::Several,
    }
}

/// The wires of bits.
fn wires_of(
    alloc: Global,
    places: &[Place],
    widths: &[u8],
    bits: &[Bit],
) -> Result<Wires, AllocError>
    requires below { AreBelow (length places.now) bits.now }
    requires narrow { length bits.now ≤ 128 }
    ensures { (drivers : List (List Wire)) → ArePlaced drivers places.now bits.now → map length drivers ≡ widths.now → IfOk result (λ w. IsWired drivers w bits.now) }
{
    let mut parts = Vec::new(alloc);
    for bit in bits {
        add_bit(&mut parts, source_of(places, *bit))?;
    }
    Ok(Wires {
        width: bits.len() as u8,
        reading: reading_of(widths, bits, parts.as_slice()),
        parts: Items::from_vec(parts),
    })
}

/// The wires of ports.
fn wires_at(
    alloc: Global,
    places: &[Place],
    widths: &[u8],
    ports: &[BitList],
) -> Result<Items<Wires>, AllocError>
    requires below { ArePortsBelow (length places.now) ports.now }
    requires narrow { All (λ bits. length bits ≤ 128) ports.now }
    ensures { (drivers : List (List Wire)) → ArePortsPlaced drivers places.now ports.now → map length drivers ≡ widths.now → IfOk result (λ w. AllWired drivers w ports.now) }
{
    let mut wires = Vec::new(alloc);
    for port in ports {
        wires.push(wires_of(alloc, places, widths, port.as_slice())?)?;
    }
    Ok(Items::from_vec(wires))
}

/// The gate of each cell.
fn gates(
    alloc: Global,
    places: &[Place],
    widths: &[u8],
    netlist: &Netlist,
) -> Result<Vec<Gate>, AllocError>
    requires long { length places.now ≡ netlist.now.nets }
    requires placed { ArePortsPlaced (driving netlist.now.raw) places.now (driving netlist.now.raw) }
    requires widths { widths.now ≡ map length (driving netlist.now.raw) }
    ensures { IfOk result (λ g. AllGates (driving netlist.now.raw) g.items netlist.now.raw.cells) }
{
    let mut gates = Vec::new(alloc);
    for cell in netlist.raw().cells.as_slice() {
        gates.push(Gate {
            kind: cell.kind,
            is_signed: cell.is_signed,
            width: output_port(cell.ports.as_slice()).len() as u8,
            ports: wires_at(alloc, places, widths, input_ports(cell.ports.as_slice()))?,
        })?;
    }
    Ok(gates)
}

/// For each register the wires of its D.
fn next_wires(
    alloc: Global,
    places: &[Place],
    widths: &[u8],
    netlist: &Netlist,
) -> Result<Vec<Wires>, AllocError>
    requires long { length places.now ≡ netlist.now.nets }
    requires placed { ArePortsPlaced (driving netlist.now.raw) places.now (driving netlist.now.raw) }
    requires widths { widths.now ≡ map length (driving netlist.now.raw) }
    ensures { IfOk result (λ w. AllWired (driving netlist.now.raw) w.items (d_bits netlist.now.raw.registers)) }
{
    let mut wires = Vec::new(alloc);
    for register in netlist.raw().registers.as_slice() {
        wires.push(wires_of(alloc, places, widths, register.d.as_slice())?)?;
    }
    Ok(wires)
}

/// For each output its wires.
fn output_wires(
    alloc: Global,
    places: &[Place],
    widths: &[u8],
    netlist: &Netlist,
) -> Result<Vec<Wires>, AllocError>
    requires long { length places.now ≡ netlist.now.nets }
    requires placed { ArePortsPlaced (driving netlist.now.raw) places.now (driving netlist.now.raw) }
    requires widths { widths.now ≡ map length (driving netlist.now.raw) }
    ensures { IfOk result (λ w. AllWired (driving netlist.now.raw) w.items (bits_at netlist.now.raw.outputs)) }
{
    let mut wires = Vec::new(alloc);
    for port in netlist.raw().outputs.as_slice() {
        wires.push(wires_of(alloc, places, widths, port.bits.as_slice())?)?;
    }
    Ok(wires)
}

/// Where each reader finds its bits, and which cells read each driver.
#[derive(Drop)]
pub(crate) struct Wiring {
    pub(crate) gates: Vec<Gate>,
    pub(crate) next: Vec<Wires>,
    pub(crate) outputs: Vec<Wires>,
    pub(crate) readers: Vec<Items<usize>>,
}

/// The wiring of a netlist.
pub(crate) fn wiring_of(alloc: Global, netlist: &Netlist) -> Result<Wiring, AllocError>
    ensures gates { IfOk result (λ w. AllGates (driving netlist.now.raw) w.gates.items netlist.now.raw.cells) }
    ensures next { IfOk result (λ w. AllWired (driving netlist.now.raw) w.next.items (d_bits netlist.now.raw.registers)) }
    ensures outputs { IfOk result (λ w. AllWired (driving netlist.now.raw) w.outputs.items (bits_at netlist.now.raw.outputs)) }
    ensures readers { IfOk result (λ w. AreReaders netlist.now w.readers.items) }
{
    let places = places_of(alloc, netlist)?;
    let widths = widths_of(alloc, netlist)?;
    let gates = gates(alloc, places.as_slice(), widths.as_slice(), netlist)?;
    let next = next_wires(alloc, places.as_slice(), widths.as_slice(), netlist)?;
    let outputs = output_wires(alloc, places.as_slice(), widths.as_slice(), netlist)?;
    let readers = readers_of(alloc, places.as_slice(), netlist)?;
    Ok(Wiring {
        gates,
        next,
        outputs,
        readers,
    })
}
