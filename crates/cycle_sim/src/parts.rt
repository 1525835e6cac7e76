//! Bits of a port as parts of what drives them.
//!
//! The drivers of a netlist are its inputs, its registers' Q and its cells' Y, counted from 0 in this order. A table has
//! one number for each. A part is some consecutive bits of one driver, or a constant some times over; the parts of a
//! port stand side by side from its bit 0 on, so a port that reads a whole driver has one.
ghost use Rattle.std.specs.Prelude.{◌≡◌, ◌≤◌, ◌<◌, ◌^◌, length};
ghost use Rattle.cycle_sim.specs.Parts.{part_number, parts_number, total, IsInside, AllInside, IsReadable};

use mcy_base::{Items, Word};
use netlist_core::CellKind;

/// Where a bit is driven: a driver, and the number of the bit there.
#[derive(Clone, Copy)]
pub(crate) struct Place {
    pub(crate) driver: u32,
    pub(crate) bit: u8,
}

/// Where a part begins.
#[derive(Clone, Copy)]
pub(crate) enum Source {
    /// A constant, which goes on for ever.
    Constant(bool),
    /// A bit of a driver, and those above it.
    Driver(Place),
}

/// So many bits from a source on.
#[derive(Clone, Copy)]
pub(crate) struct Part {
    pub(crate) first: Source,
    pub(crate) width: u8,
}

/// How the number at parts is read.
#[derive(Clone, Copy)]
pub(crate) enum Reading {
    /// It is this one, whatever the table has.
    Number(u128),
    /// It is that of a driver.
    Whole(u32),
    /// There is one part.
    Single(Part),
    /// Part by part.
    Several,
}

/// The bits of a port: how many, and their parts from bit 0 on.
#[derive(Drop)]
pub(crate) struct Wires {
    pub(crate) width: u8,
    pub(crate) reading: Reading,
    pub(crate) parts: Items<Part>,
}

/// A cell as it is computed: the width of its Y, and the wires of its input ports.
#[derive(Drop)]
pub(crate) struct Gate {
    pub(crate) kind: CellKind,
    pub(crate) is_signed: bool,
    pub(crate) width: u8,
    pub(crate) ports: Items<Wires>,
}

/// The number at a part.
fn number_at(table: &[u128], part: Part) -> u128
    requires some { 1 ≤ part.width }
    requires narrow { part.width ≤ 128 }
    requires inside { IsInside (length table.now) part.first }
    ensures value { result ≡ part_number table.now part }
    ensures fits { result < 2 ^ part.width }
{
    let ones = u128::MAX >> (128 - part.width);
    match part.first {
        Source::Constant(bit) => { if bit { ones } else { 0 } }
        Source::Driver(place) => (table[place.driver as usize] >> place.bit) & ones,
    }
}

/// The number at parts.
fn number_of(table: &[u128], parts: &[Part]) -> u128
    requires narrow { total parts.now ≤ 128 }
    requires inside { AllInside (length table.now) parts.now }
    ensures value { result ≡ parts_number table.now parts.now }
    ensures fits { result < 2 ^ total parts.now }
{
    match parts {
        [] => 0,
        [only] => number_at(table, *only),
        [first, rest @ ..] => {
            let above = number_of(table, rest);
            number_at(table, *first) + (above << first.width)
        }
    }
}

/// The word of this width with this number.
pub(crate) fn word_of(width: u8, number: u128) -> Word
    requires some { 1 ≤ width }
    requires narrow { width ≤ 128 }
    requires fits { number < 2 ^ width }
    ensures width { result.width ≡ width }
    ensures bits { result.bits ≡ number }
{
    Word::new(width, number).unwrap()
}

/// The number at wires.
pub(crate) fn wires_number(table: &[u128], wires: &Wires) -> u128
    requires { IsReadable table.now wires.now }
    ensures value { result ≡ parts_number table.now wires.now.parts }
    ensures fits { result < 2 ^ wires.now.width }
{
    match wires.reading {
        Reading::Number(number) => number,
        Reading::Whole(driver) => table[driver as usize],
        Reading::Single(part) => number_at(table, part),
        Reading::Several => number_of(table, wires.parts.as_slice()),
    }
}

/// The word at wires.
pub(crate) fn word_at(table: &[u128], wires: &Wires) -> Word
    requires { IsReadable table.now wires.now }
    ensures width { result.width ≡ wires.now.width }
    ensures bits { result.bits ≡ parts_number table.now wires.now.parts }
{
    word_of(wires.width, wires_number(table, wires))
}
