//! Shifts of a row by the number that another row has.
ghost use Rattle.std.specs.Prelude.{◌≡◌, ◌+◌, ◌*◌, ◌≤◌, ◌^◌, All, IfOk, length};
ghost use Rattle.netlist_core.specs.Numbers.{number};
ghost use Rattle.gate_list.specs.Gates.{count, IsLit, lit_value};
ghost use Rattle.gate_words.specs.Bits.{lit_values, AddsBits};
ghost use Rattle.gate_words.specs.Shifts.{moved, past_end, shift_of};

use crate::operation::Operation;
use crate::rows::{chain, repeated, row};
use gate_list::{GateList, GateLit};
use std::alloc::{AllocError, Global};

/// Where bits go: up to higher numbers, or down.
#[derive(Clone, Copy, Debug, PartialEq, Eq)]
pub enum Way {
    Up,
    Down,
}

/// The row moved by so many places, where what gets free is filled.
pub(crate) fn moved(
    alloc: Global,
    way: Way,
    places: usize,
    fill: GateLit,
    bits: &[GateLit],
) -> Result<Vec<GateLit>, AllocError>
    ensures { IfOk result (λ found. found.items ≡ moved way places fill bits.now) }
{
    match way {
        Way::Up => moved_up(alloc, places, fill, bits),
        Way::Down => moved_down(alloc, places, fill, bits),
    }
}

/// The row moved up, cut to its width.
fn moved_up(
    alloc: Global,
    places: usize,
    fill: GateLit,
    bits: &[GateLit],
) -> Result<Vec<GateLit>, AllocError>
    ensures { IfOk result (λ found. found.items ≡ moved Way.Up places fill bits.now) }
{
    let mut found = repeated(alloc, fill, places)?;
    found.extend_from_slice(bits)?;
    found.truncate(bits.len());
    Ok(found)
}

/// The row moved down.
fn moved_down(
    alloc: Global,
    places: usize,
    fill: GateLit,
    bits: &[GateLit],
) -> Result<Vec<GateLit>, AllocError>
    ensures { IfOk result (λ found. found.items ≡ moved Way.Down places fill bits.now) }
{
    let mut found = Vec::from_slice(alloc, &bits[places.min(bits.len())..])?;
    found.resize(bits.len(), fill)?;
    Ok(found)
}

/// The row, or where one of the higher bits is 1 a row of the fill alone.
fn past_end(
    alloc: Global,
    fill: GateLit,
    bits: &[GateLit],
    higher: &[GateLit],
    gates: &mut GateList,
) -> Result<Vec<GateLit>, AllocError>
    requires room { length gates.old.made + length higher.now + length bits.now ≤ 2 ^ 30 }
    requires fill { IsLit (count gates.old) fill }
    requires bits { All (IsLit (count gates.old)) bits.now }
    requires higher { All (IsLit (count gates.old)) higher.now }
    ensures { IfOk result (λ found. record { gates = gates.new; bits = found.items } ≡ past_end gates.old fill bits.now higher.now) }
{
    let past = chain(Operation::Or, GateLit::Fixed(false), higher, gates)?;
    let filled = repeated(alloc, fill, bits.len())?;
    row(alloc, Operation::Mux(past), bits, &filled, gates)
}

/// The row shifted by the number of another one, where what gets free is filled.
pub fn shifted(
    alloc: Global,
    way: Way,
    fill: GateLit,
    bits: &[GateLit],
    places: &[GateLit],
    gates: &mut GateList,
) -> Result<Vec<GateLit>, AllocError>
    requires room { length gates.old.made ≤ 2 ^ 29 }
    requires narrow { length bits.now ≤ 128 }
    requires short { length places.now ≤ 128 }
    requires fill { IsLit (count gates.old) fill }
    requires bits { All (IsLit (count gates.old)) bits.now }
    requires places { All (IsLit (count gates.old)) places.now }
    ensures made { IfOk result (λ found. record { gates = gates.new; bits = found.items } ≡ shift_of way fill gates.old bits.now places.now) }
    ensures adds { IfOk result (λ found. AddsBits gates.old gates.new found.items (length bits.now) (8 * length bits.now + length places.now) (λ values word. word ≡ moved way (number (lit_values values places.now)) (lit_value values fill) (lit_values values bits.now))) }
{
    let mut found = Vec::from_slice(alloc, bits)?;
    let mut place = 0;
    let mut weight = 1;
    while place < places.len() && weight < bits.len() {
        let next = moved(alloc, way, weight, fill, &found)?;
        found = row(alloc, Operation::Mux(places[place]), &found, &next, gates)?;
        place += 1;
        weight *= 2;
    }
    past_end(alloc, fill, &found, &places[place..], gates)
}
