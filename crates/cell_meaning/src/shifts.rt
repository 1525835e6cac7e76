//! Shifts (IEEE 1364-2005, 5.1.12).
ghost use Rattle.std.specs.Prelude.{◌≡◌, ◌*◌, ◌/◌, ◌%◌, ◌^◌, Bool, [], ◌∷◌};
ghost use Rattle.cell_meaning.specs.Words.{word_bits, HasValue};

use crate::low::{ones, top};
use mcy_base::Word;
use netlist_core::CellKind;

/// A number shifted down.
pub(crate) fn down(number: u128, count: u128) -> u128
    ensures { result ≡ number / 2 ^ count }
{
    if count < 128 {
        number >> (count as u32)
    } else {
        0
    }
}

/// A number shifted up, where what leaves 128 bits is lost.
pub(crate) fn up(number: u128, count: u128) -> u128
    ensures { result ≡ number * 2 ^ count % 2 ^ 128 }
{
    if count < 128 {
        number << (count as u32)
    } else {
        0
    }
}

/// Shifted up.
pub(crate) fn shl(a: Word, b: Word) -> u128
    ensures { (signed : Bool) → HasValue result CellKind.Shl signed a.width (word_bits a ∷ word_bits b ∷ []) }
{
    up(a.bits(), b.bits())
}

/// Shifted down, with 0 at the top.
pub(crate) fn shr(a: Word, b: Word) -> u128
    ensures { (signed : Bool) → HasValue result CellKind.Shr signed a.width (word_bits a ∷ word_bits b ∷ []) }
{
    down(a.bits(), b.bits())
}

/// Shifted down, with A's top bit at the top.
pub(crate) fn sshr(a: Word, b: Word) -> u128
    ensures { (signed : Bool) → HasValue result CellKind.Sshr signed a.width (word_bits a ∷ word_bits b ∷ []) }
{
    if top(a) {
        let all = ones(a.width());
        return all - down(all - a.bits(), b.bits());
    }
    down(a.bits(), b.bits())
}
