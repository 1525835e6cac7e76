//! Choices, and parts of words.
ghost use Rattle.std.specs.Prelude.{ℕ, Bool, [], ◌∷◌};
ghost use Rattle.cell_meaning.specs.Words.{word_bits, HasValue};

use crate::reductions::any_of;
use crate::shifts::{down, up};
use mcy_base::Word;
use netlist_core::CellKind;

/// The word at B where S is 1, and else that at A.
pub(crate) fn mux(s: Word, a: Word, b: Word) -> u128
    ensures { (signed : Bool) (w : ℕ) → HasValue result CellKind.Mux signed w (word_bits s ∷ word_bits a ∷ word_bits b ∷ []) }
{
    if any_of(s) { b.bits() } else { a.bits() }
}

/// The bits of A from number B on.
pub(crate) fn pick(a: Word, b: Word) -> u128
    ensures { (signed : Bool) (w : ℕ) → HasValue result CellKind.Pick signed w (word_bits a ∷ word_bits b ∷ []) }
{
    down(a.bits(), b.bits())
}

/// A with D laid at bit number B.
pub(crate) fn put(a: Word, b: Word, d: Word) -> u128
    ensures { (signed : Bool) → HasValue result CellKind.Put signed a.width (word_bits a ∷ word_bits b ∷ word_bits d ∷ []) }
{
    if b.bits() >= 128 {
        return a.bits();
    }
    let place = b.bits();
    let end = place + u128::from(d.width());
    let below = a.bits() - up(down(a.bits(), place), place);
    let above = up(down(a.bits(), end), end);
    below.wrapping_add(up(d.bits(), place)).wrapping_add(above)
}
