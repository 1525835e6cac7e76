//! Bitwise operators (IEEE 1364-2005, 5.1.10), on words of one width.
ghost use Rattle.std.specs.Prelude.{◌≡◌, Bool, [], ◌∷◌};
ghost use Rattle.cell_meaning.specs.Words.{word_bits, HasValue};

use crate::low::ones;
use mcy_base::Word;
use netlist_core::CellKind;

/// Each bit negated.
pub(crate) fn not(a: Word) -> u128
    ensures { (signed : Bool) → HasValue result CellKind.Not signed a.width (word_bits a ∷ []) }
{
    ones(a.width()) - a.bits()
}

/// 1 where both are.
pub(crate) fn and(a: Word, b: Word) -> u128
    ensures { (signed : Bool) → HasValue result CellKind.And signed a.width (word_bits a ∷ word_bits b ∷ []) }
{
    a.bits() & b.bits()
}

/// 1 where one is.
pub(crate) fn or(a: Word, b: Word) -> u128
    ensures { (signed : Bool) → HasValue result CellKind.Or signed a.width (word_bits a ∷ word_bits b ∷ []) }
{
    a.bits() | b.bits()
}

/// 1 where they differ.
pub(crate) fn xor(a: Word, b: Word) -> u128
    ensures { (signed : Bool) → HasValue result CellKind.Xor signed a.width (word_bits a ∷ word_bits b ∷ []) }
{
    a.bits() ^ b.bits()
}

/// 1 where they are the same.
pub(crate) fn xnor(a: Word, b: Word) -> u128
    requires { a.width ≡ b.width }
    ensures { (signed : Bool) → HasValue result CellKind.Xnor signed a.width (word_bits a ∷ word_bits b ∷ []) }
{
    ones(a.width()) - (a.bits() ^ b.bits())
}
