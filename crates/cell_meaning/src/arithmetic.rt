//! Arithmetic (IEEE 1364-2005, 5.1.5), on words of one width.
ghost use Rattle.std.specs.Prelude.{◌≡◌, Bool, [], ◌∷◌};
ghost use Rattle.cell_meaning.specs.Words.{word_bits, HasValue};

use crate::low::ones;
use mcy_base::Word;
use netlist_core::CellKind;

/// The negative number.
pub(crate) fn neg(a: Word) -> u128
    ensures { (signed : Bool) → HasValue result CellKind.Neg signed a.width (word_bits a ∷ []) }
{
    (ones(a.width()) - a.bits()).wrapping_add(1)
}

/// The sum.
pub(crate) fn add(a: Word, b: Word) -> u128
    ensures { (signed : Bool) → HasValue result CellKind.Add signed a.width (word_bits a ∷ word_bits b ∷ []) }
{
    a.bits().wrapping_add(b.bits())
}

/// The difference.
pub(crate) fn sub(a: Word, b: Word) -> u128
    requires { a.width ≡ b.width }
    ensures { (signed : Bool) → HasValue result CellKind.Sub signed a.width (word_bits a ∷ word_bits b ∷ []) }
{
    (ones(b.width()) - b.bits())
        .wrapping_add(a.bits())
        .wrapping_add(1)
}

/// The product.
pub(crate) fn mul(a: Word, b: Word) -> u128
    ensures { (signed : Bool) → HasValue result CellKind.Mul signed a.width (word_bits a ∷ word_bits b ∷ []) }
{
    a.bits().wrapping_mul(b.bits())
}
