//! Reductions (IEEE 1364-2005, 5.1.11) and the truth of words (5.1.9).
ghost use Rattle.std.specs.Prelude.{◌≡◌};
ghost use Rattle.netlist_core.specs.Cells.{all_ones, some_one, odd_ones};
ghost use Rattle.cell_meaning.specs.Words.{word_bits};
ghost use Rattle.netlist_core.specs.Numbers.{low_bits};

use crate::low::ones;
use mcy_base::Word;

/// Whether all bits are 1.
pub(crate) fn all_of(a: Word) -> bool
    ensures { result ≡ all_ones (word_bits a) }
{
    a.bits() == ones(a.width())
}

/// Whether a bit is 1.
pub(crate) fn any_of(a: Word) -> bool
    ensures { result ≡ some_one (word_bits a) }
{
    a.bits() != 0
}

/// Whether an odd number of the low bits are 1.
fn is_odd(width: u8, number: u128) -> bool
    ensures { result ≡ odd_ones (low_bits width number) }
{
    if width == 0 {
        return false;
    }
    let rest = is_odd(width - 1, number / 2);
    if number % 2 == 1 { !rest } else { rest }
}

/// Whether an odd number of bits are 1.
pub(crate) fn odd_of(a: Word) -> bool
    ensures { result ≡ odd_ones (word_bits a) }
{
    is_odd(a.width(), a.bits())
}
