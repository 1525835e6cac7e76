//! Relations and equality (IEEE 1364-2005, 5.1.7, 5.1.8), on words of one width.
ghost use Rattle.std.specs.Prelude.{◌≡◌, true, nat_eq};
ghost use Rattle.netlist_core.specs.Numbers.{number};
ghost use Rattle.netlist_core.specs.Cells.{is_less};
ghost use Rattle.cell_meaning.specs.Words.{word_bits};

use crate::low::top;
use mcy_base::Word;

/// The order of two signed words.
fn is_signed_less(a: Word, b: Word) -> bool
    requires { a.width ≡ b.width }
    ensures { result ≡ is_less true (word_bits a) (word_bits b) }
{
    if top(a) {
        if top(b) {
            return a.bits() < b.bits();
        }
        return true;
    }
    if top(b) {
        return false;
    }
    a.bits() < b.bits()
}

/// The order of two words.
pub(crate) fn is_less(signed: bool, a: Word, b: Word) -> bool
    requires { a.width ≡ b.width }
    ensures { result ≡ is_less signed (word_bits a) (word_bits b) }
{
    if signed {
        return is_signed_less(a, b);
    }
    a.bits() < b.bits()
}

/// Whether two words are the same.
pub(crate) fn is_equal(a: Word, b: Word) -> bool
    ensures { result ≡ nat_eq (number (word_bits a)) (number (word_bits b)) }
{
    a.bits() == b.bits()
}
