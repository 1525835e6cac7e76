//! The low bits of numbers.
ghost use Rattle.std.specs.Prelude.{◌≡◌, ◌-◌, ◌%◌, ◌^◌, ◌≤◌};
ghost use Rattle.netlist_core.specs.Numbers.{digit};
ghost use Rattle.netlist_core.specs.Cells.{top_bit};
ghost use Rattle.cell_meaning.specs.Words.{word_bits};

use mcy_base::Word;

/// The number with so many ones.
pub(crate) fn ones(width: u8) -> u128
    requires { width ≤ 128 }
    ensures { result ≡ 2 ^ width - 1 }
{
    if width < 128 {
        (1u128 << width) - 1
    } else {
        u128::MAX
    }
}

/// The low bits of a number.
pub(crate) fn low(width: u8, number: u128) -> u128
    requires { width ≤ 128 }
    ensures { result ≡ number % 2 ^ width }
{
    number & ones(width)
}

/// The top bit of a word.
pub(crate) fn top(word: Word) -> bool
    ensures { result ≡ top_bit (word_bits word) }
{
    word.bits() > ones(word.width() - 1)
}

/// 1 or 0.
pub(crate) fn digit_of(bit: bool) -> u128
    ensures { result ≡ digit bit }
{
    if bit { 1 } else { 0 }
}
