//! Reading and writing bits in a table of net values.
ghost use Rattle.std.specs.Prelude.{◌≡◌, ◌≤◌, ◌<◌, ◌^◌, length};
ghost use Rattle.netlist_core.specs.Numbers.{number};
ghost use Rattle.netlist_core.specs.Runs.{bit_value, values};
ghost use Rattle.netlist_core.specs.Settled.{laid};
ghost use Rattle.cell_meaning.specs.Words.{word_bits};
ghost use Rattle.netlist_core.specs.Below.{AllBelow};
ghost use Rattle.step_trials.specs.Tables.{nets_of, IsWide};

use mcy_base::Word;
use netlist_core::Bit;

/// The value of a net. A number past the table's end is no net.
fn value_of(table: &[bool], net: u32) -> bool
    ensures { result ≡ nets_of table.now net }
{
    match table.get(net as usize) {
        Some(value) => *value,
        None => false,
    }
}

/// The value of a bit.
fn bit_value(table: &[bool], bit: Bit) -> bool
    ensures { result ≡ bit_value (nets_of table.now) bit }
{
    match bit {
        Bit::Fixed(b) => b,
        Bit::Net(n) => value_of(table, n),
    }
}

/// The number at bits.
pub(crate) fn number_of(table: &[bool], bits: &[Bit]) -> u128
    requires { length bits.now ≤ 128 }
    ensures value { result ≡ number (values (nets_of table.now) bits.now) }
    ensures fits { result < 2 ^ length bits.now }
{
    match bits {
        [] => 0,
        [first, rest @ ..] => {
            let low = bit_value(table, *first);
            let high = number_of(table, rest);
            if low { 1 + 2 * high } else { 2 * high }
        }
    }
}

/// The word at bits.
pub(crate) fn word_of(table: &[bool], bits: &[Bit]) -> Word
    requires { IsWide bits.now }
    ensures width { result.width ≡ length bits.now }
    ensures bits { word_bits result ≡ values (nets_of table.now) bits.now }
{
    Word::new(bits.len() as u8, number_of(table, bits)).unwrap()
}

/// Sets the nets of these bits to a number's low bits.
pub(crate) fn lay(table: &mut [bool], bits: &[Bit], number: u128)
    requires { AllBelow (length table.old) bits.now }
    ensures { nets_of table.new ≡ laid (nets_of table.old) bits.now number }
{
    match bits {
        [] => {}
        [Bit::Fixed(_), rest @ ..] => lay(table, rest, number / 2),
        [Bit::Net(n), rest @ ..] => {
            table[*n as usize] = number % 2 == 1;
            lay(table, rest, number / 2);
        }
    }
}
