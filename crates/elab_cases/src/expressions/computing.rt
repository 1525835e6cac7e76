//! The values of nets, by their numbers: those of the signals first, then those of each cell's Y.
ghost use Rattle.std.specs.Prelude.{◌≡◌, IsTrue, IfSome, length};
ghost use Rattle.netlist_core.specs.Checked.{AllWide};

use cell_meaning::cell_value;
use mcy_base::Word;
use netlist_core::{Bit, BitList, Cell, has_shape};
use std::alloc::AllocError;

/// The value of a bit. A net that is not there is 0.
fn bit_value(nets: &[bool], bit: Bit) -> bool {
    match bit {
        Bit::Fixed(value) => value,
        Bit::Net(number) => nets.get(number as usize).copied().unwrap_or(false),
    }
}

/// The number that bits have.
pub(crate) fn number_at(nets: &[bool], bits: &[Bit]) -> u128 {
    let mut number: u128 = 0;
    for bit in bits.iter().rev() {
        number = number << 1 | u128::from(bit_value(nets, *bit));
    }
    number
}

/// The word that bits have, where there are from 1 to 128.
fn word_at(nets: &[bool], bits: &BitList) -> Option<Word>
    ensures { IfSome result (λ word. word.width ≡ length bits.now) }
{
    let width = u8::try_from(bits.as_slice().len()).ok()?;
    Word::new(width, number_at(nets, bits.as_slice()))
}

/// Whether each port has from 1 to 128 bits.
fn are_wide(ports: &[BitList]) -> bool
    ensures { IsTrue result → AllWide ports.now }
{
    for port in ports {
        let bits = port.as_slice();
        if bits.is_empty() || bits.len() > 128 {
            return false;
        }
    }
    true
}

/// The word at Y of a cell.
fn word_of(nets: &[bool], cell: &Cell) -> Option<Word> {
    if !has_shape(cell) || !are_wide(cell.ports.as_slice()) {
        return None;
    }
    match cell.ports.as_slice() {
        [a, _] => {
            let a = word_at(nets, a)?;
            Some(cell_value(cell, [a, a, a]))
        }
        [a, b, _] => {
            let a = word_at(nets, a)?;
            let b = word_at(nets, b)?;
            Some(cell_value(cell, [a, b, b]))
        }
        [a, b, d, _] => {
            let a = word_at(nets, a)?;
            let b = word_at(nets, b)?;
            let d = word_at(nets, d)?;
            Some(cell_value(cell, [a, b, d]))
        }
        _ => None,
    }
}

/// The bits of a word are the values of the next nets.
pub(crate) fn push_word(nets: &mut Vec<bool>, word: Word) -> Result<(), AllocError> {
    for place in 0..word.width() {
        nets.push(word.bits() >> place & 1 == 1)?;
    }
    Ok(())
}

/// The values of the nets that the cells drive, each the next ones. There are none where a cell has not the shape of its kind, or
/// there is no memory.
pub(crate) fn compute(nets: &mut Vec<bool>, cells: &[Cell]) -> Option<()> {
    for cell in cells {
        let y = word_of(nets.as_slice(), cell)?;
        push_word(nets, y).ok()?;
    }
    Some(())
}
