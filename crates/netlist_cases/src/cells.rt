//! Cells as they are computed: the number at Y of the cell in a row, which has a word for each input port, as `8:255`.
ghost use Rattle.std.specs.Prelude.{◌≡◌, IsTrue, [], ◌∷◌, length};
ghost use Rattle.netlist_core.specs.Runs.{input_ports};
ghost use Rattle.cell_meaning.specs.Words.{FitWords};

use crate::single::{head_of, netlist, port};
use anyhow::{Context, Result};
use cell_meaning::cell_value;
use mcy_base::Word;
use netlist_core::{BitList, RawNetlist, has_shape, is_formed};
use std::alloc::{AllocError, Global};

/// The word that a text such as `8:255` gives: its width and its number.
fn word_of(text: &str) -> Option<Word> {
    let (width, number) = text.split_once(':')?;
    let width = width.parse::<u8>().ok()?;
    let number = number.parse::<u128>().ok()?;
    Word::new(width, number)
}

/// Whether a word is as wide as a port.
fn is_as_wide(word: Word, port: &BitList) -> bool
    ensures { IsTrue result → word.width ≡ length port.now }
{
    usize::from(word.width()) == port.as_slice().len()
}

/// Whether there is a word for each input port, of its width.
fn fit(ports: &[BitList], a: Word, b: Word, d: Word) -> bool
    ensures { IsTrue result → FitWords (input_ports ports.now) (a ∷ b ∷ d ∷ []) }
{
    match ports {
        [first, _] => is_as_wide(a, first),
        [first, second, _] => is_as_wide(a, first) && is_as_wide(b, second),
        [first, second, third, _] => {
            is_as_wide(a, first) && is_as_wide(b, second) && is_as_wide(d, third)
        }
        _ => false,
    }
}

/// The word at Y of the only cell of a netlist, where these words fit its input ports.
fn value(raw: &RawNetlist, a: Word, b: Word, d: Word) -> Option<Word> {
    if !is_formed(raw) {
        return None;
    }
    match raw.cells.as_slice() {
        [cell] => {
            if !has_shape(cell) {
                return None;
            }
            if !fit(cell.ports.as_slice(), a, b, d) {
                return None;
            }
            Some(cell_value(cell, [a, b, d]))
        }
        _ => None,
    }
}

/// The words of a row.
fn words_of(alloc: Global, line: &str) -> Result<Vec<Word>> {
    let mut words = Vec::new(alloc);
    for text in line.split(' ') {
        words.push(word_of(text).context("no word")?)?;
    }
    Ok(words)
}

/// The bits at ports of the width of each word.
fn ports_of(alloc: Global, words: &[Word]) -> Result<Vec<BitList>, AllocError> {
    let mut ports = Vec::new(alloc);
    for word in words {
        ports.push(port(alloc, word.width())?)?;
    }
    Ok(ports)
}

/// The word at Y of the only cell of a netlist. Where there are fewer words than three, the first stands for the others.
fn answer_of(raw: &RawNetlist, words: &[Word]) -> Result<Word> {
    let a = words.first().copied().context("no word at the first port")?;
    let b = words.get(1).copied().unwrap_or(a);
    let d = words.get(2).copied().unwrap_or(a);
    value(raw, a, b, d).context("the words do not fit the cell")
}

/// The word at Y of the cell in a row.
fn answer(alloc: Global, line: &str) -> Result<Word> {
    let (head, rest) = head_of(line)?;
    let words = words_of(alloc, rest)?;
    let raw = netlist(alloc, head, ports_of(alloc, words.as_slice())?)?;
    answer_of(&raw, words.as_slice())
}

/// Prints the number at Y of the cell in a row.
pub(crate) fn tell_cell<R: Print + AllocGlobal>(rt: &R, line: &str) -> Result<()> {
    let word = answer(rt.alloc(), line)?;
    Ok(println!(rt; "{}", word.bits())?)
}
