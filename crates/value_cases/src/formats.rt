//! Values as format texts print them.
use anyhow::{Context, Result, bail};
use case_lines::Page;
use mcy_base::Word;
use std::alloc::{AllocError, Global};
use tb_formats::{Piece, push_value, read_format};
use vlog_meaning::Shape;

/// The word that a text such as `8:255` gives: its width and its number.
fn word_of(text: &str) -> Option<Word> {
    let (width, number) = text.split_once(':')?;
    let width = width.parse::<u8>().ok()?;
    let number = number.parse::<u128>().ok()?;
    Word::new(width, number)
}

/// The text that the pieces print of one value.
fn printed(
    alloc: Global,
    pieces: &[Piece],
    is_signed: bool,
    word: Word,
) -> Result<Vec<u8>, AllocError> {
    let shape = Shape {
        width: word.width(),
        is_signed,
    };
    let mut text = Vec::new(alloc);
    for piece in pieces {
        match piece {
            Piece::Byte(byte) => text.push(*byte)?,
            Piece::Value(format) => push_value(&mut text, *format, shape, word.bits())?,
            Piece::String => text.extend_from_slice(b"word")?,
        }
    }
    Ok(text)
}

/// Puts a value by a format text.
fn put_value(
    alloc: Global,
    page: &mut Page,
    is_signed: bool,
    word: Word,
    text: &str,
) -> Result<()> {
    let Some(pieces) = read_format(alloc, text.as_bytes())? else {
        page.put_line("not supported");
        return Ok(());
    };
    let text = printed(alloc, pieces.as_slice(), is_signed, word)?;
    page.put_line(str::from_utf8(text.as_slice()).ok().context("no text")?);
    Ok(())
}

/// Puts a row's value by its format text.
pub(crate) fn put_format(alloc: Global, page: &mut Page, row: &str) -> Result<()> {
    let (sign, rest) = row.split_once(' ').context("no value")?;
    let is_signed = match sign {
        "signed" => true,
        "unsigned" => false,
        _ => bail!("no sign"),
    };
    let (word, text) = rest.split_once(' ').context("no format")?;
    let word = word_of(word).context("no word")?;
    put_value(alloc, page, is_signed, word, text)
}
