//! Texts of a table: lists of them, the lines of a script and their rows, and bytes as characters.
use mcy_base::{Line, LineList, Text, TextList};
use script_lines::{RowList, rows};
use std::alloc::{AllocError, Global};

/// A list of texts.
pub(crate) fn texts(alloc: Global, words: &[&str]) -> Result<TextList, AllocError> {
    let mut texts = TextList::from_vec(Vec::new(alloc));
    for word in words {
        texts.push(Text::copy(alloc, word)?)?;
    }
    Ok(texts)
}

/// The lines of a script, between which `^` stands.
pub(crate) fn lines(alloc: Global, text: &str) -> Result<LineList, AllocError> {
    let mut lines = LineList::from_vec(Vec::new(alloc));
    let mut number: u32 = 0;
    for part in text.split('^') {
        number = number.saturating_add(1);
        let text = Text::copy(alloc, part)?;
        lines.push(Line { number, text })?;
    }
    Ok(lines)
}

/// Adds bytes, each as the character of its number.
pub(crate) fn push_bytes(text: &mut String, bytes: &[u8]) -> Result<(), AllocError> {
    for byte in bytes {
        text.push(char::from(*byte))?;
    }
    Ok(())
}

/// The rows of a script of one line.
pub(crate) fn rows_of(alloc: Global, text: &str) -> Result<RowList, AllocError> {
    let line = Line {
        number: 1,
        text: Text::copy(alloc, text)?,
    };
    rows(alloc, &[line])
}
