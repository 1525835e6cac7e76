//! Rows: the lines that say something.
ghost use Rattle.std.specs.Prelude.{◌≡◌, ◌<◌, ◌^◌, ◌++◌, IfOk, OnOk, length};
ghost use Rattle.std.specs.List.{list_all};
ghost use Rattle.script_lines.specs.Rows.{indent_of, is_space, row_of, rows_at, rows_of};

use crate::class::{Class, from_word, run_len};
use crate::token::{TokenList, is_end, tokens};
use mcy_base::{Items, Line};
use std::alloc::{AllocError, Global};

/// A line that says something: it is not blank, and no comment alone.
#[derive(Drop)]
pub struct Row {
    /// The number of the line in its file.
    pub number: u32,
    /// How many spaces stand in front, or none where a tab is among the blanks there.
    pub indent: Option<usize>,
    /// The tokens, or none where a text has no end or a backslash.
    pub tokens: Option<TokenList>,
}

/// Rows.
pub type RowList = Items<Row>;

/// Whether all bytes are spaces.
fn are_spaces(text: &[u8]) -> bool
    ensures { result ≡ list_all is_space text.now }
{
    text.iter().all(|byte| *byte == b' ')
}

/// How far a line is indented.
#[tactic(auto, unfolding(crate::specs::Rows::indent_of))]
fn indent_of(text: &[u8]) -> Option<usize>
    ensures { result ≡ indent_of text.now }
{
    let len = run_len(Class::Blank, text);
    if are_spaces(&text[..len]) {
        Some(len)
    } else {
        None
    }
}

/// Adds the row of a line, where it says something.
#[tactic(auto, unfolding(crate::specs::Rows::rows_at, crate::specs::Rows::row_of))]
fn push_row(alloc: Global, rows: &mut RowList, line: &Line) -> Result<(), AllocError>
    ensures { OnOk result (rows.new ≡ rows.old ++ rows_at line.now) }
{
    let text = line.text.as_str().as_bytes();
    if is_end(from_word(text)) {
        return Ok(());
    }
    rows.push(Row {
        number: line.number,
        indent: indent_of(text),
        tokens: tokens(alloc, text)?,
    })
}

/// The rows of a script's lines, in their order.
#[tactic(auto, unfolding(crate::specs::Rows::rows_of))]
pub fn rows(alloc: Global, lines: &[Line]) -> Result<RowList, AllocError>
    ensures { IfOk result (λ rows. rows ≡ rows_of lines.now) }
{
    let mut rows = RowList::from_vec(Vec::new(alloc));
    for line in lines {
        push_row(alloc, &mut rows, line)?;
    }
    Ok(rows)
}
