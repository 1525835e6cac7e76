//! A line of a file as a terminal is shown it, with a caret below a byte of it.
//!
//! What stands in front of the line is as wide as a tab, and a tab is shown as one, in the line and in front of the caret. Each other
//! byte has one column: what is no printable one of ASCII is shown as a blank or as `?`, so that no byte of a file rules the terminal. Of a
//! long line the part round the byte is shown, and the terminal cuts it at its width.
ghost use Rattle.std.specs.Prelude.{◌≡◌, ◌++◌, IfOk, OnOk, codes, map, option_map};
ghost use Rattle.outcome_hints.specs.Excerpts as excerpts;

use project_lines::is_blank;
use std::alloc::{AllocError, Global};

/// How far from the beginning of its line a byte may stand so that this is shown from there on.
const NEAR: usize = 60;

/// How much is shown in front of a byte that stands further, and of a line at all.
const FRONT: usize = 30;

const SHOWN: usize = 160;

/// In how many columns the number of a line stands.
const WIDTH: usize = 5;

/// From here on a terminal goes on on no other line.
const CUT: &[u8] = b"\x1b[?7l";

/// A caret, from behind which on it does again.
const CARET: &[u8] = b"^\n\x1b[?7h";

/// A byte as a terminal is shown it.
fn shown_byte(byte: u8) -> u8
    ensures { result ≡ excerpts.shown_byte byte }
{
    match byte {
        b'\t' => b'\t',
        0..=31 => b' ',
        32..=126 => byte,
        _ => b'?',
    }
}

/// What stands in front of a caret below a byte.
fn blank_byte(byte: u8) -> u8
    ensures { result ≡ excerpts.blank_byte byte }
{
    if byte == b'\t' { b'\t' } else { b' ' }
}

/// From where on a line is shown whose byte with this number, from 0, is told of.
fn start_of(at: usize) -> usize
    ensures { result ≡ excerpts.start_of at }
{
    if at > NEAR { at - FRONT } else { 0 }
}

/// What stands behind so many bytes.
pub(crate) fn behind(bytes: &[u8], count: usize) -> &[u8]
    ensures { result.now ≡ excerpts.behind bytes.now count }
{
    &bytes[count.min(bytes.len())..]
}

/// So many bytes, or all.
pub(crate) fn front(bytes: &[u8], count: usize) -> &[u8]
    ensures { result.now ≡ excerpts.front bytes.now count }
{
    &bytes[..count.min(bytes.len())]
}

/// The lines of a file. What stands behind the last newline is a line too.
pub(crate) fn lines_of(alloc: Global, source: &[u8]) -> Result<Vec<&[u8]>, AllocError>
    ensures { IfOk result (λ lines. map (λ line. line.now) lines.items ≡ excerpts.lines_of source.now) }
{
    source.split(|byte| *byte == b'\n').collect(alloc)
}

/// The line with this number, from 1, where there is one.
pub(crate) fn line_at<'a>(lines: &[&'a [u8]], number: u32) -> Option<&'a [u8]>
    ensures { option_map (λ line. line.now) result ≡ excerpts.line_at (map (λ line. line.now) lines.now) number }
{
    if number == 0 {
        return None;
    }
    lines.get(number as usize - 1).copied()
}

/// Bytes as a terminal is shown them.
pub(crate) fn shown_bytes(alloc: Global, bytes: &[u8]) -> Result<Vec<u8>, AllocError>
    ensures { IfOk result (λ shown. shown.items ≡ map excerpts.shown_byte bytes.now) }
{
    bytes.iter().map(|byte| shown_byte(*byte)).collect(alloc)
}

/// What stands in front of a caret below the byte behind these.
fn blank_bytes(alloc: Global, bytes: &[u8]) -> Result<Vec<u8>, AllocError>
    ensures { IfOk result (λ blank. blank.items ≡ map excerpts.blank_byte bytes.now) }
{
    bytes.iter().map(|byte| blank_byte(*byte)).collect(alloc)
}

/// How many blanks and tabs a line begins with.
pub(crate) fn blanks_of(line: &[u8]) -> usize
    ensures { result ≡ excerpts.blanks_of line.now }
{
    let blanks = line.iter().take_while(|byte| is_blank(**byte)).count();
    blanks
}

/// What stands in front of a line: its number, and a stroke.
fn margin_of(alloc: Global, number: u32) -> Result<Vec<u8>, AllocError>
    ensures { IfOk result (λ margin. margin.items ≡ excerpts.margin number) }
{
    let digits = format!(in alloc; "{number}")?;
    let mut margin = vec![in alloc; b' '; WIDTH.saturating_sub(digits.len())]?;
    margin.extend_from_slice(digits.as_bytes())?;
    margin.extend_from_slice(b" | ")?;
    Ok(margin)
}

/// Adds a line behind what stands in front of it.
fn add_line(text: &mut Vec<u8>, margin: &[u8], shown: &[u8]) -> Result<(), AllocError>
    ensures { OnOk result (text.new.items ≡ text.old.items ++ (excerpts.cut ++ (margin.now ++ shown.now))) }
{
    text.extend_from_slice(CUT)?;
    text.extend_from_slice(margin)?;
    text.extend_from_slice(shown)?;
    Ok(())
}

/// Adds a line with a caret behind these blanks.
fn add_caret(text: &mut Vec<u8>, blank: &[u8]) -> Result<(), AllocError>
    ensures { OnOk result (text.new.items ≡ text.old.items ++ (codes "\n      | " ++ (blank.now ++ excerpts.caret))) }
{
    text.extend_from_slice(b"\n      | ")?;
    text.extend_from_slice(blank)?;
    text.extend_from_slice(CARET)?;
    Ok(())
}

/// Adds a line with its number, and one with a caret below the byte behind so many.
pub(crate) fn add_excerpt(
    alloc: Global,
    text: &mut Vec<u8>,
    number: u32,
    line: &[u8],
    at: usize,
) -> Result<(), AllocError>
    ensures { OnOk result (text.new.items ≡ text.old.items ++ excerpts.excerpt_text number line.now at) }
{
    let part = front(behind(line, start_of(at)), SHOWN);
    let margin = margin_of(alloc, number)?;
    let shown = shown_bytes(alloc, part)?;
    let blank = blank_bytes(alloc, front(part, at - start_of(at)))?;
    add_line(text, &margin, &shown)?;
    add_caret(text, &blank)
}
