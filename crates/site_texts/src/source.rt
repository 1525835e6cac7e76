//! The end of a site text: `FILE:LINE`. The last colon divides them.
ghost use Rattle.std.specs.Prelude.{◌≡◌, ◌≤◌, MatchOption, MatchResult, decimal, slice_index};
ghost use Rattle.site_texts.specs.Rests.{AreOfSource, IsAny, IsLastColon, IsNoLine, IsNoSource, IsPart, IsSource, IsStuck};
ghost use Rattle.site_texts.specs.SiteTexts.{source_text};

use crate::name::front_of;
use std::str::from_utf8;

/// The place in a source.
#[derive(Clone, Copy)]
pub(crate) struct Source<'a> {
    pub file: &'a str,
    pub line: u32,
}

/// The source that the text is, or the first byte after which none goes on.
pub(crate) fn read_source(text: &[u8]) -> Result<Source<'_>, usize>
    ensures { MatchResult result (λ source. IsPart IsAny source_text (AreOfSource source) text.now) (IsStuck IsAny source_text text.now) }
{
    let front = front_of(text);
    if front.whole < text.len() {
        return Err(front.stop);
    }
    let text = from_utf8(text).unwrap();
    match source_of(text) {
        Some(source) => Ok(source),
        None => Err(text.len()),
    }
}

/// The file and the line, where the text is such.
fn source_of(text: &str) -> Option<Source<'_>>
    ensures { MatchOption result (IsNoSource text.now) (IsSource text.now) }
{
    let at = last_colon(text.as_bytes())?;
    if at == 0 {
        return None;
    }
    let line = line_of(&text[at + 1..])?;
    Some(Source {
        file: &text[..at],
        line,
    })
}

/// The place of the last colon.
fn last_colon(text: &[u8]) -> Option<usize>
    ensures { IsLastColon text.now result }
{
    let mut at = text.len();
    while at > 0 {
        at -= 1;
        if text[at] == b':' {
            return Some(at);
        }
    }
    None
}

/// The number of a line, in digits without a leading zero.
fn line_of(text: &str) -> Option<u32>
    ensures { MatchOption result (IsNoLine text.now) (λ line. (1 ≤ line) × (text.now ≡ decimal line)) }
{
    let bytes = text.as_bytes();
    if bytes.len() == 0 {
        return None;
    }
    if bytes[0] < b'1' {
        return None;
    }
    if bytes[0] > b'9' {
        return None;
    }
    number_of(text)
}

/// The number, where no zero and no sign stands in front.
fn number_of(text: &str) -> Option<u32>
    requires least { 49 ≤ slice_index text.now 0 }
    requires most { slice_index text.now 0 ≤ 57 }
    ensures { MatchOption result (IsNoLine text.now) (λ line. (1 ≤ line) × (text.now ≡ decimal line)) }
{
    match text.parse::<u32>() {
        Ok(line) => Some(line),
        Err(_) => None,
    }
}
