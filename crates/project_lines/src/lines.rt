//! Lines of a project file.
//!
//! Blanks are spaces and tabs. A line's key is its first word. All texts are parts of the file and are not copied.
ghost use Rattle.std.specs.Prelude.{◌≡◌, ◌≤◌, ◌+◌, ◌-◌, IfOk, drop, length, map, option_map, slice_index, take};
ghost use Rattle.std.specs.Str.Lines.{lines};
ghost use Rattle.project_lines.specs.Lines.{args_of, behind_key, behind_word, find_line, from_word, front_word, has_line, header_of, is_blank, is_said, key_of, text_of, without_blanks_behind, words};

use std::alloc::{AllocError, Global};

/// The lines, without their ends. A line ends in LF or CRLF, and the last end may be missing.
pub fn text_lines(alloc: Global, text: &str) -> Result<Vec<&str>, AllocError>
    ensures { IfOk result (λ all. map (λ line. line.now) all.items ≡ lines text.now) }
{
    text.lines().collect(alloc)
}

/// A space or a tab.
#[tactic(auto, unfolding(crate::specs::Lines::is_blank))]
pub fn is_blank(byte: u8) -> bool
    ensures { result ≡ is_blank byte }
{
    byte == b' ' || byte == b'\t'
}

/// The text without the blanks in front.
pub fn from_word(text: &str) -> &str
    ensures value { result.now ≡ from_word text.now }
    ensures shorter { length result.now ≤ length text.now }
{
    let blanks = text
        .as_bytes()
        .iter()
        .take_while(|byte| is_blank(**byte))
        .count();
    text.split_at(blanks).1
}

/// The text without the blanks behind.
fn without_blanks_behind(text: &str) -> &str
    ensures { result.now ≡ without_blanks_behind text.now }
{
    let bytes = text.as_bytes();
    let mut end = bytes.len();
    while end > 0 && is_blank(bytes[end - 1]) {
        end -= 1;
    }
    text.split_at(end).0
}

/// The word that begins a text, and what stands behind it.
fn split_word(text: &str) -> (&str, &str)
    ensures word { result.0.now ≡ front_word text.now }
    ensures behind { result.1.now ≡ behind_word text.now }
    ensures whole { length result.0.now + length result.1.now ≡ length text.now }
{
    let len = text
        .as_bytes()
        .iter()
        .take_while(|byte| !is_blank(**byte))
        .count();
    text.split_at(len)
}

/// The first word of a line.
pub fn key_of(line: &str) -> &str
    ensures { result.now ≡ key_of line.now }
{
    split_word(from_word(line)).0
}

/// What stands behind the first word of a line.
pub fn behind_key(line: &str) -> &str
    ensures { result.now ≡ behind_key line.now }
{
    split_word(from_word(line)).1
}

/// What stands behind the first word, without the blanks around it.
pub fn text_of(line: &str) -> &str
    ensures { result.now ≡ text_of line.now }
{
    without_blanks_behind(from_word(behind_key(line)))
}

/// The words of a text.
fn words(alloc: Global, text: &str) -> Result<Vec<&str>, AllocError>
    ensures { IfOk result (λ all. map (λ word. word.now) all.items ≡ words text.now) }
{
    let mut words = Vec::new(alloc);
    let mut rest = from_word(text);
    while !rest.is_empty() {
        let (word, behind) = split_word(rest);
        words.push(word)?;
        rest = from_word(behind);
    }
    Ok(words)
}

/// The words behind the first one of a line.
pub fn args_of(alloc: Global, line: &str) -> Result<Vec<&str>, AllocError>
    ensures { IfOk result (λ all. map (λ word. word.now) all.items ≡ args_of line.now) }
{
    words(alloc, behind_key(line))
}

/// Whether the line says something: it is not blank, and no comment.
#[tactic(auto, unfolding(crate::specs::Lines::is_said))]
pub fn is_said(line: &str) -> bool
    ensures { result ≡ is_said line.now }
{
    match key_of(line).as_bytes() {
        [first, ..] => *first != b'#',
        [] => false,
    }
}

/// The first of the lines with this key.
#[tactic(auto, unfolding(crate::specs::Lines::find_line))]
pub fn find_line<'a>(key: &str, lines: &[&'a str]) -> Option<&'a str>
    ensures { option_map (λ line. line.now) result ≡ find_line key.now (map (λ line. line.now) lines.now) }
{
    for line in lines {
        if key_of(line) == key {
            return Some(line);
        }
    }
    None
}

/// Whether one of the lines has this key.
pub fn has_line(key: &str, lines: &[&str]) -> bool
    ensures { result ≡ has_line key.now (map (λ line. line.now) lines.now) }
{
    find_line(key, lines).is_some()
}

/// What stands in the brackets of a header, where the line is one.
#[tactic(auto, unfolding(crate::specs::Lines::header_of))]
pub fn header_of(line: &str) -> Option<&str>
    ensures { option_map (λ header. header.now) result ≡ header_of line.now }
{
    let text = without_blanks_behind(from_word(line));
    match text.as_bytes() {
        [b'[', .., b']'] => Some(in_brackets(text)),
        _ => None,
    }
}

/// A text without its first and its last byte, which are brackets.
fn in_brackets(text: &str) -> &str
    requires some { 2 ≤ length text.now }
    requires first { slice_index text.now 0 ≡ 91 }
    requires last { slice_index text.now (length text.now - 1) ≡ 93 }
    ensures { result.now ≡ take (length text.now - 2) (drop 1 text.now) }
{
    let (_, inner) = text.split_at(1);
    inner.split_at(inner.len() - 1).0
}
