//! Strings and the names of tokens.
ghost use Rattle.std.specs.Prelude.{◌≡◌, false, drop, IfOk};
ghost use Rattle.vlog_token.specs.Names.{escape_byte, IsStringValue, name_of, string_bytes, unescaped, without_backslash};
ghost use Rattle.vlog_token.specs.Reading.{string_end};

use crate::bytes::is_escape;
use crate::token::{Token, TokenKind};
use std::alloc::{AllocError, Global};

/// How many bytes there are up to the closing `"` of a string whose opening `"` stands before them.
pub fn string_len(bytes: &[u8]) -> Option<usize>
    ensures { result ≡ string_end false bytes.now }
{
    let mut is_escaped = false;
    for (at, b) in bytes.iter().enumerate() {
        if is_escaped {
            if !is_escape(*b) {
                return None;
            }
            is_escaped = false;
        } else if *b == b'"' {
            return Some(at + 1);
        } else if *b == b'\n' {
            return None;
        } else {
            is_escaped = *b == b'\\';
        }
    }
    None
}

/// The name that the token stands for: an escaped name without its `\`, another token's text as it is.
pub fn name_of<'a>(token: &Token<'a>) -> &'a str
    ensures { result.now ≡ name_of token.now.kind token.now.text.now }
{
    match token.kind {
        TokenKind::Escaped => without_backslash(token.text),
        _ => token.text,
    }
}

fn without_backslash(text: &str) -> &str
    ensures { result.now ≡ without_backslash text.now }
{
    match text.as_bytes() {
        [first, ..] if *first == b'\\' => text.split_at(1).1,
        _ => text,
    }
}

/// The bytes that a string stands for, by its token's text: without its `"`, and each escape as its byte.
pub fn string_value(alloc: Global, text: &str) -> Result<Vec<u8>, AllocError>
    ensures value { IfOk result (λ v. IsStringValue text.now v.items) }
    ensures bytes { IfOk result (λ v. v.items ≡ string_bytes text.now) }
{
    match text.as_bytes() {
        [_, body @ ..] => unescape(alloc, body),
        [] => Ok(Vec::new(alloc)),
    }
}

fn unescape(alloc: Global, body: &[u8]) -> Result<Vec<u8>, AllocError>
    ensures { IfOk result (λ v. v.items ≡ unescaped false body.now) }
{
    let mut bytes = Vec::new(alloc);
    let mut is_escaped = false;
    for b in body {
        if is_escaped {
            bytes.push(escape_byte(*b))?;
            is_escaped = false;
        } else if *b == b'"' {
            return Ok(bytes);
        } else if *b == b'\\' {
            is_escaped = true;
        } else {
            bytes.push(*b)?;
        }
    }
    Ok(bytes)
}

fn escape_byte(b: u8) -> u8
    ensures { result ≡ escape_byte b }
{
    match b {
        b'n' => b'\n',
        b't' => b'\t',
        _ => b,
    }
}
