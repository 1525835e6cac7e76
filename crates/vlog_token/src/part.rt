//! The part of a source that stands at a place: a blank, a comment or a token.
ghost use Rattle.std.specs.Prelude.{◌≡◌, ◌<◌, false, length, slice_index, Some, MatchBool, MatchResult, true};
ghost use Rattle.vlog_token.specs.Kinds.{Fits, IsName, IsSolid};
ghost use Rattle.vlog_token.specs.Pieces.{begins_comment, begins_gap, HasValue};
ghost use Rattle.vlog_token.specs.Reading.{fault_without, FindsFront, IsBodyOf, IsFaultOf, IsPartOf, kind_from, LacksValue};

use crate::bytes::{is_blank, is_name_start};
use crate::gap::first_close;
use crate::numeral::number_in;
use crate::quoted::string_len;
use crate::run::{line_run, name_run, solid_run};
use crate::shape::shape_len;
use crate::symbol::{is_single, symbol_len};
use crate::token::TokenKind;

/// A part: its kind where it is a token, and none where it is a blank or a comment, and its length in bytes.
#[derive(Clone, Copy, Debug, PartialEq, Eq)]
pub struct Part {
    pub kind: Option<TokenKind>,
    pub len: usize,
}

/// Why no part stands at a place.
#[derive(Clone, Copy, Debug, PartialEq, Eq)]
pub enum Fault {
    BadCharacter,
    OpenComment,
    OpenString,
    BadNumber,
}

/// The part at the front.
pub fn part_at(bytes: &[u8]) -> Result<Part, Fault>
    requires { 0 < length bytes.now }
    ensures { MatchResult result (IsPartOf bytes.now) (IsFaultOf bytes.now) }
{
    if is_blank(bytes[0]) {
        Ok(Part { kind: None, len: 1 })
    } else if begins_comment(bytes) {
        comment_at(bytes)
    } else {
        token_at(bytes)
    }
}

fn begins_comment(bytes: &[u8]) -> bool
    ensures { result ≡ begins_comment bytes.now }
{
    match bytes {
        [first, second, ..] => *first == b'/' && (*second == b'/' || *second == b'*'),
        _ => false,
    }
}

fn comment_at(bytes: &[u8]) -> Result<Part, Fault>
    requires { begins_comment bytes.now ≡ true }
    ensures { MatchResult result (IsPartOf bytes.now) (IsFaultOf bytes.now) }
{
    let body = &bytes[2..];
    if bytes[1] == b'/' {
        return Ok(Part {
            kind: None,
            len: 2 + line_run(body),
        });
    }
    match first_close(body) {
        Some(at) => Ok(Part {
            kind: None,
            len: at + 4,
        }),
        None => Err(Fault::OpenComment),
    }
}

fn token_at(bytes: &[u8]) -> Result<Part, Fault>
    requires some { 0 < length bytes.now }
    requires no_gap { begins_gap bytes.now ≡ false }
    ensures { MatchResult result (IsPartOf bytes.now) (IsFaultOf bytes.now) }
{
    let Some(kind) = kind_from(bytes[0]) else {
        return Err(Fault::BadCharacter);
    };
    let Some(len) = token_len(kind, bytes) else {
        return Err(fault_without(kind));
    };
    let (text, _) = bytes.split_at(len);
    if has_value(kind, text) {
        Ok(Part {
            kind: Some(kind),
            len,
        })
    } else {
        Err(Fault::BadNumber)
    }
}

/// Whether a text of the kind has the value that it needs, which a number alone does.
fn has_value(kind: TokenKind, text: &[u8]) -> bool
    ensures { MatchBool result (HasValue kind text.now) (LacksValue kind text.now) }
{
    match kind {
        TokenKind::Number => number_in(text).is_some(),
        _ => true,
    }
}

/// The only kind of token that may begin with this byte.
fn kind_from(first: u8) -> Option<TokenKind>
    ensures { result ≡ kind_from first }
{
    if is_name_start(first) {
        Some(TokenKind::Name)
    } else if first.is_ascii_digit() || first == b'\'' {
        Some(TokenKind::Number)
    } else if is_single(first) {
        Some(TokenKind::Symbol)
    } else if first == b'"' {
        Some(TokenKind::String)
    } else if first == b'\\' {
        Some(TokenKind::Escaped)
    } else if first == b'$' {
        Some(TokenKind::System)
    } else if first == b'`' {
        Some(TokenKind::Directive)
    } else {
        None
    }
}

/// The fault where no token of the kind is and none of another kind can be.
fn fault_without(kind: TokenKind) -> Fault
    ensures { result ≡ fault_without kind }
{
    match kind {
        TokenKind::String => Fault::OpenString,
        _ => Fault::BadCharacter,
    }
}

/// The length of the longest front that is of the kind, which is the only one that its first byte allows.
fn token_len(kind: TokenKind, bytes: &[u8]) -> Option<usize>
    requires some { 0 < length bytes.now }
    requires kind { kind_from (slice_index bytes.now 0) ≡ Some kind }
    ensures { FindsFront (Fits kind) bytes.now result }
{
    match kind {
        TokenKind::Name => name_len(bytes),
        TokenKind::Number => Some(shape_len(bytes)),
        TokenKind::Symbol => Some(symbol_len(bytes)),
        _ => match body_len(kind, &bytes[1..]) {
            Some(len) => Some(1 + len),
            None => None,
        },
    }
}

/// The length of what stands behind the first byte of a token that its first byte marks.
fn body_len(kind: TokenKind, bytes: &[u8]) -> Option<usize>
    ensures { FindsFront (IsBodyOf kind) bytes.now result }
{
    match kind {
        TokenKind::String => string_len(bytes),
        TokenKind::Escaped => solid_len(bytes),
        TokenKind::System | TokenKind::Directive => name_len(bytes),
        TokenKind::Name | TokenKind::Number | TokenKind::Symbol => None,
    }
}

fn name_len(bytes: &[u8]) -> Option<usize>
    ensures { FindsFront IsName bytes.now result }
{
    match bytes {
        [first, ..] if is_name_start(*first) => Some(name_run(bytes)),
        _ => None,
    }
}

fn solid_len(bytes: &[u8]) -> Option<usize>
    ensures { FindsFront IsSolid bytes.now result }
{
    match solid_run(bytes) {
        0 => None,
        len => Some(len),
    }
}
