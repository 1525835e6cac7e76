//! Words, and expressions of one token.
ghost use Rattle.std.specs.Prelude.{◌≡◌, ◌≤◌, ◌^◌, ◌-◌, IfOk, IsTrue, bytes_eq, length, min, option_map, slice_get};
ghost use Rattle.project_lines.specs.Numbers.{value};
ghost use Rattle.tag_lines.specs.Grammar.{argument_of, is_function, is_last, number_of, place_of, single};

use crate::expr::Expr;
use mcy_base::{Bytes, Text};
use script_lines::{Keyword, Token, is_symbol};
use std::alloc::{AllocError, Global};

/// The least number that a script does not have.
const LIMIT: u64 = 1 << 31;

/// Whether a name is this word.
pub fn is_word(name: &[u8], word: &str) -> bool
    ensures { result ≡ bytes_eq name.now word.now }
{
    name == word.as_bytes()
}

/// Whether a name is that of a function.
#[tactic(auto, unfolding(crate::specs::Grammar::is_function))]
pub fn is_function(name: &[u8]) -> bool
    ensures { result ≡ is_function name.now }
{
    is_word(name, "tag") || is_word(name, "result")
}

/// The place of a text in a list, or how many there are.
#[tactic(auto, unfolding(crate::specs::Grammar::place_of))]
pub fn place_in_texts(word: &[u8], texts: &[Text]) -> usize
    ensures { result ≡ place_of word.now texts.now }
{
    for (i, text) in texts.iter().enumerate() {
        if text.as_str().as_bytes() == word {
            return i;
        }
    }
    texts.len()
}

/// The place of a name in a list, or how many there are.
#[tactic(auto, unfolding(crate::specs::Grammar::place_of))]
pub fn place_in_names(word: &[u8], names: &[Bytes]) -> usize
    ensures { result ≡ place_of word.now names.now }
{
    for (i, name) in names.iter().enumerate() {
        if name.as_slice() == word {
            return i;
        }
    }
    names.len()
}

/// The value of decimal digits, or the limit where it is the limit or more.
#[tactic(auto, unfolding(project_lines::specs::Numbers::value))]
fn value(digits: &[u8]) -> u64
    ensures { result ≡ min (value digits.now) (2 ^ 31) }
{
    let mut value: u64 = 0;
    for digit in digits {
        value = (value * 10 + u64::from(digit.saturating_sub(48))).min(LIMIT);
    }
    value
}

#[tactic(auto, unfolding(crate::specs::Grammar::number_of))]
fn number_of(digits: &[u8]) -> Option<Expr>
    ensures { result ≡ number_of digits.now }
{
    let value = value(digits);
    if value < LIMIT {
        Some(Expr::Number(value as u32))
    } else {
        None
    }
}

/// An expression of one token.
#[tactic(auto, unfolding(crate::specs::Grammar::single))]
pub fn single(alloc: Global, names: &[Bytes], token: &Token) -> Result<Option<Expr>, AllocError>
    ensures { IfOk result (λ x. x ≡ single names.now token.now) }
{
    match token {
        Token::Keyword(Keyword::True) => Ok(Some(Expr::Number(1))),
        Token::Keyword(Keyword::False) => Ok(Some(Expr::Number(0))),
        Token::Digits(digits) => Ok(number_of(digits.as_slice())),
        Token::Quoted(text) => Ok(Some(Expr::Text(Bytes::copy(alloc, text.as_slice())?))),
        Token::Name(name) if !is_function(name.as_slice()) => {
            Ok(Some(Expr::Name(place_in_names(name.as_slice(), names))))
        }
        _ => Ok(None),
    }
}

/// The text to which a function is applied.
#[tactic(auto, unfolding(crate::specs::Grammar::argument_of))]
pub fn argument_of<'a>(function: &str, tokens: &'a [Token]) -> Option<&'a Bytes>
    ensures { option_map (λ text. text.now) result ≡ argument_of function.now tokens.now }
{
    match tokens {
        [Token::Name(name), opened, Token::Quoted(text), close]
            if is_word(name.as_slice(), function)
                && is_symbol(b'(', opened)
                && is_symbol(b')', close) => { Some(text) }
        _ => None,
    }
}

/// Whether the last token is this byte.
pub fn is_last(byte: u8, tokens: &[Token]) -> bool
    ensures value { result ≡ is_last byte (slice_get tokens.now (length tokens.now - 1)) }
    ensures filled { IsTrue result → 1 ≤ length tokens.now }
{
    match tokens.last() {
        Some(token) => is_symbol(byte, token),
        None => false,
    }
}
