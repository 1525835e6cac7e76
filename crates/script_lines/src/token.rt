//! The tokens of a line.
//!
//! Each token is the longest one that fits. Blanks stand between tokens where they are wanted, and a comment ends the line.
ghost use Rattle.std.specs.Prelude.{◌≡◌, ◌<◌, ◌≤◌, ◌++◌, ◌∷◌, ◌+◌, ◌-◌, IfOk, IfSome, drop, length, option_map, take};
ghost use Rattle.script_lines.specs.Tokens.{front_token, is_end, number_token, places_len, quoted_token, sign, starts_with, tokens, with_equal, word_token};

use crate::class::{Class, from_word, run_len};
use crate::keyword::{Keyword, keyword_of};
use mcy_base::{Bytes, Items};
use project_lines::{is_digit, is_name_start};
use std::alloc::{AllocError, Global};

/// A token of a script.
#[derive(Drop)]
pub enum Token {
    Keyword(Keyword),
    /// A letter or `_`, then letters, digits and `_`, and no keyword.
    Name(Bytes),
    /// One or more decimal digits.
    Digits(Bytes),
    /// Digits, a point and digits: those before the point, and those behind it.
    Decimal(Bytes, Bytes),
    /// What stands between two `"` or two `'`.
    Quoted(Bytes),
    /// `==`
    Equal,
    /// `!=`
    NotEqual,
    /// `<=`
    LessEqual,
    /// `>=`
    GreaterEqual,
    /// Any other byte.
    Symbol(u8),
}

/// Tokens.
pub type TokenList = Items<Token>;

/// A token in front of a text, and how many bytes it takes.
#[derive(Drop)]
struct Cut {
    token: Token,
    len: usize,
}

/// The token of a word.
#[tactic(auto, unfolding(crate::specs::Tokens::word_token))]
fn word_token(alloc: Global, word: &[u8]) -> Result<Token, AllocError>
    ensures { IfOk result (λ token. token ≡ word_token word.now) }
{
    match keyword_of(word) {
        Some(keyword) => Ok(Token::Keyword(keyword)),
        None => Ok(Token::Name(Bytes::copy(alloc, word)?)),
    }
}

/// Whether the text begins with this byte.
fn starts_with(byte: u8, text: &[u8]) -> bool
    ensures { result ≡ starts_with byte text.now }
{
    match text {
        [first, ..] => *first == byte,
        [] => false,
    }
}

/// The quoted text in front, without its first quote, where it has an end.
#[tactic(auto, unfolding(crate::specs::Tokens::quoted_token))]
fn quoted_token(alloc: Global, quote: u8, text: &[u8]) -> Result<Option<Cut>, AllocError>
    ensures value { IfOk result (λ cut. cut ≡ quoted_token quote text.now) }
    ensures shorter { IfOk result (λ cut. IfSome cut (λ c. c.len ≤ length text.now + 1)) }
{
    let len = run_len(Class::Inside(quote), text);
    if !starts_with(quote, &text[len..]) {
        return Ok(None);
    }
    Ok(Some(Cut {
        token: Token::Quoted(Bytes::copy(alloc, &text[..len])?),
        len: len + 2,
    }))
}

/// The token that a byte and `=` behind it are, if they are one.
fn with_equal(first: u8) -> Option<Token>
    ensures { result ≡ with_equal first }
{
    match first {
        b'=' => Some(Token::Equal),
        b'!' => Some(Token::NotEqual),
        b'<' => Some(Token::LessEqual),
        b'>' => Some(Token::GreaterEqual),
        _ => None,
    }
}

/// The token of one or two bytes that begins with this one.
#[tactic(auto, unfolding(crate::specs::Tokens::sign))]
fn sign(first: u8, text: &[u8]) -> Cut
    ensures value { result ≡ sign first text.now }
    ensures shorter { result.len ≤ length text.now + 1 }
{
    if starts_with(b'=', text) {
        if let Some(token) = with_equal(first) {
            return Cut { token, len: 2 };
        }
    }
    Cut {
        token: Token::Symbol(first),
        len: 1,
    }
}

/// How many digits stand behind a point in front.
fn places_len(text: &[u8]) -> usize
    ensures value { result ≡ places_len text.now }
    ensures shorter { result ≤ length text.now - 1 }
{
    match text {
        [first, more @ ..] if *first == b'.' => run_len(Class::Digit, more),
        _ => 0,
    }
}

/// The number in front, of which so many digits stand before a point, if there is one that digits follow.
#[tactic(auto, unfolding(crate::specs::Tokens::number_token))]
fn number_token(alloc: Global, whole: usize, text: &[u8]) -> Result<Cut, AllocError>
    requires { whole ≤ length text.now }
    ensures value { IfOk result (λ cut. cut ≡ number_token whole text.now) }
    ensures shorter { IfOk result (λ cut. cut.len ≤ length text.now) }
{
    let digits = Bytes::copy(alloc, &text[..whole])?;
    let places = places_len(&text[whole..]);
    if places == 0 {
        return Ok(Cut {
            token: Token::Digits(digits),
            len: whole,
        });
    }
    let behind = &text[whole + 1..];
    let behind = Bytes::copy(alloc, &behind[..places])?;
    Ok(Cut {
        token: Token::Decimal(digits, behind),
        len: whole + 1 + places,
    })
}

/// The token in front of a text without blanks in front.
#[tactic(auto, unfolding(crate::specs::Tokens::front_token))]
fn front_token(alloc: Global, text: &[u8]) -> Result<Option<Cut>, AllocError>
    ensures value { IfOk result (λ cut. cut ≡ front_token text.now) }
    ensures shorter { IfOk result (λ cut. IfSome cut (λ c. c.len ≤ length text.now)) }
{
    let [first, more @ ..] = text else {
        return Ok(None);
    };
    if is_name_start(*first) {
        let len = 1 + run_len(Class::NameByte, more);
        let token = word_token(alloc, &text[..len])?;
        return Ok(Some(Cut { token, len }));
    }
    if is_digit(*first) {
        let whole = 1 + run_len(Class::Digit, more);
        return Ok(Some(number_token(alloc, whole, text)?));
    }
    if *first == b'"' || *first == b'\'' {
        return quoted_token(alloc, *first, more);
    }
    Ok(Some(sign(*first, more)))
}

/// Whether nothing is left but a comment.
#[tactic(auto, unfolding(crate::specs::Tokens::is_end))]
pub fn is_end(text: &[u8]) -> bool
    ensures { result ≡ is_end text.now }
{
    match text {
        [first, ..] => *first == b'#',
        [] => true,
    }
}

/// The tokens of a line, or none where a text in it has no end.
pub fn tokens(alloc: Global, line: &[u8]) -> Result<Option<TokenList>, AllocError>
    ensures { IfOk result (λ all. all ≡ tokens line.now) }
{
    let mut tokens = TokenList::from_vec(Vec::new(alloc));
    let mut rest = from_word(line);
    while !is_end(rest) {
        let Some(cut) = front_token(alloc, rest)? else {
            return Ok(None);
        };
        tokens.push(cut.token)?;
        rest = from_word(&rest[cut.len..]);
    }
    Ok(Some(tokens))
}
