//! Where the parts of conditions end (IEEE 1364-2005, 19.4), whatever macros are defined.
//!
//! What a `` `define``, a `` `timescale`` or a `` `default_nettype`` has on its line is part of it, and no
//! other directive.
ghost use Rattle.std.specs.Prelude.{◌≡◌, ◌≤◌, length};
ghost use Rattle.vlog_expand.specs.Conditions.{after_part, belongs, is_closed, line_after, word_at};

use crate::word::{Word, word_of};
use vlog_token::Token;

/// Whether a token belongs to a directive to which the rest of this line belongs.
fn belongs(line: Option<u32>, token: &Token<'_>) -> bool
    ensures { result ≡ belongs line token.now }
{
    match line {
        None => false,
        Some(line) => token.span.line == line,
    }
}

/// What a token is to the conditions, where the rest of this line belongs to a directive.
fn word_at(line: Option<u32>, token: &Token<'_>) -> Word
    ensures { result ≡ word_at line token.now }
{
    if belongs(line, token) {
        return Word::Plain;
    }
    word_of(token)
}

/// The line whose rest belongs to a directive, behind this token.
fn line_after(line: Option<u32>, token: &Token<'_>) -> Option<u32>
    ensures { result ≡ line_after line token.now }
{
    if belongs(line, token) {
        return line;
    }
    match word_of(token) {
        Word::Define | Word::Dropped => Some(token.span.line),
        _ => None,
    }
}

/// Whether a condition that begins before these tokens has its end among them.
#[tactic(auto, unfolding(crate::specs::Conditions::is_closed))]
pub fn is_closed(tokens: &[Token<'_>]) -> bool
    ensures { result ≡ is_closed tokens.now }
{
    let mut depth: usize = 0;
    let mut line = None;
    for token in tokens {
        match word_at(line, token) {
            Word::Ifdef | Word::Ifndef => depth += 1,
            Word::Endif if depth == 0 => return true,
            Word::Endif => depth -= 1,
            _ => {}
        }
        line = line_after(line, token);
    }
    false
}

/// The tokens from the first `` `else``, `` `elsif`` or `` `endif`` on that is of no condition among them.
#[tactic(auto, unfolding(crate::specs::Conditions::after_part))]
pub fn after_part<'t, 'a>(tokens: &'t [Token<'a>]) -> &'t [Token<'a>]
    ensures value { result.now ≡ after_part tokens.now }
    ensures shorter { length result.now ≤ length tokens.now }
{
    let mut depth: usize = 0;
    let mut line = None;
    for (i, token) in tokens.iter().enumerate() {
        match word_at(line, token) {
            Word::Else | Word::Elsif | Word::Endif if depth == 0 => return &tokens[i..],
            Word::Ifdef | Word::Ifndef => depth += 1,
            Word::Endif => depth -= 1,
            _ => {}
        }
        line = line_after(line, token);
    }
    &[]
}
