//! Tokens, by kind, text and place (IEEE 1364-2005, 3).
ghost use Rattle.std.specs.Prelude.{◌≡◌};

use mcy_base::Span;
use std::alloc::AllocError;

/// What a token is (IEEE 1364-2005, 3.1).
#[derive(Clone, Copy, Debug, PartialEq, Eq)]
pub enum TokenKind {
    /// A letter or `_`, then letters, digits, `_` and `$`. Reserved words are names.
    Name,
    /// `\` and non-blank characters. The `\` stands in the token's text and is no part of the name.
    Escaped,
    /// `$` and a name.
    System,
    /// `` ` `` and a name.
    Directive,
    /// A decimal or a based number.
    Number,
    /// A string, in its `"`.
    String,
    /// An operator or punctuation.
    Symbol,
}

/// A token: a slice of the source, and the place of its first byte.
#[derive(Clone, Copy, Debug)]
pub struct Token<'a> {
    pub kind: TokenKind,
    pub text: &'a str,
    pub span: Span,
}

/// Why a text has no tokens. The place is that of the first byte of the bad token.
#[derive(Clone, Copy, Debug, PartialEq, Eq)]
pub enum TokenError {
    /// No token begins with this character.
    BadCharacter(Span),
    /// A `/*` comment without its end.
    OpenComment(Span),
    /// A string without its end on the line, or with an escape that is none of the four.
    OpenString(Span),
    /// A number that is none of the profile.
    BadNumber(Span),
    /// There was no memory.
    Memory,
}

impl From<AllocError> for TokenError {
    ghost use Rattle.vlog_token.specs.declared.token.TokenError.TheVariants.{Memory};

    ghost from_gives = { λ _ e. e ≡ Memory };

    fn from(_: AllocError) -> TokenError {
        TokenError::Memory
    }
}
