//! Why a source is not read.
ghost use Rattle.std.specs.Prelude.{◌≡◌};

use mcy_base::{Kind, Span};
use std::alloc::AllocError;
use vlog_syntax::Feature;

/// Why tokens are no source of the profile. At the end of the tokens the place is the one past the file's last byte.
#[derive(Clone, Copy, Debug, PartialEq, Eq)]
pub enum ParseError {
    /// The first token after which no text of the grammar goes on.
    Unexpected(Span),
    /// The first token of a construct that is refused by name.
    Unsupported(Span, Feature),
    /// The use of a macro that is not defined there.
    UnknownMacro(Span),
    /// An `` `ifdef`` or `` `ifndef`` without its end.
    OpenCondition(Span),
    /// The token at which more than 200 constructs are nested.
    TooDeep(Span),
    /// There are more tokens and uses of macros than the limit.
    TooMany(Kind),
    /// There was no memory.
    Memory,
}

impl From<AllocError> for ParseError {
    ghost use Rattle.vlog_expand.specs.declared.error.ParseError.TheVariants.{Memory};

    ghost from_gives = { λ _ e. e ≡ Memory };

    fn from(_: AllocError) -> ParseError {
        ParseError::Memory
    }
}
