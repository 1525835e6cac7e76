//! Why sources are not read.
ghost use Rattle.std.specs.Prelude.{◌≡◌};
ghost use Rattle.source_trees.specs.Faults.{of_parse, of_token};

use std::alloc::AllocError;
use vlog_parse::ParseError;
use vlog_token::TokenError;

/// Why sources are no modules. The places tell the file, counted from 0.
#[derive(Clone, Copy, Debug, PartialEq, Eq)]
pub enum ReadError {
    /// The file of this number is no UTF-8 behind so many bytes.
    NotUtf8 { file: u16, len: u32 },
    /// A file has no tokens.
    Token(TokenError),
    /// The tokens of a file are no modules, or its directives cannot be carried out.
    Parse(ParseError),
    /// There was no memory.
    Memory,
}

impl From<AllocError> for ReadError {
    ghost use Rattle.source_trees.specs.declared.error.ReadError.TheVariants.{Memory};

    ghost from_gives = { λ _ e. e ≡ Memory };

    fn from(_: AllocError) -> ReadError {
        ReadError::Memory
    }
}

impl ReadError {
    /// Why a file has no tokens.
    pub(crate) fn of_token(error: TokenError) -> ReadError
        ensures { result ≡ of_token error }
    {
        match error {
            TokenError::Memory => ReadError::Memory,
            _ => ReadError::Token(error),
        }
    }

    /// Why tokens are not read.
    pub(crate) fn of_parse(error: ParseError) -> ReadError
        ensures { result ≡ of_parse error }
    {
        match error {
            ParseError::Memory => ReadError::Memory,
            _ => ReadError::Parse(error),
        }
    }
}
