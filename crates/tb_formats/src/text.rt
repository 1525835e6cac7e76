//! Format texts: bytes that stand for themselves, and formats for the arguments (IEEE 1364-2005, 17.1.1).
ghost use Rattle.std.specs.Prelude.{◌≡◌, ◌<◌, ◌≤◌, ◌++◌, ◌∷◌, drop, length, None, Some, IfOk, MatchOption};
ghost use Rattle.tb_formats.specs.Pieces.{pieces, form_of, Begins};

use crate::form::{Form, Format};
use mcy_base::Items;
use std::alloc::{AllocError, Global};

/// A piece of a format text.
#[derive(Clone, Copy, Debug, PartialEq, Eq)]
pub enum Piece {
    /// The byte itself.
    Byte(u8),
    /// The next argument, a value.
    Value(Format),
    /// The next argument, a string: `%s`.
    String,
}

/// The pieces of a format text.
pub type PieceList = Items<Piece>;

/// The pieces of a format text, or None where a format in it is not supported.
pub fn read_format(alloc: Global, text: &[u8]) -> Result<Option<PieceList>, AllocError>
    ensures { IfOk result (λ r. r ≡ pieces text.now) }
{
    let mut list = Vec::new(alloc);
    let mut at = 0;
    while at < text.len() {
        let Some((piece, length)) = first_piece(&text[at..]) else {
            return Ok(None);
        };
        list.push(piece)?;
        at += length;
    }
    Ok(Some(Items::from_vec(list)))
}

/// The first piece, and the number of its bytes.
fn first_piece(text: &[u8]) -> Option<(Piece, usize)>
    ensures { Begins text.now result }
{
    match text {
        [b'%', b'0', letter, ..] => Some((
            Piece::Value(Format {
                form: form_of(*letter)?,
                padded: false,
            }),
            3,
        )),
        [b'%', b'%', ..] => Some((Piece::Byte(b'%'), 2)),
        [b'%', b's', ..] => Some((Piece::String, 2)),
        [b'%', b'c', ..] => Some((
            Piece::Value(Format {
                form: Form::Character,
                padded: true,
            }),
            2,
        )),
        [b'%', letter, ..] => Some((
            Piece::Value(Format {
                form: form_of(*letter)?,
                padded: true,
            }),
            2,
        )),
        [b'%'] => None,
        [byte, ..] => Some((Piece::Byte(*byte), 1)),
        [] => None,
    }
}

/// The form of a letter that may stand after a `0`.
fn form_of(letter: u8) -> Option<Form>
    ensures { result ≡ form_of letter }
{
    match letter {
        b'b' => Some(Form::Binary),
        b'o' => Some(Form::Octal),
        b'h' => Some(Form::Hexadecimal),
        b'x' => Some(Form::Hexadecimal),
        b'd' => Some(Form::Decimal),
        b't' => Some(Form::Time),
        _ => None,
    }
}
