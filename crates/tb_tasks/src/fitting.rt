//! Whether the arguments of a task fit its format.
ghost use Rattle.std.specs.Prelude.{◌≡◌, ◌≤◌, ◌∷◌, List, drop, length, false, ⊤, IfOk, MatchOption};
ghost use Rattle.tb_formats.specs.declared.text.Piece.{Piece};
ghost use Rattle.tb_tasks.specs.Tasks.{fits, arguments_fit};

use std::alloc::{AllocError, Global};
use tb_formats::{Piece, read_format};
use vlog_syntax::Argument;

/// The number of the arguments that a piece takes of these, or None where it lacks one.
fn taken(piece: Piece, arguments: &[Argument]) -> Option<usize>
    ensures count { MatchOption result ⊤ (λ n. n ≤ length arguments.now) }
    ensures fits { (more : List Piece) → MatchOption result (fits (piece ∷ more) arguments.now ≡ false) (λ n. fits more (drop n arguments.now) ≡ fits (piece ∷ more) arguments.now) }
{
    match piece {
        Piece::Byte(_) => Some(0),
        Piece::Value(_) => match arguments {
            [Argument::Expr(..), ..] => Some(1),
            [Argument::String(..), ..] => None,
            [] => None,
        },
        Piece::String => match arguments {
            [Argument::String(..), ..] => Some(1),
            [Argument::Expr(..), ..] => None,
            [] => None,
        },
    }
}

/// Whether each piece gets its argument.
fn pieces_fit(pieces: &[Piece], arguments: &[Argument]) -> bool
    ensures { result ≡ fits pieces.now arguments.now }
{
    let mut at = 0;
    for piece in pieces {
        let Some(count) = taken(*piece, &arguments[at..]) else {
            return false;
        };
        at += count;
    }
    true
}

/// Whether the arguments of `$display` or `$write` fit: each format of a string that is the first one is supported, and gets an
/// argument of its kind.
pub fn arguments_fit(alloc: Global, arguments: &[Argument]) -> Result<bool, AllocError>
    ensures { IfOk result (λ b. b ≡ arguments_fit arguments.now) }
{
    match arguments {
        [Argument::String(format, _), ..] => {
            let pieces = read_format(alloc, format.as_slice())?;
            match pieces {
                Some(pieces) => Ok(pieces_fit(pieces.as_slice(), &arguments[1..])),
                None => Ok(false),
            }
        }
        [Argument::Expr(..), ..] => Ok(true),
        [] => Ok(true),
    }
}
