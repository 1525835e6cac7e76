//! The pieces of a format, each with its argument.
ghost use Rattle.std.specs.Prelude.{◌≡◌, ◌≤◌, ◌∷◌, List, drop, length, ⊤, IfOk, MatchOption};
ghost use Rattle.vlog_meaning.specs.Scopes.{names_of, store_of, FitsSignals};
ghost use Rattle.tb_formats.specs.declared.text.Piece.{Piece};
ghost use Rattle.tb_formats.specs.Pieces.{pieces};
ghost use Rattle.tb_tasks.specs.Tasks.{show, show_rest, show_format, AreWhole};

use crate::argument::{show_rest, show_value};
use rand_pcg::Lcg64Xsh32;
use std::alloc::AllocError;
use tb_formats::{Piece, read_format};
use tb_values::Moment;
use vlog_syntax::Argument;

/// Prints a piece with its argument, the first of these. The number of the arguments that it takes, or None where it lacks one.
fn show_piece(
    piece: Piece,
    arguments: &[Argument],
    moment: &Moment<'_>,
    words: &mut Lcg64Xsh32,
    text: &mut Vec<u8>,
) -> Result<Option<usize>, AllocError>
    requires whole { AreWhole (names_of moment.now.scope.now) arguments.now }
    requires stored { FitsSignals (names_of moment.now.scope.now) moment.now.store.now }
    ensures count { IfOk result (λ taken. MatchOption taken ⊤ (λ n. n ≤ length arguments.now)) }
    ensures shown { (more : List Piece) → IfOk result (λ taken. MatchOption taken ((text.new.items, words.new) ≡ show (record { names = names_of moment.now.scope.now; phase = moment.now.phase; store = store_of moment.now.store.now }) (piece ∷ more) arguments.now (text.old.items, words.old)) (λ n. show (record { names = names_of moment.now.scope.now; phase = moment.now.phase; store = store_of moment.now.store.now }) more (drop n arguments.now) (text.new.items, words.new) ≡ show (record { names = names_of moment.now.scope.now; phase = moment.now.phase; store = store_of moment.now.store.now }) (piece ∷ more) arguments.now (text.old.items, words.old))) }
{
    match piece {
        Piece::Byte(byte) => {
            text.push(byte)?;
            Ok(Some(0))
        }
        Piece::Value(format) => match arguments {
            [Argument::Expr(expr), ..] => {
                show_value(format, expr.get(), moment, words, text)?;
                Ok(Some(1))
            }
            [Argument::String(..), ..] => Ok(None),
            [] => Ok(None),
        },
        Piece::String => match arguments {
            [Argument::String(string, _), ..] => {
                text.extend_from_slice(string.as_slice())?;
                Ok(Some(1))
            }
            [Argument::Expr(..), ..] => Ok(None),
            [] => Ok(None),
        },
    }
}

/// Prints the pieces in order. The number of the arguments that they take, or None where one lacks its argument.
fn show_pieces(
    pieces: &[Piece],
    arguments: &[Argument],
    moment: &Moment<'_>,
    words: &mut Lcg64Xsh32,
    text: &mut Vec<u8>,
) -> Result<Option<usize>, AllocError>
    requires whole { AreWhole (names_of moment.now.scope.now) arguments.now }
    requires stored { FitsSignals (names_of moment.now.scope.now) moment.now.store.now }
    ensures count { IfOk result (λ taken. MatchOption taken ⊤ (λ n. n ≤ length arguments.now)) }
    ensures shown { IfOk result (λ taken. MatchOption taken ((text.new.items, words.new) ≡ show (record { names = names_of moment.now.scope.now; phase = moment.now.phase; store = store_of moment.now.store.now }) pieces.now arguments.now (text.old.items, words.old)) (λ n. show_rest (record { names = names_of moment.now.scope.now; phase = moment.now.phase; store = store_of moment.now.store.now }) (drop n arguments.now) (text.new.items, words.new) ≡ show (record { names = names_of moment.now.scope.now; phase = moment.now.phase; store = store_of moment.now.store.now }) pieces.now arguments.now (text.old.items, words.old))) }
{
    let mut taken = 0;
    for piece in pieces {
        let Some(count) = show_piece(*piece, &arguments[taken..], moment, words, text)? else {
            return Ok(None);
        };
        taken += count;
    }
    Ok(Some(taken))
}

/// Prints a format with the arguments behind it.
pub(crate) fn show_format(
    format: &[u8],
    arguments: &[Argument],
    moment: &Moment<'_>,
    words: &mut Lcg64Xsh32,
    text: &mut Vec<u8>,
) -> Result<(), AllocError>
    requires whole { AreWhole (names_of moment.now.scope.now) arguments.now }
    requires stored { FitsSignals (names_of moment.now.scope.now) moment.now.store.now }
    ensures { IfOk result (λ _. (text.new.items, words.new) ≡ show_format (record { names = names_of moment.now.scope.now; phase = moment.now.phase; store = store_of moment.now.store.now }) (pieces format.now) arguments.now (text.old.items, words.old)) }
{
    let Some(pieces) = read_format(moment.alloc, format)? else {
        return Ok(());
    };
    match show_pieces(pieces.as_slice(), arguments, moment, words, text)? {
        Some(taken) => show_rest(&arguments[taken..], moment, words, text),
        None => Ok(()),
    }
}
