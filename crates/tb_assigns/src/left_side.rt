//! A left side: how many bits it writes, and its parts from the left, with the numbers that their indices are.
ghost use Rattle.std.specs.Prelude.{◌≡◌, ◌≤◌, ◌++◌, ◌∷◌, [], map, OnOk};
ghost use Rattle.vlog_meaning.specs.Scopes.{names_of, store_of, FitsSignals};
ghost use Rattle.vlog_effects.specs.LeftSides.{parts_of, parts_width, concatenated};
ghost use Rattle.tb_assigns.specs.Pieces.{AreDrawn};
ghost use Rattle.tb_assigns.specs.Updates.{AreParts};

use crate::piece::{
    Piece, bit_piece, indexed_piece, range_piece, range_size, vector_of, whole_piece,
};
use expr_plans::{bound_of, count_of};
use rand_pcg::Lcg64Xsh32;
use std::alloc::AllocError;
use tb_values::Moment;
use vlog_meaning::Scope;
use vlog_syntax::LeftSide;

/// How many bits a left side writes, at most 128.
#[cycle(width)]
pub fn left_width(left: &LeftSide, scope: &Scope) -> u8
    requires parts { AreParts (names_of scope.now) (parts_of left.now) }
    requires narrow { parts_width (names_of scope.now) (parts_of left.now) ≤ 128 }
    ensures { result ≡ parts_width (names_of scope.now) (parts_of left.now) }
{
    match left {
        LeftSide::Name(name) => vector_of(name, scope).width,
        LeftSide::BitSelect(..) => 1,
        LeftSide::PartSelect(_, _, msb, lsb) => {
            range_size(bound_of(msb.get(), scope), bound_of(lsb.get(), scope))
        }
        LeftSide::IndexedPartSelect(_, _, _, count) => count_of(count.get(), scope),
        LeftSide::Concatenation(_, parts) => left_widths(parts.as_slice(), scope),
    }
}

/// How many bits several left sides write.
#[cycle(width)]
fn left_widths(parts: &[LeftSide], scope: &Scope) -> u8
    requires parts { AreParts (names_of scope.now) (concatenated (map parts_of parts.now)) }
    requires narrow { parts_width (names_of scope.now) (concatenated (map parts_of parts.now)) ≤ 128 }
    ensures { result ≡ parts_width (names_of scope.now) (concatenated (map parts_of parts.now)) }
{
    let mut width = 0;
    for part in parts {
        width += left_width(part, scope);
    }
    width
}

/// Adds a piece at the end.
fn push(pieces: &mut Vec<Piece>, piece: Piece) -> Result<(), AllocError>
    ensures { OnOk result (pieces.new.items ≡ pieces.old.items ++ piece ∷ []) }
{
    pieces.push(piece)?;
    Ok(())
}

/// Adds the pieces of a left side. Their indices are evaluated from the left.
#[cycle(pieces)]
pub(crate) fn push_pieces(
    left: &LeftSide,
    moment: &Moment<'_>,
    words: &mut Lcg64Xsh32,
    pieces: &mut Vec<Piece>,
) -> Result<(), AllocError>
    requires parts { AreParts (names_of moment.now.scope.now) (parts_of left.now) }
    requires stored { FitsSignals (names_of moment.now.scope.now) moment.now.store.now }
    ensures { OnOk result (AreDrawn (names_of moment.now.scope.now) moment.now.phase (store_of moment.now.store.now) (parts_of left.now) words.old words.new pieces.old.items pieces.new.items) }
{
    match left {
        LeftSide::Name(name) => push(pieces, whole_piece(name, moment.scope))?,
        LeftSide::BitSelect(name, span, index) => {
            let piece = bit_piece(name, *span, index.get(), moment, words)?;
            push(pieces, piece)?;
        }
        LeftSide::PartSelect(name, span, msb, lsb) => {
            push(
                pieces,
                range_piece(name, *span, msb.get(), lsb.get(), moment.scope),
            )?;
        }
        LeftSide::IndexedPartSelect(name, span, base, count) => {
            let piece = indexed_piece(name, *span, base.get(), count.get(), moment, words)?;
            push(pieces, piece)?;
        }
        LeftSide::Concatenation(_, parts) => {
            push_all_pieces(parts.as_slice(), moment, words, pieces)?;
        }
    }
    Ok(())
}

/// The same of several left sides.
#[cycle(pieces)]
fn push_all_pieces(
    parts: &[LeftSide],
    moment: &Moment<'_>,
    words: &mut Lcg64Xsh32,
    pieces: &mut Vec<Piece>,
) -> Result<(), AllocError>
    requires parts { AreParts (names_of moment.now.scope.now) (concatenated (map parts_of parts.now)) }
    requires stored { FitsSignals (names_of moment.now.scope.now) moment.now.store.now }
    ensures { OnOk result (AreDrawn (names_of moment.now.scope.now) moment.now.phase (store_of moment.now.store.now) (concatenated (map parts_of parts.now)) words.old words.new pieces.old.items pieces.new.items) }
{
    for part in parts {
        push_pieces(part, moment, words, pieces)?;
    }
    Ok(())
}
