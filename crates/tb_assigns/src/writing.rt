//! The updates of several pieces, from the right end.
ghost use Rattle.std.specs.Prelude.{◌≡◌, ◌++◌, IfOk, OnOk};
ghost use Rattle.tb_assigns.specs.Pieces.{window_of, windows_of, listed};
ghost use Rattle.tb_assigns.specs.Updates.{window_update, updates_of};

use crate::clip::{clip_of, without_low_bits};
use crate::piece::Piece;
use std::alloc::{AllocError, Global};
use tb_machine::Update;

/// The update of a piece, if a bit of it lies in its signal.
pub fn update_of(piece: Piece, value: u128) -> Option<Update>
    ensures { listed result ≡ window_update (window_of piece) value }
{
    clip_of(piece).update(value)
}

/// Adds an update, if there is one.
fn push(updates: &mut Vec<Update>, update: Option<Update>) -> Result<(), AllocError>
    ensures { OnOk result (updates.new.items ≡ updates.old.items ++ listed update) }
{
    if let Some(update) = update {
        updates.push(update)?;
    }
    Ok(())
}

/// The updates of pieces with a value. The last piece has its lowest bits, and is written first.
pub(crate) fn updates_of(
    alloc: Global,
    pieces: &[Piece],
    value: u128,
) -> Result<Vec<Update>, AllocError>
    ensures { IfOk result (λ us. us.items ≡ updates_of (windows_of pieces.now) value) }
{
    let mut updates = Vec::new(alloc);
    let mut rest = value;
    for piece in pieces.iter().rev() {
        push(&mut updates, update_of(*piece, rest))?;
        rest = without_low_bits(rest, piece.size);
    }
    Ok(updates)
}
