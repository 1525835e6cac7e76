//! What of a piece lies in its signal, which is known before a value is, and its update with a value.
ghost use Rattle.std.specs.Prelude.{◌≡◌, ℕ, ◌-◌, ◌/◌, ◌%◌, ◌^◌, min};
ghost use Rattle.tb_assigns.specs.Pieces.{window_of, listed, clip_update};
ghost use Rattle.tb_assigns.specs.Updates.{some_bits, window_update};

use crate::piece::Piece;
use tb_machine::Update;
use vlog_meaning::truncate;

/// Bits of a signal, from its bit `low` on, so many: they get those of a value without its lowest bits, of which `skipped` lie
/// below the signal. None is written where the width is 0.
#[derive(Clone, Copy, Debug, PartialEq, Eq)]
pub struct Clip {
    pub signal: u32,
    pub low: u8,
    pub width: u8,
    pub skipped: u8,
}

/// The lowest bits of a number.
fn low_bits(value: u128, size: u8) -> u128
    ensures { result ≡ value % 2 ^ size }
{
    if size < 128 {
        truncate(value, size)
    } else {
        value
    }
}

/// A number without its lowest bits.
pub(crate) fn without_low_bits(value: u128, size: u8) -> u128
    ensures { result ≡ value / 2 ^ size }
{
    if size < 128 { value >> size } else { 0 }
}

/// The bits of a piece that begins so many bits below its signal.
fn clip_below(piece: Piece, below: u128) -> Clip
    ensures { (v : ℕ) → clip_update result v ≡ some_bits piece.vector.number 0 (min (piece.size - below) piece.vector.width) (v / 2 ^ below) }
{
    let signal = piece.vector.number;
    if below >= u128::from(piece.size) {
        return nothing_of(signal);
    }
    let skipped = below as u8;
    let width = (piece.size - skipped).min(piece.vector.width);
    Clip {
        signal,
        low: 0,
        width,
        skipped,
    }
}

/// No bit of a signal.
fn nothing_of(signal: u32) -> Clip
    ensures { (v : ℕ) → clip_update result v ≡ some_bits signal 0 0 v }
{
    Clip {
        signal,
        low: 0,
        width: 0,
        skipped: 0,
    }
}

/// The bits of a piece that begins at a bit of its signal, or above it.
fn clip_from(piece: Piece, at: u128) -> Clip
    ensures { (v : ℕ) → clip_update result v ≡ some_bits piece.vector.number at (min piece.size (piece.vector.width - at)) v }
{
    let signal = piece.vector.number;
    if at >= u128::from(piece.vector.width) {
        return nothing_of(signal);
    }
    let low = at as u8;
    let width = piece.size.min(piece.vector.width - low);
    Clip {
        signal,
        low,
        width,
        skipped: 0,
    }
}

/// The bits of a piece that lie in its signal.
pub fn clip_of(piece: Piece) -> Clip
    ensures { (v : ℕ) → clip_update result v ≡ window_update (window_of piece) v }
{
    let base = piece.base.magnitude;
    let low = u128::from(piece.vector.low);
    if piece.base.is_negative {
        if base >= u128::from(piece.size) {
            return nothing_of(piece.vector.number);
        }
        return clip_below(piece, base + low);
    }
    if base < low {
        return clip_below(piece, low - base);
    }
    clip_from(piece, base - low)
}

impl Clip {
    /// The update of the bits with those of a value, if they are any.
    pub fn update(self, value: u128) -> Option<Update>
        ensures { listed result ≡ clip_update self value }
    {
        if self.width == 0 {
            return None;
        }
        let bits = without_low_bits(value, self.skipped);
        Some(Update {
            signal: self.signal,
            low: self.low,
            width: self.width,
            value: low_bits(bits, self.width),
        })
    }
}
