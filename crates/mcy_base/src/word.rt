//! A word: an unsigned number of a width.
//!
//! The width is from 1 to 128 bits, and the number is below 2^width.
ghost use Rattle.std.specs.Prelude.{◌≡◌, ◌<◌, ◌≤◌, ◌^◌, MatchOption};
ghost use Rattle.mcy_base.specs.Words.{IsWord};

/// An unsigned number of `width` bits.
#[derive(Clone, Copy, Debug, PartialEq, Eq)]
pub struct Word {
    width: u8,
    bits: u128,
    pub ghost some: { 1 ≤ width },
    pub ghost narrow: { width ≤ 128 },
    pub ghost fits: { bits < 2 ^ width },
}

impl Word {
    /// The word of this width with these bits, if the width is from 1 to 128 and the bits fit it.
    pub fn new(width: u8, bits: u128) -> Option<Word>
        ensures { MatchOption result (¬ IsWord width bits) (λ w. (w.width ≡ width) × (w.bits ≡ bits)) }
    {
        if width < 1 || width > 128 {
            return None;
        }
        if width < 128 && bits >= 1u128 << width {
            return None;
        }
        Some(Word { width, bits })
    }

    /// The width in bits.
    pub fn width(self) -> u8
        ensures width { result ≡ self.width }
        ensures range { (1 ≤ result) × (result ≤ 128) }
    {
        self.width
    }

    /// The number.
    pub fn bits(self) -> u128
        ensures bits { result ≡ self.bits }
        ensures fits { result < 2 ^ self.width }
    {
        self.bits
    }
}
