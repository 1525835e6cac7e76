//! Bits of one signal, and the numbers that stand for bits.
ghost use Rattle.std.specs.Prelude.{◌≡◌, ◌≤◌, ◌+◌, ◌-◌, ◌^◌, min, ℕ, pos, ◌-ℤ◌, ◌&&◌, ◌||◌, not, nat_eq, nat_le, nat_lt, IsTrue};
ghost use Rattle.vlog_meaning.specs.Integers.{bound_integer};
ghost use Rattle.vlog_meaning.specs.Senses.{is_among};
ghost use Rattle.signal_masks.specs.Masks.{has_bit};

use vlog_meaning::Bound;

/// Bits of a signal: its number, and a mask, bit 0 the lowest.
#[derive(Clone, Copy)]
pub struct Mask {
    pub number: u32,
    pub bits: u128,
}

impl Mask {
    /// The bits of a signal.
    #[tactic(auto, using(crate::proofs::Bits::has_none))]
    pub(crate) fn of(&self, number: u32) -> u128
        ensures { (i : ℕ) → has_bit result i ≡ (nat_eq number self.now.number && has_bit self.now.bits i) }
    {
        if number == self.number { self.bits } else { 0 }
    }
}

/// The bits of both.
#[tactic(auto, using(crate::proofs::Bits::has_or))]
pub(crate) fn joined(a: u128, b: u128) -> u128
    ensures { (i : ℕ) → has_bit result i ≡ (has_bit a i || has_bit b i) }
{
    a | b
}

/// The bits that both have.
#[tactic(auto, using(crate::proofs::Bits::has_and))]
pub(crate) fn common(a: u128, b: u128) -> u128
    ensures { (i : ℕ) → has_bit result i ≡ (has_bit a i && has_bit b i) }
{
    a & b
}

/// The bits of the first that the second has not.
#[tactic(auto, using(crate::proofs::Bits::has_missing))]
pub(crate) fn missing(a: u128, b: u128) -> u128
    ensures { (i : ℕ) → has_bit result i ≡ (has_bit a i && not (has_bit b i)) }
{
    a ^ (a & b)
}

/// The bits below a place.
fn below(place: u8) -> u128
    requires { place ≤ 128 }
    ensures { result ≡ 2 ^ place - 1 }
{
    if place < 128 {
        2u128.pow(u32::from(place)) - 1
    } else {
        u128::MAX
    }
}

/// The bits from one place to below another.
pub(crate) fn between(low: u8, high: u8) -> u128
    requires order { low ≤ high }
    requires narrow { high ≤ 128 }
    ensures { (i : ℕ) → has_bit result i ≡ (nat_le low i && nat_lt i high) }
{
    below(high) - below(low)
}

/// The lesser of two places, the second of which is narrow.
fn at_most(place: u128, width: u8) -> u8
    ensures { result ≡ min place width }
{
    if place < u128::from(width) {
        place as u8
    } else {
        width
    }
}

/// So many bits from a place on, of a signal of this width, where the lowest bit of the signal is number `low`.
pub(crate) fn part(place: Bound, low: u32, size: u8, width: u8) -> u128
    requires narrow { width ≤ 128 }
    requires small { IsTrue place.is_negative → place.magnitude ≤ 2 ^ 127 }
    ensures { (i : ℕ) → has_bit result i ≡ (nat_lt i width && is_among (bound_integer place -ℤ pos low) size i) }
{
    let low = u128::from(low);
    if place.is_negative {
        short(place.magnitude + low, size, width)
    } else if place.magnitude < low {
        short(low - place.magnitude, size, width)
    } else {
        long(place.magnitude - low, size, width)
    }
}

/// So many bits from a place on, of a signal of this width.
#[tactic(auto, using(crate::proofs::Bits::row_long))]
fn long(from: u128, size: u8, width: u8) -> u128
    requires { width ≤ 128 }
    ensures { (i : ℕ) → has_bit result i ≡ (nat_lt i width && (nat_le from i && nat_lt i (from + size))) }
{
    let start = at_most(from, width);
    let end = at_most(u128::from(start) + u128::from(size), width);
    between(start, end)
}

/// So many bits of a signal of this width, of which these many stand before its lowest bit.
#[tactic(auto, using(crate::proofs::Bits::row_short))]
fn short(before: u128, size: u8, width: u8) -> u128
    requires { width ≤ 128 }
    ensures { (i : ℕ) → has_bit result i ≡ (nat_lt i width && nat_lt (i + before) size) }
{
    let left = u128::from(size).saturating_sub(before);
    between(0, at_most(left, width))
}
