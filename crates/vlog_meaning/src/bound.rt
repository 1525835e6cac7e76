//! Bounds of selects and counts: integers.
ghost use Rattle.std.specs.Prelude.{◌≡◌, ◌+◌, ◌-◌, ◌≤◌, ◌<◌, ◌^◌, pos, ◌-ℤ◌, int_lt, nat_le, IsTrue};
ghost use Rattle.vlog_meaning.specs.Integers.{integer, natural, window, bound_integer};
ghost use Rattle.vlog_meaning.specs.Operators.{IsSized};
ghost use Rattle.vlog_meaning.specs.Senses.{part_width};

use crate::integer::{is_negative, ones, shift_left, shift_right, truncate};
use crate::shapes::Shape;

/// An integer, by its sign and its size.
#[derive(Clone, Copy, Debug, PartialEq, Eq)]
pub struct Bound {
    pub is_negative: bool,
    pub magnitude: u128,
}

impl Bound {
    /// The integer that a number stands for.
    pub fn of(shape: Shape, value: u128) -> Bound
        requires sized { IsSized shape }
        requires fits { value < 2 ^ shape.width }
        ensures value { bound_integer result ≡ integer shape value }
        ensures small { IsTrue result.is_negative → result.magnitude ≤ 2 ^ 127 }
    {
        if is_negative(shape, value) {
            Bound {
                is_negative: true,
                magnitude: ones(shape.width) - value + 1,
            }
        } else {
            Bound {
                is_negative: false,
                magnitude: value,
            }
        }
    }
}

/// The count that a number stands for, 0 where it is negative.
pub fn count(shape: Shape, value: u128) -> u128
    requires sized { IsSized shape }
    requires fits { value < 2 ^ shape.width }
    ensures { result ≡ natural (integer shape value) }
{
    if is_negative(shape, value) { 0 } else { value }
}

/// The width of a part select.
pub fn part_width(msb: Bound, lsb: Bound) -> u8
    requires narrow { part_width (bound_integer msb) (bound_integer lsb) ≤ 128 }
    ensures { result ≡ part_width (bound_integer msb) (bound_integer lsb) }
{
    match (msb.is_negative, lsb.is_negative) {
        (false, false) => inclusive(lsb.magnitude, msb.magnitude) as u8,
        (false, true) => (msb.magnitude + lsb.magnitude + 1) as u8,
        (true, false) => {
            if msb.magnitude == 0 && lsb.magnitude == 0 {
                1
            } else {
                0
            }
        }
        (true, true) => inclusive(msb.magnitude, lsb.magnitude) as u8,
    }
}

/// Whether a part select has its left bound below its right one.
pub fn is_below(msb: Bound, lsb: Bound) -> bool
    ensures { result ≡ int_lt (bound_integer msb) (bound_integer lsb) }
{
    match (msb.is_negative, lsb.is_negative) {
        (false, false) => msb.magnitude < lsb.magnitude,
        (false, true) => false,
        (true, false) => msb.magnitude != 0 || lsb.magnitude != 0,
        (true, true) => msb.magnitude > lsb.magnitude,
    }
}

/// Whether a part select has at most 128 bits.
pub fn is_narrow(msb: Bound, lsb: Bound) -> bool
    ensures { result ≡ nat_le (part_width (bound_integer msb) (bound_integer lsb)) 128 }
{
    match (msb.is_negative, lsb.is_negative) {
        (false, false) => msb.magnitude < lsb.magnitude || msb.magnitude - lsb.magnitude < 128,
        (false, true) => msb.magnitude.saturating_add(lsb.magnitude) < 128,
        (true, false) => true,
        (true, true) => lsb.magnitude < msb.magnitude || lsb.magnitude - msb.magnitude < 128,
    }
}

/// How many numbers there are from one to another, at most 2^128 - 1.
fn inclusive(from: u128, to: u128) -> u128
    requires { to + 1 - from < 2 ^ 128 }
    ensures { result ≡ to + 1 - from }
{
    if from <= to { to - from + 1 } else { 0 }
}

/// The bits from a place on, where the lowest bit of `value` is number `low`.
pub fn window(value: u128, place: Bound, low: u32, width: u8) -> u128
    requires narrow { width ≤ 128 }
    requires small { IsTrue place.is_negative → place.magnitude ≤ 2 ^ 127 }
    ensures { result ≡ window (bound_integer place -ℤ pos low) width value }
{
    let low = u128::from(low);
    if place.is_negative {
        shift_left(value, place.magnitude + low, width)
    } else if place.magnitude < low {
        shift_left(value, low - place.magnitude, width)
    } else {
        truncate(shift_right(value, place.magnitude - low), width)
    }
}
