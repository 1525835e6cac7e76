//! Numbers of a width in two's complement.
ghost use Rattle.std.specs.Prelude.{◌≡◌, ℕ, ◌+◌, ◌-◌, ◌*◌, ◌/◌, ◌%◌, ◌^◌, ◌<◌, ◌≤◌, pos, int_lt, ◌-ℤ◌, neg_ℤ, IsTrue, nat_le};
ghost use Rattle.vlog_meaning.specs.Senses.{repeated};
ghost use Rattle.vlog_meaning.specs.Integers.{is_negative, integer, low_bits, extended, halved, window, parity, clog2};

use crate::shapes::Shape;

/// The greatest number of this width.
pub fn ones(width: u8) -> u128
    requires { width ≤ 128 }
    ensures { result ≡ 2 ^ width - 1 }
{
    if width < 128 {
        (1u128 << width) - 1
    } else {
        u128::MAX
    }
}

/// The number's low bits.
pub fn truncate(value: u128, width: u8) -> u128
    requires { width ≤ 128 }
    ensures { result ≡ value % 2 ^ width }
{
    value & ones(width)
}

/// Whether a number is negative at this width and sign.
pub fn is_negative(shape: Shape, value: u128) -> bool
    requires some { 1 ≤ shape.width }
    requires narrow { shape.width ≤ 128 }
    ensures { result ≡ is_negative shape value }
{
    shape.is_signed && value >= 1u128 << (shape.width - 1)
}

/// The number at another width, which is not less.
pub fn extend(shape: Shape, value: u128, width: u8) -> u128
    requires some { 1 ≤ shape.width }
    requires wide { shape.width ≤ width }
    requires narrow { width ≤ 128 }
    requires fits { value < 2 ^ shape.width }
    ensures value { result ≡ extended shape width value }
    ensures fits { result < 2 ^ width }
{
    if is_negative(shape, value) {
        value + (ones(width) - ones(shape.width))
    } else {
        value
    }
}

/// The number with the opposite sign.
pub fn negate(value: u128, width: u8) -> u128
    requires narrow { width ≤ 128 }
    requires fits { value < 2 ^ width }
    ensures { result ≡ low_bits width (neg_ℤ (pos value)) }
{
    if value == 0 {
        0
    } else {
        ones(width) - value + 1
    }
}

/// The difference of two numbers.
pub fn subtract(a: u128, b: u128, width: u8) -> u128
    requires narrow { width ≤ 128 }
    requires fits_a { a < 2 ^ width }
    requires fits_b { b < 2 ^ width }
    ensures { result ≡ low_bits width (pos a -ℤ pos b) }
{
    if b <= a {
        a - b
    } else {
        ones(width) - (b - a) + 1
    }
}

/// The number times 2^places.
pub fn shift_left(value: u128, places: u128, width: u8) -> u128
    requires { width ≤ 128 }
    ensures { result ≡ value * 2 ^ places % 2 ^ width }
{
    if places < u128::from(width) {
        truncate(value.wrapping_shl(places as u32), width)
    } else {
        0
    }
}

/// The number divided by 2^places, rounded down.
pub fn shift_right(value: u128, places: u128) -> u128
    ensures { result ≡ value / 2 ^ places }
{
    if places < 128 {
        value >> (places as u32)
    } else {
        0
    }
}

/// A number divided by 2^places, rounded down, by its sign.
pub fn shift_right_signed(shape: Shape, value: u128, places: u128) -> u128
    requires some { 1 ≤ shape.width }
    requires narrow { shape.width ≤ 128 }
    requires fits { value < 2 ^ shape.width }
    ensures { result ≡ low_bits shape.width (halved (integer shape value) places) }
{
    if is_negative(shape, value) {
        let top = ones(shape.width);
        top - shift_right(top - value, places)
    } else {
        shift_right(value, places)
    }
}

/// Whether one number is less than another.
pub fn less(shape: Shape, a: u128, b: u128) -> bool
    requires some { 1 ≤ shape.width }
    requires narrow { shape.width ≤ 128 }
    requires fits_a { a < 2 ^ shape.width }
    requires fits_b { b < 2 ^ shape.width }
    ensures { result ≡ int_lt (integer shape a) (integer shape b) }
{
    let is_a_negative = is_negative(shape, a);
    if is_a_negative == is_negative(shape, b) {
        a < b
    } else {
        is_a_negative
    }
}

/// Whether the number of 1 bits is odd, as a bit.
pub fn odd_ones(value: u128, width: u8) -> u128
    requires { width ≤ 128 }
    ensures { result ≡ parity width value }
{
    let mut rest = value;
    let mut odd = 0;
    for _ in 0..width {
        odd = (odd + rest % 2) % 2;
        rest /= 2;
    }
    odd
}

/// So many times the same bits.
pub fn repeated(count: u8, width: u8, value: u128) -> u128
    requires narrow { count * width ≤ 128 }
    requires fits { value < 2 ^ width }
    ensures value { result ≡ repeated count width value }
    ensures fits { result < 2 ^ (count * width) }
{
    let mut found = 0;
    for _ in 0..count {
        found = shift_left(found, u128::from(width), 128) + value;
    }
    found
}

/// The ceiling of the logarithm to base 2.
pub fn clog2(value: u128) -> u128
    ensures value { result ≡ clog2 value }
    ensures small { result ≤ 128 }
{
    let mut places = 0;
    while places < 128 && value > 2u128.pow(places) {
        places += 1;
    }
    u128::from(places)
}
