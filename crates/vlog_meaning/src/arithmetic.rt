//! Division, remainder and power (IEEE 1364-2005, 5.1.5).
ghost use Rattle.std.specs.Prelude.{◌≡◌, ◌==◌, ◌<◌, ◌≤◌, ◌^◌, ◌%◌, ◌*◌, ℕ, pos, nat_abs, int_div, int_rem, if◌then◌else◌};
ghost use Rattle.vlog_meaning.specs.Integers.{integer, low_bits};
ghost use Rattle.vlog_meaning.specs.Operators.{IsSized, power};

use crate::integer::{is_negative, negate, ones, truncate};
use crate::shapes::Shape;

/// The number without its sign.
fn magnitude(shape: Shape, value: u128) -> u128
    requires sized { IsSized shape }
    requires fits { value < 2 ^ shape.width }
    ensures { result ≡ nat_abs (integer shape value) }
{
    if is_negative(shape, value) {
        ones(shape.width) - value + 1
    } else {
        value
    }
}

/// The quotient, cut towards 0, and 0 where the divisor is 0.
pub fn divide(shape: Shape, a: u128, b: u128) -> u128
    requires sized { IsSized shape }
    requires fits_a { a < 2 ^ shape.width }
    requires fits_b { b < 2 ^ shape.width }
    ensures { result ≡ if b == 0 then 0 else low_bits shape.width (int_div (integer shape a) (integer shape b)) }
{
    if b == 0 {
        return 0;
    }
    let quotient = magnitude(shape, a) / magnitude(shape, b);
    if is_negative(shape, a) == is_negative(shape, b) {
        truncate(quotient, shape.width)
    } else {
        negate(quotient, shape.width)
    }
}

/// The remainder, with the sign of the first operand, and 0 where the divisor is 0.
pub fn remainder(shape: Shape, a: u128, b: u128) -> u128
    requires sized { IsSized shape }
    requires fits_a { a < 2 ^ shape.width }
    requires fits_b { b < 2 ^ shape.width }
    ensures { result ≡ if b == 0 then 0 else low_bits shape.width (int_rem (integer shape a) (integer shape b)) }
{
    if b == 0 {
        return 0;
    }
    let rest = magnitude(shape, a) % magnitude(shape, b);
    if is_negative(shape, a) {
        negate(rest, shape.width)
    } else {
        rest
    }
}

/// The base to a power modulo 2^128.
fn wrapping_power(base: u128, exponent: u128) -> u128
    ensures { result ≡ base ^ exponent % 2 ^ 128 }
{
    let mut product: u128 = 1;
    let mut square = base;
    let mut left = exponent;
    while left > 0 {
        if left % 2 == 1 {
            product = product.wrapping_mul(square);
        }
        square = square.wrapping_mul(square);
        left /= 2;
    }
    product
}

/// `base ** exponent`.
pub fn power(shape: Shape, base: u128, sign: Shape, exponent: u128) -> u128
    requires sized { IsSized shape }
    requires sign { IsSized sign }
    requires fits { base < 2 ^ shape.width }
    ensures { result ≡ power shape base sign exponent }
{
    if !is_negative(sign, exponent) {
        return truncate(wrapping_power(base, exponent), shape.width);
    }
    let is_base_negative = is_negative(shape, base);
    if base == 1 && !is_base_negative {
        1
    } else if base == ones(shape.width) && is_base_negative {
        if exponent % 2 == 0 { 1 } else { base }
    } else {
        0
    }
}
