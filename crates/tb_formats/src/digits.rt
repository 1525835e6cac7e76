//! Numbers in the bases 2, 8 and 16.
ghost use Rattle.std.specs.Prelude.{◌≡◌, ◌<◌, ◌≤◌, ◌+◌, ◌*◌, ◌/◌, ◌%◌, ◌^◌, ◌++◌, false, drop, length, IfOk};
ghost use Rattle.std.specs.Fmt.{digit_glyph};
ghost use Rattle.tb_formats.specs.Digits.{lowest_digits, significant};

use std::alloc::AllocError;

/// The character of a digit below 16.
fn glyph(digit: u8) -> u8
    requires { digit < 16 }
    ensures { result ≡ digit_glyph false digit }
{
    if digit < 10 {
        b'0' + digit
    } else {
        b'a' + (digit - 10)
    }
}

/// The digit of a number that has so many digits behind it, each of so many bits.
fn digit_at(bits: u32, place: u32, value: u128) -> u8
    requires some { 1 ≤ bits }
    requires few { bits ≤ 4 }
    requires within { bits * place < 128 }
    ensures digit { result ≡ value / 2 ^ (bits * place) % 2 ^ bits }
    ensures small { result < 16 }
{
    ((value >> (bits * place)) % 2u128.pow(bits)) as u8
}

/// Adds the lowest `count` digits of a number, of `bits` bits each, the highest first.
pub(crate) fn push_digits(
    text: &mut Vec<u8>,
    bits: u32,
    count: u32,
    value: u128,
) -> Result<(), AllocError>
    requires some { 1 ≤ bits }
    requires few { bits ≤ 4 }
    requires within { bits * count < 128 + bits }
    ensures { IfOk result (λ _. text.new.items ≡ text.old.items ++ lowest_digits count (2 ^ bits) value) }
{
    let mut left = count;
    while left > 0 {
        left -= 1;
        text.push(glyph(digit_at(bits, left, value)))?;
    }
    Ok(())
}

/// How many zeros stand in front of a number's digits; its last digit is none of them.
pub(crate) fn zeros_in_front(digits: &[u8]) -> usize
    ensures within { result ≤ length digits.now }
    ensures rest { drop result digits.now ≡ significant digits.now }
{
    let mut zeros = 0;
    while zeros + 1 < digits.len() && digits[zeros] == b'0' {
        zeros += 1;
    }
    zeros
}
