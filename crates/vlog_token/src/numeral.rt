//! Numbers read from their texts (IEEE 1364-2005, 3.5.1).
ghost use Rattle.std.specs.Prelude.{◌≡◌, ◌<◌, ◌≤◌, ◌-◌, ◌%◌, ◌^◌, min, option_map};
ghost use Rattle.std.specs.List.{list_all};
ghost use Rattle.vlog_token.specs.Bytes.{is_decimal_part, is_digit_part};
ghost use Rattle.vlog_token.specs.Numbers.{base_number, decimal_number, decimal_value, digits_number, filled, is_digits, lettered_number, meaning, number_of, plane_digit, positional, value_digit, width_of};

use crate::bytes::{
    digit_value, is_decimal_part, is_digit, is_digit_part, is_sign, is_x, is_z, radix_of,
};
use crate::run::size_run;
use crate::value::Number;
use mcy_base::Word;

/// The first value that a decimal number has not.
const LIMIT: u64 = 1 << 32;

/// The value of a text that is a number of the profile, and of no other text.
pub fn number(text: &str) -> Option<Number>
    ensures { option_map meaning result ≡ number_of text.now }
{
    number_in(text.as_bytes())
}

/// The value of the number that the bytes are.
pub fn number_in(bytes: &[u8]) -> Option<Number>
    ensures { option_map meaning result ≡ number_of bytes.now }
{
    let (size, rest) = bytes.split_at(size_run(bytes));
    match rest {
        [_, base @ ..] => match width_in(size) {
            Some(width) => base_number(width, base),
            None => None,
        },
        [] => decimal_number(size),
    }
}

fn decimal_number(bytes: &[u8]) -> Option<Number>
    ensures { option_map meaning result ≡ decimal_number bytes.now }
{
    let value = decimal_value(bytes);
    if !is_digits(bytes) || value >= LIMIT {
        return None;
    }
    Some(Number {
        value: word(32, u128::from(value)),
        is_signed: true,
        x_bits: 0,
        z_bits: 0,
    })
}

/// The width that a size gives.
fn width_in(size: &[u8]) -> Option<u8>
    ensures { result ≡ width_of size.now }
{
    if size.is_empty() {
        return Some(32);
    }
    let value = decimal_value(size);
    if is_digits(size) && 1 <= value && value <= 128 {
        Some(value as u8)
    } else {
        None
    }
}

fn is_digits(bytes: &[u8]) -> bool
    ensures { result ≡ is_digits bytes.now }
{
    match bytes {
        [first, rest @ ..] => first.is_ascii_digit() && are_decimal_parts(rest),
        [] => false,
    }
}

fn are_decimal_parts(bytes: &[u8]) -> bool
    ensures { result ≡ list_all is_decimal_part bytes.now }
{
    bytes.iter().all(|b| is_decimal_part(*b))
}

/// The value of decimal digits, or the limit where it is the limit or more.
fn decimal_value(bytes: &[u8]) -> u64
    ensures { result ≡ min (decimal_value bytes.now) (2 ^ 32) }
{
    let mut value = 0;
    for b in bytes {
        if *b != b'_' {
            value = (value * 10 + u64::from(value_digit(10, *b))).min(LIMIT);
        }
    }
    value
}

/// The number of a base with its digits, in a width.
fn base_number(width: u8, bytes: &[u8]) -> Option<Number>
    requires some { 1 ≤ width }
    requires narrow { width ≤ 128 }
    ensures { option_map meaning result ≡ base_number bytes.now width }
{
    match bytes {
        [sign, rest @ ..] => {
            if is_sign(*sign) {
                lettered_number(width, true, rest)
            } else {
                lettered_number(width, false, bytes)
            }
        }
        [] => None,
    }
}

fn lettered_number(width: u8, is_signed: bool, bytes: &[u8]) -> Option<Number>
    requires some { 1 ≤ width }
    requires narrow { width ≤ 128 }
    ensures { option_map meaning result ≡ lettered_number width is_signed bytes.now }
{
    match bytes {
        [letter, digits @ ..] => match radix_of(*letter) {
            Some(radix) => digits_number(width, is_signed, radix, digits),
            None => None,
        },
        [] => None,
    }
}

fn digits_number(width: u8, is_signed: bool, radix: u8, digits: &[u8]) -> Option<Number>
    requires some { 1 ≤ width }
    requires narrow { width ≤ 128 }
    requires radix { 0 < radix }
    ensures { option_map meaning result ≡ digits_number width is_signed radix digits.now }
{
    match digits {
        [first, rest @ ..] => {
            if is_digit(radix, *first) && are_digit_parts(radix, rest) {
                let x_left = filled(is_x(*first), width);
                let z_left = filled(is_z(*first), width);
                Some(Number {
                    value: word(width, plane_bits(Plane::Value, width, radix, 0, digits)),
                    is_signed,
                    x_bits: plane_bits(Plane::X, width, radix, x_left, digits),
                    z_bits: plane_bits(Plane::Z, width, radix, z_left, digits),
                })
            } else {
                None
            }
        }
        [] => None,
    }
}

fn are_digit_parts(radix: u8, bytes: &[u8]) -> bool
    ensures { result ≡ list_all (is_digit_part radix) bytes.now }
{
    bytes.iter().all(|b| is_digit_part(radix, *b))
}

fn word(width: u8, bits: u128) -> Word
    requires some { 1 ≤ width }
    requires narrow { width ≤ 128 }
    requires fits { bits < 2 ^ width }
    ensures width { result.width ≡ width }
    ensures bits { result.bits ≡ bits }
{
    Word::new(width, bits).unwrap()
}

/// Ones in all bits of the width, where the leftmost digit is such, else zeros.
fn filled(is_such: bool, width: u8) -> u128
    requires { width ≤ 128 }
    ensures { result ≡ filled is_such width }
{
    if is_such { ones(width) } else { 0 }
}

fn ones(width: u8) -> u128
    requires { width ≤ 128 }
    ensures { result ≡ 2 ^ width - 1 }
{
    if width < 128 {
        (1u128 << width) - 1
    } else {
        u128::MAX
    }
}

/// What is read of each digit: its value, its x bits or its z bits.
#[derive(Clone, Copy, Debug)]
enum Plane {
    Value,
    X,
    Z,
}

fn value_digit(radix: u8, b: u8) -> u8
    ensures { result ≡ value_digit radix b }
{
    let digit = digit_value(b);
    if digit < radix { digit } else { 0 }
}

fn plane_digit(plane: Plane, radix: u8, b: u8) -> u8
    requires { 0 < radix }
    ensures { result ≡ plane_digit plane radix b }
{
    match plane {
        Plane::Value => value_digit(radix, b),
        Plane::X => if is_x(b) { radix - 1 } else { 0 },
        Plane::Z => if is_z(b) { radix - 1 } else { 0 },
    }
}

/// What is read of the digits, in positional notation with `left` at their left, cut to the width.
fn plane_bits(plane: Plane, width: u8, radix: u8, left: u128, digits: &[u8]) -> u128
    requires narrow { width ≤ 128 }
    requires radix { 0 < radix }
    ensures { result ≡ positional (plane_digit plane radix) radix left digits.now % 2 ^ width }
{
    let bits = wrapped(plane, radix, left, digits);
    if width < 128 {
        bits % (1u128 << width)
    } else {
        bits
    }
}

/// The same, cut to 128 bits.
fn wrapped(plane: Plane, radix: u8, left: u128, digits: &[u8]) -> u128
    requires { 0 < radix }
    ensures { result ≡ positional (plane_digit plane radix) radix left digits.now % 2 ^ 128 }
{
    let mut sum = left;
    for b in digits {
        if *b != b'_' {
            sum = sum
                .wrapping_mul(u128::from(radix))
                .wrapping_add(u128::from(plane_digit(plane, radix, *b)));
        }
    }
    sum
}
