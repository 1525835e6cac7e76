//! The texts of fractions.
ghost use Rattle.std.specs.Prelude.{◌≡◌, ◌≤◌, ◌+◌, ◌*◌, ◌^◌, ◌++◌, IfOk};
ghost use Rattle.report_values.specs.Fractions.{IsSmall};
ghost use Rattle.report_values.specs.Texts.{nearest, places, sign_text, two_places_text, whole_text};

use crate::fraction::Fraction;
use itoa::Buffer;
use std::alloc::AllocError;

/// The whole number nearest to a quotient, and of two that are equally near the even one.
#[tactic(auto, unfolding(crate::specs::Texts::nearest))]
fn nearest(numerator: u64, denominator: u64) -> u64
    requires numerator { numerator ≤ 10 ^ 14 }
    requires positive { 1 ≤ denominator }
    requires denominator { denominator ≤ 10 ^ 12 }
    ensures { result ≡ nearest numerator denominator }
{
    let quotient = numerator / denominator;
    let twice = numerator % denominator * 2;
    if twice < denominator {
        quotient
    } else if denominator < twice {
        quotient + 1
    } else {
        quotient + quotient % 2
    }
}

/// Adds `-` where a number is negative.
fn push_sign(text: &mut Vec<u8>, negative: bool, size: u64) -> Result<(), AllocError>
    ensures { IfOk result (λ _. text.new.items ≡ text.old.items ++ sign_text negative size) }
{
    if negative && size != 0 {
        text.push(b'-')?;
    }
    Ok(())
}

/// Adds a number in base 10.
fn push_decimal(text: &mut Vec<u8>, number: u64) -> Result<(), AllocError>
    ensures { IfOk result (λ _. text.new.items ≡ text.old.items ++ Rattle.std.specs.Prelude.decimal number) }
{
    let mut buffer = Buffer::new();
    text.extend_from_slice(buffer.format(number).as_bytes())
}

/// Adds a point and the last two places.
fn push_places(text: &mut Vec<u8>, hundredths: u64) -> Result<(), AllocError>
    ensures { IfOk result (λ _. text.new.items ≡ text.old.items ++ places hundredths) }
{
    text.extend_from_slice(&[
        b'.',
        48 + (hundredths / 10 % 10) as u8,
        48 + (hundredths % 10) as u8,
    ])
}

/// Adds a fraction without its places, as `%d` prints it.
#[tactic(auto, unfolding(crate::specs::Texts::whole_text))]
pub fn push_whole(text: &mut Vec<u8>, value: Fraction) -> Result<(), AllocError>
    requires { IsSmall value }
    ensures { IfOk result (λ _. text.new.items ≡ text.old.items ++ whole_text value) }
{
    let size = value.numerator / value.denominator;
    push_sign(text, value.negative, size)?;
    push_decimal(text, size)
}

/// Adds a fraction rounded to two places, as `%.2f` prints it.
#[tactic(auto, unfolding(crate::specs::Texts::two_places_text))]
pub fn push_two_places(text: &mut Vec<u8>, value: Fraction) -> Result<(), AllocError>
    requires { IsSmall value }
    ensures { IfOk result (λ _. text.new.items ≡ text.old.items ++ two_places_text value) }
{
    let size = nearest(value.numerator * 100, value.denominator);
    push_sign(text, value.negative, size)?;
    push_decimal(text, size / 100)?;
    push_places(text, size)
}
