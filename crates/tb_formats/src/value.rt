//! Values as a format prints them.
ghost use Rattle.std.specs.Prelude.{◌≡◌, ◌<◌, ◌≤◌, ◌+◌, ◌^◌, ◌++◌, take, drop, length, IfOk};
ghost use Rattle.tb_formats.specs.Values.{in_base, printed};

use crate::decimal::{decimal_places, push_decimal};
use crate::digits::{push_digits, zeros_in_front};
use crate::form::{Form, Format};
use std::alloc::AllocError;
use vlog_meaning::Shape;

/// Adds a value of this width and sign to the text, as the format prints it (IEEE 1364-2005, 17.1.1.2 and 17.1.1.3). Where there is
/// no memory, a part of it may have been added.
pub fn push_value(
    text: &mut Vec<u8>,
    format: Format,
    shape: Shape,
    value: u128,
) -> Result<(), AllocError>
    requires some { 1 ≤ shape.width }
    requires narrow { shape.width ≤ 128 }
    requires fits { value < 2 ^ shape.width }
    ensures { IfOk result (λ _. text.new.items ≡ text.old.items ++ printed format shape value) }
{
    let padded = format.padded;
    match format.form {
        Form::Binary => push_in_base(text, 1, padded, shape.width, value),
        Form::Octal => push_in_base(text, 3, padded, shape.width, value),
        Form::Hexadecimal => push_in_base(text, 4, padded, shape.width, value),
        Form::Decimal => {
            let places = if padded { decimal_places(shape) } else { 0 };
            push_decimal(text, places, shape, value)
        }
        Form::Time => push_decimal(text, if padded { 20 } else { 0 }, shape, value),
        Form::Character => {
            text.push((value % 256) as u8)?;
            Ok(())
        }
    }
}

/// Adds the digits of so many bits: all of the width, or without the zeros in front.
fn push_in_base(
    text: &mut Vec<u8>,
    bits: u8,
    padded: bool,
    width: u8,
    value: u128,
) -> Result<(), AllocError>
    requires some { 1 ≤ width }
    requires narrow { width ≤ 128 }
    requires one { 1 ≤ bits }
    requires few { bits ≤ 4 }
    ensures { IfOk result (λ _. text.new.items ≡ text.old.items ++ in_base bits padded width value) }
{
    let start = text.len();
    push_digits(
        text,
        u32::from(bits),
        u32::from(width).div_ceil(u32::from(bits)),
        value,
    )?;
    if !padded {
        let zeros = zeros_in_front(&text[start..]);
        remove_at(text, start, zeros);
    }
    Ok(())
}

/// Takes `count` bytes away from the place `start` on.
fn remove_at(text: &mut Vec<u8>, start: usize, count: usize)
    requires { start + count ≤ length text.old.items }
    ensures { text.new.items ≡ take start text.old.items ++ drop (start + count) text.old.items }
{
    text.drain(start..start + count);
}
