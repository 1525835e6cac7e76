//! Numbers in base 10, right-aligned.
ghost use Rattle.std.specs.Prelude.{◌≡◌, ◌<◌, ◌≤◌, ◌-◌, ◌^◌, ◌++◌, length, replicate, IfOk};
ghost use Rattle.std.specs.Fmt.{signed_decimal};
ghost use Rattle.vlog_meaning.specs.Integers.{integer};
ghost use Rattle.tb_formats.specs.Values.{aligned, decimal_places};

use itoa::Buffer;
use std::alloc::AllocError;
use vlog_meaning::Shape;

/// Whether the number is negative at its width and sign.
fn is_negative(shape: Shape, value: u128) -> bool
    requires some { 1 ≤ shape.width }
    requires narrow { shape.width ≤ 128 }
    ensures { result ≡ Rattle.vlog_meaning.specs.Integers.is_negative shape value }
{
    shape.is_signed && value >= 2u128.pow(u32::from(shape.width - 1))
}

/// The greatest number of this width.
fn greatest(width: u8) -> u128
    requires some { 1 ≤ width }
    requires narrow { width ≤ 128 }
    ensures { result ≡ 2 ^ width - 1 }
{
    if width < 128 {
        2u128.pow(u32::from(width)) - 1
    } else {
        u128::MAX
    }
}

/// The places of a padded decimal: the digits of the greatest number of the width, and one place for a sign.
pub(crate) fn decimal_places(shape: Shape) -> usize
    requires some { 1 ≤ shape.width }
    requires narrow { shape.width ≤ 128 }
    ensures { result ≡ decimal_places shape }
{
    let mut buffer = Buffer::new();
    buffer.format(greatest(shape.width)).len() + usize::from(shape.is_signed)
}

/// Adds so many spaces.
fn push_spaces(text: &mut Vec<u8>, count: usize) -> Result<(), AllocError>
    ensures { IfOk result (λ _. text.new.items ≡ text.old.items ++ replicate count 32) }
{
    for _ in 0..count {
        text.push(b' ')?;
    }
    Ok(())
}

/// Adds the number in base 10, right-aligned in so many places.
pub(crate) fn push_decimal(
    text: &mut Vec<u8>,
    places: usize,
    shape: Shape,
    value: u128,
) -> Result<(), AllocError>
    requires some { 1 ≤ shape.width }
    requires narrow { shape.width ≤ 128 }
    requires fits { value < 2 ^ shape.width }
    ensures { IfOk result (λ _. text.new.items ≡ text.old.items ++ aligned places (signed_decimal (integer shape value))) }
{
    let mut buffer = Buffer::new();
    if is_negative(shape, value) {
        let digits = buffer.format(greatest(shape.width) - value + 1);
        push_spaces(text, places.saturating_sub(digits.len() + 1))?;
        text.push(b'-')?;
        text.extend_from_slice(digits.as_bytes())
    } else {
        let digits = buffer.format(value);
        push_spaces(text, places.saturating_sub(digits.len()))?;
        text.extend_from_slice(digits.as_bytes())
    }
}
