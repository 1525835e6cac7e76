//! The formats of a text: what each byte prints, and where values go.
ghost use Rattle.std.specs.Prelude.{◌≡◌, IfOk};
ghost use Rattle.report_lines.specs.Formats.{byte_step, formats_from, formats_of, is_between, making, takes_value, to, value_count, with_made};

use mcy_base::Items;
use std::alloc::{AllocError, Global};

/// What a byte or some bytes of a text print.
#[derive(Clone, Copy, Debug, PartialEq, Eq)]
pub enum Format {
    /// This byte.
    Byte(u8),
    /// `%d`: a value cut towards 0.
    Whole,
    /// `%.2f`: a value rounded to two places.
    TwoPlaces,
}

/// What stands of a format before a place in a text.
#[derive(Clone, Copy, Debug, PartialEq, Eq)]
pub enum Begun {
    Nothing,
    /// `%`
    Percent,
    /// `%.`
    Point,
    /// `%.2`
    Two,
}

/// What stands of a format behind a byte, and the format that the byte ends.
#[derive(Clone, Copy)]
pub struct Step {
    pub begun: Begun,
    pub made: Option<Format>,
}

/// A format goes on.
fn to(begun: Begun) -> Option<Step>
    ensures { result ≡ to begun }
{
    Some(Step { begun, made: None })
}

/// A format ends.
fn making(format: Format) -> Option<Step>
    ensures { result ≡ making format }
{
    Some(Step {
        begun: Begun::Nothing,
        made: Some(format),
    })
}

/// One byte more.
#[tactic(auto, unfolding(crate::specs::Formats::byte_step))]
fn byte_step(begun: Begun, byte: u8) -> Option<Step>
    ensures { result ≡ byte_step begun byte }
{
    match (begun, byte) {
        (Begun::Nothing, b'%') => to(Begun::Percent),
        (Begun::Nothing, _) => making(Format::Byte(byte)),
        (Begun::Percent, b'%') => making(Format::Byte(byte)),
        (Begun::Percent, b'd') => making(Format::Whole),
        (Begun::Percent, b'.') => to(Begun::Point),
        (Begun::Point, b'2') => to(Begun::Two),
        (Begun::Two, b'f') => making(Format::TwoPlaces),
        _ => None,
    }
}

/// Whether no format has begun.
fn is_between(begun: Begun) -> bool
    ensures { result ≡ is_between begun }
{
    matches!(begun, Begun::Nothing)
}

/// The formats with the one that a byte ends, if it ends one.
fn push_made(mut formats: Items<Format>, made: Option<Format>) -> Result<Items<Format>, AllocError>
    ensures { IfOk result (λ all. all ≡ with_made formats made) }
{
    if let Some(format) = made {
        formats.push(format)?;
    }
    Ok(formats)
}

/// The formats of a text, where it has no other.
pub fn formats(alloc: Global, text: &[u8]) -> Result<Option<Items<Format>>, AllocError>
    ensures { IfOk result (λ all. all ≡ formats_of text.now) }
{
    let mut formats = Items::from_vec(Vec::new(alloc));
    let mut begun = Begun::Nothing;
    for byte in text {
        let Some(step) = byte_step(begun, *byte) else {
            return Ok(None);
        };
        formats = push_made(formats, step.made)?;
        begun = step.begun;
    }
    if is_between(begun) {
        Ok(Some(formats))
    } else {
        Ok(None)
    }
}

/// Whether a format prints a value.
fn takes_value(format: Format) -> bool
    ensures { result ≡ takes_value format }
{
    match format {
        Format::Byte(_) => false,
        Format::Whole | Format::TwoPlaces => true,
    }
}

/// How many values formats take.
pub fn value_count(formats: &[Format]) -> usize
    ensures { result ≡ value_count formats.now }
{
    formats
        .iter()
        .filter(|format| takes_value(**format))
        .count()
}
