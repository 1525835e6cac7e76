//! The text that a line prints.
ghost use Rattle.std.specs.Prelude.{◌≡◌, IfOk, drop};
ghost use Rattle.report_values.specs.Fractions.{IsSmall};
ghost use Rattle.report_script.specs.Texts.{Prints, extended, first_value, format_text, left_behind, line_text};

use crate::evaluation::value_of;
use report_lines::{Expr, Format};
use report_values::{Fault, Fraction, push_two_places, push_whole, whole};
use std::alloc::{AllocError, Global};

/// Why a text stops.
#[derive(Clone, Copy, Debug, PartialEq, Eq)]
pub enum Stop {
    /// There is no value.
    Fault(Fault),
    /// There was no memory for it.
    Memory,
}

impl From<AllocError> for Stop {
    ghost use Rattle.report_script.specs.declared.line_text.Stop.TheVariants.{Memory};

    ghost from_gives = { λ _ e. e ≡ Memory };

    fn from(_: AllocError) -> Stop {
        Stop::Memory
    }
}

/// The first of these values.
fn first_value(counts: &[u32], values: &[Expr]) -> Result<Fraction, Fault>
    ensures exact { result ≡ first_value values.now counts.now }
    ensures small { IfOk result IsSmall }
{
    match values {
        [value, ..] => value_of(counts, value),
        [] => Ok(whole(0)),
    }
}

/// The values behind the first one.
fn behind_first(values: &[Expr]) -> &[Expr]
    ensures { result.now ≡ drop 1 values.now }
{
    match values {
        [_, more @ ..] => more,
        [] => values,
    }
}

/// The values that a format leaves.
fn left_behind(format: Format, values: &[Expr]) -> &[Expr]
    ensures { result.now ≡ left_behind format values.now }
{
    match format {
        Format::Byte(_) => values,
        Format::Whole => behind_first(values),
        Format::TwoPlaces => behind_first(values),
    }
}

/// Adds what a format prints of the first of these values.
fn push_format(
    text: &mut Vec<u8>,
    counts: &[u32],
    format: Format,
    values: &[Expr],
) -> Result<(), Stop>
    ensures { Prints result (extended text.old.items (format_text format values.now counts.now)) text.new.items }
{
    match format {
        Format::Byte(byte) => {
            text.extend_from_slice(&[byte])?;
            Ok(())
        }
        Format::Whole => match first_value(counts, values) {
            Ok(value) => {
                push_whole(text, value)?;
                Ok(())
            }
            Err(fault) => Err(Stop::Fault(fault)),
        },
        Format::TwoPlaces => match first_value(counts, values) {
            Ok(value) => {
                push_two_places(text, value)?;
                Ok(())
            }
            Err(fault) => Err(Stop::Fault(fault)),
        },
    }
}

/// Adds what formats print of values.
pub fn push_line(
    text: &mut Vec<u8>,
    counts: &[u32],
    formats: &[Format],
    values: &[Expr],
) -> Result<(), Stop>
    ensures { Prints result (extended text.old.items (line_text formats.now values.now counts.now)) text.new.items }
{
    let mut left = values;
    for format in formats {
        match push_format(text, counts, *format, left) {
            Ok(()) => left = left_behind(*format, left),
            Err(Stop::Fault(fault)) => return Err(Stop::Fault(fault)),
            Err(Stop::Memory) => return Err(Stop::Memory),
        }
    }
    Ok(())
}
