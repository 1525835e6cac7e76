//! A place in a file, as the file is now.
ghost use Rattle.std.specs.Prelude.{◌<◌, ◌^◌, length};

use crate::excerpt::{blanks_of, line_at, lines_of};
use crate::told::Spot;
use project_lines::{all_sections, tests_in, text_lines};
use std::alloc::{AllocError, Global};
use std::str::from_utf8;

/// A byte of a line: the number of the line, from 1, its bytes, and how many of them stand in front.
#[derive(Clone, Copy)]
pub(crate) struct Place<'a> {
    pub number: u32,
    pub line: &'a [u8],
    pub at: usize,
}

/// The number of the line of a project file in which the section of this test, from 0, begins.
#[tactic(auto, using(project_lines::proofs::Few::few_lines))]
fn test_line(alloc: Global, source: &[u8], test: u32) -> Result<Option<u32>, AllocError>
    requires { length source.now < 2 ^ 31 }
{
    let Ok(text) = from_utf8(source) else {
        return Ok(None);
    };
    let lines = text_lines(alloc, text)?;
    let sections = all_sections(alloc, &lines)?;
    let tests = tests_in(alloc, &sections)?;
    match tests.get(test as usize) {
        Some(section) => Ok(Some(section.number)),
        None => Ok(None),
    }
}

/// The number of a spot's line in its file, and that of its byte there, both from 1. Where no byte is told it is the line's first word.
fn numbers_of(
    alloc: Global,
    source: &[u8],
    spot: Spot,
) -> Result<Option<(u32, Option<u32>)>, AllocError>
    requires { length source.now < 2 ^ 31 }
{
    let line = match spot {
        Spot::Nowhere => None,
        Spot::Source(span) => return Ok(Some((span.line, Some(span.col)))),
        Spot::Line(number) => Some(number),
        Spot::Test(test) => test_line(alloc, source, test)?,
    };
    Ok(line.map(|number| (number, None)))
}

/// How many bytes of the line stand in front of this one, from 1, or of its first word.
fn front_of(line: &[u8], col: Option<u32>) -> usize {
    match col {
        Some(col) => (col as usize).saturating_sub(1),
        None => blanks_of(line),
    }
}

/// The place that a spot is in its file, where the file has it.
pub(crate) fn place_of(
    alloc: Global,
    source: &[u8],
    spot: Spot,
) -> Result<Option<Place<'_>>, AllocError>
    requires { length source.now < 2 ^ 31 }
{
    let Some((number, col)) = numbers_of(alloc, source, spot)? else {
        return Ok(None);
    };
    let lines = lines_of(alloc, source)?;
    match line_at(&lines, number) {
        None => Ok(None),
        Some(line) => Ok(Some(Place {
            number,
            line,
            at: front_of(line, col),
        })),
    }
}
