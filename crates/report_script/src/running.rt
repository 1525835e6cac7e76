//! The text of a report for counts of tags.
ghost use Rattle.std.specs.Prelude.{◌≡◌, ◌<◌, ◌++◌, IfErr, IfOk, IfSome, length, map};
ghost use Rattle.report_script.specs.Running.{Picks, StopsAt};
ghost use Rattle.report_script.specs.Texts.{after, doing, fault_text, in_turn, last_line, line_printed, line_text, report_text, text_of};

use crate::evaluation::value_of;
use crate::line_text::{Stop, push_line};
use crate::report::{Arm, Report, Statement};
use itoa::Buffer;
use mcy_base::Bytes;
use report_lines::{Expr, Format};
use report_values::{Fault, is_true};
use std::alloc::{AllocError, Global};

/// The line where a report ended before its time, and why.
#[derive(Clone, Copy, Debug, PartialEq, Eq)]
pub struct Stopped {
    pub line: u32,
    pub fault: Fault,
}

/// The place of the first arm whose condition is true, if there is one.
fn picked(counts: &[u32], arms: &[Arm]) -> Result<Option<usize>, Stopped>
    ensures found { IfOk result (λ found. Picks counts.now arms.now found) }
    ensures inside { IfOk result (λ found. IfSome found (λ place. place < length arms.now)) }
    ensures stopped { IfErr result (λ s. StopsAt counts.now arms.now s) }
{
    for (i, arm) in arms.iter().enumerate() {
        match value_of(counts, &arm.condition) {
            Ok(value) => {
                if is_true(value) {
                    return Ok(Some(i));
                }
            }
            Err(fault) => {
                return Err(Stopped {
                    line: arm.line,
                    fault,
                });
            }
        }
    }
    Ok(None)
}

/// Adds a line that is printed.
fn print(
    alloc: Global,
    text: &mut Vec<u8>,
    counts: &[u32],
    line: u32,
    formats: &[Format],
    values: &[Expr],
) -> Result<Option<Stopped>, AllocError>
    ensures { IfOk result (λ ended. record { text = text.new.items; ended = ended } ≡ after text.old.items (line_printed line (line_text formats.now values.now counts.now))) }
{
    let mut printed = Vec::new(alloc);
    match push_line(&mut printed, counts, formats, values) {
        Ok(()) => {
            printed.push(b'\n')?;
            text.extend_from_slice(printed.as_slice())?;
            Ok(None)
        }
        Err(Stop::Fault(fault)) => Ok(Some(Stopped { line, fault })),
        Err(Stop::Memory) => Err(AllocError),
    }
}

/// Adds what a statement prints, and tells whether the report ends with it before its time.
#[cycle(doing)]
fn doing(
    alloc: Global,
    text: &mut Vec<u8>,
    counts: &[u32],
    statement: &Statement,
) -> Result<Option<Stopped>, AllocError>
    ensures { IfOk result (λ ended. record { text = text.new.items; ended = ended } ≡ after text.old.items (doing statement.now counts.now)) }
{
    match statement {
        Statement::Print(line, formats, values) => print(
            alloc,
            text,
            counts,
            *line,
            formats.as_slice(),
            values.as_slice(),
        ),
        Statement::If(arms, other) => {
            let arms = arms.as_slice();
            match picked(counts, arms) {
                Ok(Some(place)) => in_turn(alloc, text, counts, arms[place].body.as_slice()),
                Ok(None) => in_turn(alloc, text, counts, other.as_slice()),
                Err(stopped) => Ok(Some(stopped)),
            }
        }
    }
}

/// Adds what statements print one after the other.
#[cycle(doing)]
fn in_turn(
    alloc: Global,
    text: &mut Vec<u8>,
    counts: &[u32],
    statements: &[Statement],
) -> Result<Option<Stopped>, AllocError>
    ensures { IfOk result (λ ended. record { text = text.new.items; ended = ended } ≡ after text.old.items (in_turn (map doing statements.now) counts.now)) }
{
    for statement in statements {
        if let Some(stopped) = doing(alloc, text, counts, statement)? {
            return Ok(Some(stopped));
        }
    }
    Ok(None)
}

fn fault_text(fault: Fault) -> &'static str
    ensures { result.now ≡ fault_text fault }
{
    match fault {
        Fault::OutOfRange => ": value out of range",
        Fault::DivisionByZero => ": division by zero",
    }
}

/// Adds the last line of a report that ended before its time.
#[tactic(auto, unfolding(crate::specs::Texts::last_line))]
fn push_last_line(text: &mut Vec<u8>, ended: Option<Stopped>) -> Result<(), AllocError>
    ensures { IfOk result (λ _. text.new.items ≡ text.old.items ++ last_line ended) }
{
    let Some(stopped) = ended else {
        return Ok(());
    };
    let mut buffer = Buffer::new();
    text.extend_from_slice(b"report stopped at line ")?;
    text.extend_from_slice(buffer.format(stopped.line).as_bytes())?;
    text.extend_from_slice(fault_text(stopped.fault).as_bytes())?;
    text.push(b'\n')?;
    Ok(())
}

/// The text of a report, where the tags have these counts.
///
/// Where a value is out of range or a division is by zero, the report ends with a line that says so, and nothing of the line that it
/// was printed on.
#[tactic(auto, unfolding(crate::specs::Texts::report_text, crate::specs::Texts::text_of))]
pub fn report_text(alloc: Global, report: &Report, counts: &[u32]) -> Result<Bytes, AllocError>
    ensures { IfOk result (λ text. text ≡ report_text report.now counts.now) }
{
    let mut text = Vec::new(alloc);
    let ended = in_turn(alloc, &mut text, counts, report.statements.as_slice())?;
    push_last_line(&mut text, ended)?;
    Ok(Bytes::from_vec(text))
}
