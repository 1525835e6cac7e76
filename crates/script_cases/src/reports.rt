//! What a report prints for some counts of its tags, or why it is refused. The tags are `COVERED`, `UNCOVERED` and `COVERED`.
use crate::texts::{lines, texts};
use anyhow::Result;
use report_script::{Report, read_report, report_text};
use std::alloc::{AllocError, Global};
use tag_script::ScriptError;

/// Adds bytes with `^` for each newline.
fn push_shown(told: &mut String, bytes: &[u8]) -> Result<(), AllocError> {
    for byte in bytes {
        told.push(match *byte {
            b'\n' => '^',
            byte => char::from(byte),
        })?;
    }
    Ok(())
}

/// Adds what a report prints for these counts.
fn push_printed(
    alloc: Global,
    told: &mut String,
    report: &Report,
    counts: &[u32],
) -> Result<(), AllocError> {
    let text = report_text(alloc, report, counts)?;
    push_shown(told, text.as_slice())
}

/// Adds what a report prints for some counts.
fn push_all(alloc: Global, told: &mut String, report: &Report) -> Result<(), AllocError> {
    push_printed(alloc, told, report, &[2, 1, 9])?;
    told.push_str(" | ")?;
    push_printed(alloc, told, report, &[0, 0, 9])?;
    told.push_str(" | ")?;
    push_printed(alloc, told, report, &[7, 4_000_000_000, 9])
}

/// What a report prints for some counts.
fn told(alloc: Global, report: &Report) -> Result<String, AllocError> {
    let mut told = String::new(alloc);
    push_all(alloc, &mut told, report)?;
    Ok(told)
}

/// Prints what a report prints for some counts.
fn tell_told<R: Print + AllocGlobal>(rt: &R, report: &Report) -> Result<()> {
    let told = told(rt.alloc(), report)?;
    Ok(println!(rt; "{}", told.as_str())?)
}

/// Prints what a report prints, or why it is refused.
fn tell_read<R: Print + AllocGlobal>(rt: &R, read: &Result<Report, ScriptError>) -> Result<()> {
    match read {
        Ok(report) => tell_told(rt, report),
        Err(fault) => Ok(println!(rt; "{fault:?}")?),
    }
}

/// The report of a text.
fn read(alloc: Global, text: &str) -> Result<Result<Report, ScriptError>, AllocError> {
    let lines = lines(alloc, text)?;
    let tags = texts(alloc, &["COVERED", "UNCOVERED", "COVERED"])?;
    Ok(read_report(alloc, &lines, &tags))
}

/// Prints what a report is.
pub(crate) fn tell_report<R: Print + AllocGlobal>(rt: &R, text: &str) -> Result<()> {
    let read = read(rt.alloc(), text)?;
    tell_read(rt, &read)
}
