//! The design's files, line by line, with the counts of each line's mutations.
ghost use Rattle.std.specs.Prelude.{◌≡◌, ◌+◌, ◌<◌, ◌^◌, ◌++◌, IfOk, OnOk, replicate, string_bytes};
ghost use Rattle.result_book.specs.Campaigns.{IsFit};
ghost use Rattle.result_book.specs.Rows.{groups};
ghost use Rattle.result_book.specs.States.{IsStateOf};
ghost use Rattle.source_report.specs.Sources as sources;

use crate::file_lines::{line_at, parts_of};
use crate::line_counts::LineCounts;
use crate::list::add;
use mcy_base::{Bytes, FileList, SourceFile, TextList};
use result_book::{Campaign, State};
use std::alloc::{AllocError, Global};

/// The columns of a line's number, and those of a count.
const NUMBER_WIDTH: usize = 5;

const COUNT_WIDTH: usize = 6;

/// The files of a design, in the order of reading: for each its name and the names of the tags, and then its lines, each with
/// its number and, for each tag, on how many of its mutations the script ended with it. A line without mutations has points.
pub fn source_text(
    alloc: Global,
    campaign: &Campaign,
    state: &State,
    files: &FileList,
) -> Result<Bytes, AllocError>
    requires fit { IsFit campaign.now }
    requires state { IsStateOf campaign.now state.now.rows state.now }
    ensures { IfOk result (λ text. text ≡ sources.source_text campaign.now state.now.rows files.now) }
{
    let mut text = Vec::new(alloc);
    for (number, file) in files.as_slice().iter().enumerate() {
        add_file(alloc, &mut text, campaign, state, number, file)?;
    }
    Ok(Bytes::from_vec(text))
}

/// Adds the text of a file.
fn add_file(
    alloc: Global,
    text: &mut Vec<u8>,
    campaign: &Campaign,
    state: &State,
    number: usize,
    file: &SourceFile,
) -> Result<(), AllocError>
    requires fit { IsFit campaign.now }
    requires state { IsStateOf campaign.now state.now.rows state.now }
    ensures { OnOk result (text.new.items ≡ text.old.items ++ sources.file_text campaign.now (groups campaign.now state.now.rows) number file.now) }
{
    add_head(text, &campaign.tags, file.name.as_str().as_bytes())?;
    let parts = parts_of(alloc, file.bytes.as_slice())?;
    let counts = LineCounts::of(alloc, campaign, state, number, parts.len())?;
    for row in 0..parts.len() {
        if let Some(line) = line_at(&parts, row) {
            let tags = counts.of_row(alloc, row)?;
            add_line(alloc, text, row, counts.mutations[row], &tags, line)?;
        }
    }
    Ok(())
}

/// Adds what stands before the lines of a file of this name.
fn add_head(text: &mut Vec<u8>, tags: &TextList, name: &[u8]) -> Result<(), AllocError>
    ensures { OnOk result (text.new.items ≡ text.old.items ++ sources.head_text tags.now name.now) }
{
    add(text, b"File: ")?;
    add(text, name)?;
    add(text, b"\nColumns:")?;
    add_names(text, tags)?;
    add(text, b"\n")
}

/// Adds the names of the tags.
fn add_names(text: &mut Vec<u8>, tags: &TextList) -> Result<(), AllocError>
    ensures { OnOk result (text.new.items ≡ text.old.items ++ sources.tag_names tags.now) }
{
    for name in tags.as_slice() {
        add(text, b" ")?;
        add(text, name.as_str().as_bytes())?;
    }
    Ok(())
}

/// Adds a line, which is counted from 0, with how many mutations it has and the counts of their tags.
fn add_line(
    alloc: Global,
    text: &mut Vec<u8>,
    row: usize,
    mutations: u32,
    counts: &[u32],
    line: &[u8],
) -> Result<(), AllocError>
    requires { row < 2 ^ 63 }
    ensures { OnOk result (text.new.items ≡ text.old.items ++ sources.line_text (row + 1) mutations counts.now line.now) }
{
    let number = format!(in alloc; "{}", row + 1)?;
    add_aligned(text, NUMBER_WIDTH, number.as_bytes())?;
    add_columns(alloc, text, mutations, counts)?;
    add(text, b" | ")?;
    add(text, line)?;
    add(text, b"\n")
}

/// Adds a column for each count, of a line with so many mutations.
fn add_columns(
    alloc: Global,
    text: &mut Vec<u8>,
    mutations: u32,
    counts: &[u32],
) -> Result<(), AllocError>
    ensures { OnOk result (text.new.items ≡ text.old.items ++ sources.columns mutations counts.now) }
{
    for count in counts {
        let told = count_text(alloc, mutations, *count)?;
        add(text, b" ")?;
        add_aligned(text, COUNT_WIDTH, told.as_bytes())?;
    }
    Ok(())
}

/// A count of a line with so many mutations.
fn count_text(alloc: Global, mutations: u32, count: u32) -> Result<String, AllocError>
    ensures { IfOk result (λ told. string_bytes told ≡ sources.count_text mutations count) }
{
    if mutations == 0 {
        ".".to_owned(alloc)
    } else {
        format!(in alloc; "{count}")
    }
}

/// Adds a text in so many columns, behind blanks.
fn add_aligned(text: &mut Vec<u8>, width: usize, told: &[u8]) -> Result<(), AllocError>
    ensures { OnOk result (text.new.items ≡ text.old.items ++ sources.aligned width told.now) }
{
    add_blanks(text, width.saturating_sub(told.len()))?;
    add(text, told)
}

/// Adds so many blanks.
fn add_blanks(text: &mut Vec<u8>, count: usize) -> Result<(), AllocError>
    ensures { OnOk result (text.new.items ≡ text.old.items ++ replicate count 32) }
{
    let mut left = count;
    while left > 0 {
        text.push(b' ')?;
        left -= 1;
    }
    Ok(())
}
