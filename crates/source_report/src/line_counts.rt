//! How many mutations the lines of a file have, and on how many of them the script ended with each tag.
ghost use Rattle.std.specs.Prelude.{◌≡◌, ℕ, ◌+◌, ◌-◌, ◌<◌, ◌^◌, All, IfOk, IfSome, MatchOption, Some, false, true, length, map, slice_get, slice_index, vec_len};
ghost use Rattle.result_book.specs.Campaigns.{IsFit};
ghost use Rattle.result_book.specs.Rows.{groups};
ghost use Rattle.result_book.specs.States.{IsStateOf};
ghost use Rattle.source_report.specs.Sources.{counted, is_at, is_counted, is_wanted, AreCounted, AreLineCounts};

use crate::counts::{End, mutation_count};
use crate::status::tag_bit;
use result_book::{Campaign, State};
use std::alloc::{AllocError, Global};
use tag_script::Ask;

/// The counts of the lines of a file, each list from the first line on.
#[derive(Drop)]
pub(crate) struct LineCounts {
    pub(crate) mutations: Vec<u32>,
    /// A list for each tag.
    pub(crate) tags: Vec<Vec<u32>>,
}

/// Whether a script that stands so ended in the wanted way, which is any where none is given.
fn is_wanted(wanted: Option<End>, ask: Ask) -> bool
    ensures { result ≡ is_wanted wanted ask }
{
    match wanted {
        None => true,
        Some(end) => end.is_of(ask),
    }
}

/// The place of a mutation.
fn place_of(campaign: &Campaign, mutation: u32) -> (u16, u32)
    requires { mutation < length campaign.now.lines }
    ensures { slice_get campaign.now.lines mutation ≡ Some result }
{
    campaign.lines.as_slice()[mutation as usize]
}

/// The line that the place is, counted from 0, if it is one of these first lines of the file.
fn row_of(place: (u16, u32), file: usize, lines: usize) -> Option<usize>
    ensures within { MatchOption result ((row : ℕ) → row < lines → is_at file (row + 1) place ≡ false) (λ row. row < lines) }
    ensures at { IfSome result (λ row. is_at file (row + 1) place ≡ true) }
{
    let line = place.1 as usize;
    if usize::from(place.0) == file && line > 0 && line <= lines {
        Some(line - 1)
    } else {
        None
    }
}

/// The line of a mutation, counted from 0, if it is one of these first lines and the script ended in the wanted way.
fn wanted_row(
    place: (u16, u32),
    ask: Ask,
    file: usize,
    lines: usize,
    wanted: Option<End>,
) -> Option<usize>
    ensures within { MatchOption result ((row : ℕ) → row < lines → is_counted file wanted row (place, ask) ≡ false) (λ row. row < lines) }
    ensures at { IfSome result (λ row. is_counted file wanted row (place, ask) ≡ true) }
{
    if is_wanted(wanted, ask) {
        row_of(place, file, lines)
    } else {
        None
    }
}

/// Counts one more on a line, if one is given.
fn count_one(counts: &mut Vec<u32>, row: Option<usize>)
    requires within { IfSome row (λ row. row < vec_len counts.old) }
    requires few { IfSome row (λ row. slice_index counts.old.items row < 2 ^ 32 - 1) }
    ensures { counts.new.items ≡ counted row counts.old.items }
{
    if let Some(row) = row {
        counts[row] += 1;
    }
}

/// For each line of a file, on how many of its mutations the script ended in the wanted way.
fn counts_of(
    alloc: Global,
    campaign: &Campaign,
    state: &State,
    file: usize,
    lines: usize,
    wanted: Option<End>,
) -> Result<Vec<u32>, AllocError>
    requires fit { IsFit campaign.now }
    requires state { IsStateOf campaign.now state.now.rows state.now }
    ensures { IfOk result (λ counts. AreCounted campaign.now (groups campaign.now state.now.rows) file lines wanted counts.items) }
{
    let mut counts = vec![in alloc; 0; lines]?;
    for mutation in 0..mutation_count(campaign, state) {
        let place = place_of(campaign, mutation);
        let row = wanted_row(place, state.ask_of(mutation), file, lines, wanted);
        count_one(&mut counts, row);
    }
    Ok(counts)
}

impl LineCounts {
    /// The counts of so many lines of a file.
    pub(crate) fn of(
        alloc: Global,
        campaign: &Campaign,
        state: &State,
        file: usize,
        lines: usize,
    ) -> Result<LineCounts, AllocError>
        requires fit { IsFit campaign.now }
        requires state { IsStateOf campaign.now state.now.rows state.now }
        ensures { IfOk result (AreLineCounts campaign.now (groups campaign.now state.now.rows) file lines) }
    {
        let mutations = counts_of(alloc, campaign, state, file, lines, None)?;
        let mut tags = Vec::new(alloc);
        for tag in 0..campaign.tags.as_slice().len() {
            let end = End::Tag(tag_bit(tag));
            tags.push(counts_of(alloc, campaign, state, file, lines, Some(end))?)?;
        }
        Ok(LineCounts { mutations, tags })
    }

    /// The counts of the tags on a line.
    pub(crate) fn of_row(&self, alloc: Global, row: usize) -> Result<Vec<u32>, AllocError>
        requires { All (λ counts. row < vec_len counts) self.now.tags.items }
        ensures { IfOk result (λ counts. counts.items ≡ map (λ counts. slice_index counts.items row) self.now.tags.items) }
    {
        let mut counts = Vec::new(alloc);
        for column in &self.tags {
            counts.push(column[row])?;
        }
        Ok(counts)
    }
}
