//! Prints made projects and summaries.
//!
//! A line is `files SEED CELLS`, and all files of the project are printed, each behind its name; or `summary SEED CELLS SITES TEXT`,
//! where `~` in the text stands for a newline. The lines and what has to be printed come from `tests/demos.py`.
#![tactic(auto)]

use anyhow::{Context, Result, bail};
use made_project::{made_files, summary};
use std::alloc::{AllocError, Global};

/// The bytes with newlines in the places of `~`.
fn with_newlines(alloc: Global, text: &str) -> Result<Vec<u8>, AllocError> {
    let mut bytes = Vec::new(alloc);
    for byte in text.as_bytes() {
        bytes.push(if *byte == b'~' { b'\n' } else { *byte })?;
    }
    Ok(bytes)
}

/// Prints the files of a project.
fn tell_files<R: Print + AllocGlobal>(rt: &R, seed: u64, cells: u32) -> Result<()> {
    let files = made_files(rt.alloc(), seed, cells)?;
    for file in files.as_slice() {
        let text = str::from_utf8(file.bytes.as_slice())
            .ok()
            .context("no text")?;
        println!(rt; "> {}", file.name.as_str())?;
        print!(rt; "{text}")?;
    }
    Ok(())
}

/// Prints a summary: how many sites there are, and a text.
fn tell_summary<R: Print + AllocGlobal>(rt: &R, seed: u64, cells: u32, words: &str) -> Result<()> {
    let (sites, status) = words.split_once(' ').context("no text")?;
    let sites = sites.parse::<usize>().ok().context("no number of sites")?;
    let status = with_newlines(rt.alloc(), status)?;
    let text = summary(rt.alloc(), seed, cells, sites, &status)?;
    let text = str::from_utf8(text.as_slice()).ok().context("no text")?;
    print!(rt; "{text}")?;
    Ok(())
}

/// Prints what a line asks for.
fn answer<R: Print + AllocGlobal>(rt: &R, line: &str) -> Result<()> {
    let (what, rest) = line.split_once(' ').context("no seed")?;
    let (seed, rest) = rest.split_once(' ').context("no cells")?;
    let (cells, rest) = rest.split_once(' ').unwrap_or((rest, ""));
    let seed = seed.parse::<u64>().ok().context("no seed")?;
    let cells = cells.parse::<u32>().ok().context("no cells")?;
    match what {
        "files" => tell_files(rt, seed, cells),
        "summary" => tell_summary(rt, seed, cells, rest),
        _ => bail!("no such thing"),
    }
}

fn main(rt: HostRuntime) -> Result<()> {
    for line in rt.lines(rt.alloc()) {
        answer(&rt, line?.as_str())?;
    }
    Ok(())
}
