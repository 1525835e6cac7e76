//! Reads sources, one design a row, and prints their modules or why there are none.
//!
//! The files of a design stand behind one another, with a tab between them. `\` stands before two hexadecimal digits, and with
//! them for the byte of this number; every other byte stands for itself. A line that begins with `#` is printed as it is.
//!
//! A place is the number of the file, the line and the column.
ghost use Rattle.std.specs.Prelude.{◌<◌, ◌^◌, length, All, IsTrue};

mod told;

use anyhow::Result;
use case_lines::unescaped;
use mcy_base::{Bytes, SourceFile, Text};
use source_trees::read_modules;
use std::alloc::Global;
use std::io;
use told::{tell_error, tell_modules};

/// The least length of a file that is not read.
const MAX_LEN: usize = 1 << 31;

/// How many files are read.
const MAX_FILES: usize = 65_536;

/// Adds the files of a line.
fn add_files(alloc: Global, files: &mut Vec<SourceFile>, line: &str) -> Result<()> {
    for text in line.split('\t') {
        files.push(SourceFile {
            name: Text::copy(alloc, "")?,
            bytes: Bytes::from_vec(unescaped(alloc, text)?),
        })?;
    }
    Ok(())
}

/// Whether all files are short enough.
fn are_short(files: &[SourceFile]) -> bool
    ensures { IsTrue result → All (λ f. length f.bytes < 2 ^ 31) files.now }
{
    files
        .iter()
        .all(|file| file.bytes.as_slice().len() < MAX_LEN)
}

/// Prints the modules of files, or why there are none.
fn answer<R: Print + AllocGlobal>(rt: &R, files: &[SourceFile]) -> io::Result<()> {
    if files.len() > MAX_FILES || !are_short(files) {
        return println!(rt; "too long");
    }
    match read_modules(rt.alloc(), files) {
        Ok(modules) => tell_modules(rt, &modules)?,
        Err(error) => tell_error(rt, error)?,
    }
    println!(rt; "")
}

/// Prints what a row says.
pub(crate) fn carry_out<R: Print + AllocGlobal>(rt: &R, line: &str) -> Result<()> {
    if line.starts_with('#') {
        return Ok(println!(rt; "{line}")?);
    }
    let mut files = Vec::new(rt.alloc());
    add_files(rt.alloc(), &mut files, line)?;
    Ok(answer(rt, &files)?)
}
