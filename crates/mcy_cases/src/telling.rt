//! What is printed of the outcome of a call, and of two books.
use call_stage::{tell_bytes, tell_row};
use mcy_base::Bytes;
use mcy_keeper::Book;
use mcy_top::{Outcome, exit_status, fault_line};
use result_book::BookError;
use std::io;

/// Prints the exit status, the line for standard error, and what else the outcome says.
pub(crate) fn tell_outcome<R: Print + AllocGlobal>(rt: &R, outcome: &Outcome) -> io::Result<()> {
    let status = exit_status(outcome);
    println!(rt; "status {status}")?;
    let line = fault_line(rt.alloc(), outcome)?;
    tell_bytes(rt, line.as_slice())?;
    match outcome {
        Outcome::Unfinished(left) => println!(rt; "{left} left"),
        Outcome::BookBad(error) => tell_error(rt, error),
        _ => Ok(()),
    }
}

/// Prints what is wrong with a book.
fn tell_error<R: Print + AllocGlobal>(rt: &R, error: &BookError) -> io::Result<()> {
    match error {
        BookError::Meta(_, kept, derived) | BookError::Mutation(_, kept, derived) => {
            tell_item(rt, "kept", kept)?;
            tell_item(rt, "derived", derived)
        }
        BookError::Row(row, fault) => {
            println!(rt; "{fault:?}")?;
            tell_row(rt, row)
        }
        BookError::Stray(mutations, rows) => println!(rt; "{mutations} mutations, {rows} rows"),
        BookError::Memory => Ok(()),
    }
}

/// Prints an item of a book that differs, if there is one.
fn tell_item<R: Print + AllocGlobal>(rt: &R, name: &str, item: &Option<Bytes>) -> io::Result<()> {
    println!(rt; "{name}")?;
    match item {
        Some(bytes) => tell_bytes(rt, bytes.as_slice()),
        None => Ok(()),
    }
}

/// Prints how many rows two books have, and how many from the first one on are the same.
pub(crate) fn tell_alike<R: Print + AllocGlobal>(
    rt: &R,
    called: &Book,
    driven: &Book,
) -> io::Result<()> {
    let rows = called.journal.as_slice();
    let others = driven.journal.as_slice();
    let alike = rows
        .iter()
        .zip(others)
        .take_while(|(row, other)| row == other)
        .count();
    println!(rt;
        "{} rows, {} by events, {alike} alike",
        rows.len(),
        others.len()
    )
}
