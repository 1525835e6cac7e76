//! What is printed of texts and books.
use mcy_base::BytesList;
use mcy_keeper::{Book, Entry};
use std::io;

/// Prints bytes, which are a text.
pub fn tell_bytes<R: Print + AllocGlobal>(rt: &R, bytes: &[u8]) -> io::Result<()> {
    match str::from_utf8(bytes) {
        Ok(text) => print!(rt; "{text}"),
        Err(_) => println!(rt; "{} bytes that are no text", bytes.len()),
    }
}

/// Prints a row.
pub fn tell_row<R: Print + AllocGlobal>(rt: &R, row: &Entry) -> io::Result<()> {
    println!(rt;
        "{} {} {} {} {} {} {}",
        row.seq, row.mutation, row.test, row.word, row.mark, row.tags, row.bound
    )
}

/// Prints a text that was written, and how long it is.
pub fn tell_text<R: Print + AllocGlobal>(rt: &R, text: &[u8]) -> io::Result<()> {
    if text.is_empty() {
        return Ok(());
    }
    tell_bytes(rt, text)?;
    if text.last() != Some(&b'\n') {
        println!(rt; "")?;
    }
    println!(rt; "{} bytes", text.len())
}

/// Prints rows.
fn tell_rows<R: Print + AllocGlobal>(rt: &R, rows: &[Entry]) -> io::Result<()> {
    for row in rows {
        tell_row(rt, row)?;
    }
    Ok(())
}

/// Prints how many items the book has, and its rows; of more than a hundred only how many they are.
pub fn tell_book<R: Print + AllocGlobal>(rt: &R, book: &Book) -> io::Result<()> {
    let meta = book.meta.as_slice().len();
    let mutations = book.mutations.as_slice().len();
    println!(rt; "{meta} items, {mutations} mutations")?;
    let rows = book.journal.as_slice();
    if rows.len() > 100 {
        return println!(rt; "{} rows", rows.len());
    }
    tell_rows(rt, rows)
}

/// Prints a list of texts.
fn tell_list<R: Print + AllocGlobal>(rt: &R, list: &BytesList) -> io::Result<()> {
    for item in list.as_slice() {
        tell_bytes(rt, item.as_slice())?;
        println!(rt; "")?;
    }
    Ok(())
}

/// Prints the items of a book.
pub fn tell_items<R: Print + AllocGlobal>(rt: &R, book: &Book) -> io::Result<()> {
    tell_list(rt, &book.meta)?;
    tell_list(rt, &book.mutations)
}
