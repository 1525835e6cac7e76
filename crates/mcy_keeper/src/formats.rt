//! The two formats of a book.
//!
//! The number of the format is item 0 of the book's meta. A keeper asks here for the format of the items that it
//! has read, and for the rows of an upgrade.
ghost use Rattle.std.specs.Prelude.{◌≡◌, IfOk};
ghost use Rattle.mcy_keeper.specs.Books.{begins_with as starts_with, first_number, in_second as renumbered, second_number, with_bounds as bounded_by};

use crate::book::{Entry, Journal};
use mcy_base::{Bytes, BytesList};
use std::alloc::{AllocError, Global};

/// The number of the first format.
pub(crate) const FIRST: &[u8] = b"1";

/// The number of the second format.
pub(crate) const SECOND: &[u8] = b"2";

/// Whether the first of the items is this one.
pub(crate) fn begins_with(item: &[u8], items: &[Bytes]) -> bool
    ensures { result ≡ starts_with item.now items.now }
{
    match items {
        [first, ..] => first.as_slice() == item,
        [] => false,
    }
}

/// Whether a book with these items is of the first format.
pub fn are_of_first_format(meta: &[Bytes]) -> bool
    ensures { result ≡ starts_with first_number meta.now }
{
    begins_with(FIRST, meta)
}

/// The items with the number of the second format in the first one's place.
pub(crate) fn in_second(alloc: Global, meta: &[Bytes]) -> Result<BytesList, AllocError>
    ensures { IfOk result (λ items. items ≡ renumbered meta.now) }
{
    let mut items = Vec::new(alloc);
    let [_, more @ ..] = meta else {
        return Ok(BytesList::from_vec(items));
    };
    items.push(Bytes::copy(alloc, SECOND)?)?;
    for item in more {
        items.push(Bytes::copy(alloc, item.as_slice())?)?;
    }
    Ok(BytesList::from_vec(items))
}

/// The rows with these bounds, each the one in its place; a row without one keeps its own.
pub fn with_bounds(alloc: Global, bounds: &[u32], entries: &[Entry]) -> Result<Journal, AllocError>
    ensures { IfOk result (λ rows. rows ≡ bounded_by bounds.now entries.now) }
{
    let mut rows = Vec::new(alloc);
    for (place, entry) in entries.iter().enumerate() {
        let bound = match bounds.get(place) {
            Some(bound) => *bound,
            None => entry.bound,
        };
        rows.push(Entry { bound, ..*entry })?;
    }
    Ok(Journal::from_vec(rows))
}
