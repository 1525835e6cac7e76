//! Keepers in memory.
ghost use Rattle.std.specs.Prelude.{◌≡◌, ◌≢◌, []};

use mcy_base::{Bytes, BytesList};
use mcy_keeper::{Book, BoundList, CleanKeeper, Entry, Journal, KeepError, Keeper, MemoryKeeper};
use std::alloc::{AllocError, Global};
use std::test::Fail;

fn one_item(alloc: Global) -> Result<BytesList, AllocError> {
    let mut list = BytesList::from_vec(Vec::new(alloc));
    list.push(Bytes::copy(alloc, b"1")?)?;
    Ok(list)
}

fn first_row() -> Entry
    ensures seq { result.seq ≡ 0 }
    ensures bound { result.bound ≡ 0 }
{
    Entry {
        seq: 0,
        mutation: 7,
        test: u32::MAX,
        word: 1,
        mark: 16,
        tags: 3,
        bound: 0,
    }
}

/// Begins the book of a keeper that has none, and adds a row to it. How many rows a load then finds.
fn rows_kept<K: Keeper>(keeper: &mut K, list: &BytesList, row: &Entry) -> Result<usize, KeepError>
    requires first { row.now.seq ≡ 0 }
    requires bound { row.now.bound ≡ 0 }
    requires list { list.now ≢ [] }
{
    if !keeper.load()?.is_blank() {
        return Ok(0);
    }
    keeper.begin(list, list)?;
    keeper.append(row)?;
    Ok(keeper.load()?.journal.as_slice().len())
}

#[test]
fn keepers_in_memory_keep_a_book(rt: HostRuntime) -> Result<(), Fail> {
    let list = one_item(rt.alloc())?;
    assert!(rt; !list.as_slice().is_empty());
    let mut clean = CleanKeeper::new(rt.alloc());
    assert_eq!(rt; rows_kept(&mut clean, &list, &first_row()), Ok(1));
    let mut keeper = MemoryKeeper::new(rt.alloc(), Vec::new(rt.alloc()));
    assert_eq!(rt; rows_kept(&mut keeper, &list, &first_row()), Ok(1));
    Ok(())
}

/// The book is left as it was, or with the new row, as the list says.
fn rows_after_a_failed_append(alloc: Global, whole: bool) -> Result<usize, KeepError> {
    let mut keeper = MemoryKeeper::new(alloc, [(1, whole)].to_vec(alloc)?);
    keeper.load()?;
    match keeper.append(&first_row()) {
        Err(KeepError::Fault) => Ok(keeper.load()?.journal.as_slice().len()),
        _ => Err(KeepError::Fault),
    }
}

#[test]
fn a_failed_append_leaves_the_book_that_the_list_says(rt: HostRuntime) -> Result<(), Fail> {
    assert_eq!(rt; rows_after_a_failed_append(rt.alloc(), false), Ok(0));
    assert_eq!(rt; rows_after_a_failed_append(rt.alloc(), true), Ok(1));
    Ok(())
}

/// A book of the first format with one row.
fn first_book(alloc: Global) -> Result<Book, AllocError> {
    Ok(Book {
        meta: one_item(alloc)?,
        mutations: one_item(alloc)?,
        journal: Journal::from_vec([first_row()].to_vec(alloc)?),
    })
}

/// Upgrades a book of one row, whose new bound is 20,000, by a keeper whose second call fails where the list says so. The bound that
/// a load then finds, and whether the book is of the second format.
fn bound_after_an_upgrade(
    alloc: Global,
    failing: Vec<(u64, bool)>,
) -> Result<Option<(u32, bool)>, KeepError> {
    let mut keeper = MemoryKeeper::holding(alloc, first_book(alloc)?, failing);
    let loaded = keeper.load()?;
    if !loaded.is_first() || loaded.journal.as_slice().len() != 1 {
        return Ok(None);
    }
    let bounds = BoundList::from_vec([20_000].to_vec(alloc)?);
    let written = keeper.upgrade(&bounds);
    let book = keeper.load()?;
    match (written, book.journal.as_slice()) {
        (Ok(()) | Err(KeepError::Fault), [row]) => Ok(Some((row.bound, book.is_second()))),
        _ => Ok(None),
    }
}

#[test]
fn an_upgrade_gives_each_row_its_bound_or_changes_nothing(rt: HostRuntime) -> Result<(), Fail> {
    let alloc = rt.alloc();
    assert_eq!(rt;
        bound_after_an_upgrade(alloc, Vec::new(alloc)),
        Ok(Some((20_000, true)))
    );
    assert_eq!(rt;
        bound_after_an_upgrade(alloc, [(1, false)].to_vec(alloc)?),
        Ok(Some((0, false)))
    );
    assert_eq!(rt;
        bound_after_an_upgrade(alloc, [(1, true)].to_vec(alloc)?),
        Ok(Some((20_000, true)))
    );
    Ok(())
}
