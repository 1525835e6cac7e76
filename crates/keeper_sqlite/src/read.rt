//! Making a book of rows.
//!
//! An item is a row of its number and its bytes, and the numbers of a list of items run from 0: a number
//! that is missing is a refusal. The rows of a book are those of `journal` where it is of the first format,
//! and else those of `journal2`; a row in the other one is a refusal. They have rising numbers, and are told
//! as they are. A number that is no `u32` is a refusal.
ghost use Rattle.std.specs.Prelude.{◌≡◌, ◌≢◌, ◌<◌, ◌≤◌, ◌^◌, ◌↔◌, ℕ, List, [], pos, length, IsTrue, IfOk, IsErrOf, OnOk};
ghost use Rattle.sqlite.specs.declared.types.Value.TheVariants.{Blob, Int};
ghost use Rattle.sqlite.specs.Order.{column};
ghost use Rattle.sqlite.specs.Held.{state};
ghost use Rattle.sqlite.specs.State.{HasCleanDisk, IsUnchanged, Survives};
ghost use Rattle.mcy_keeper.specs.declared.book.Entry.{Entry as Line};
ghost use Rattle.mcy_keeper.specs.declared.book.Book.{Book as Pages};
ghost use Rattle.keeper_sqlite.specs.Tables.{IsBookSchema};
ghost use Rattle.keeper_sqlite.specs.Rows.{other_of, rows_in, shown_entry, shown_item, table_of, FitsTable, IsNoEntry, IsNoItem, RisesFrom, HoldsBook, HoldsJournal};
ghost use Rattle.keeper_sqlite.specs.Unloaded.{IsNoJournal, IsNotBare, IsNoRows, IsNoBook};

use crate::refusal::Refusal;
use crate::select::{select_entries, select_items};
use mcy_base::{Bytes, BytesList};
use mcy_keeper::{Book, Entry, Journal, are_of_first_format};
use sqlite::{Alter, Connection, Row};
use std::alloc::Global;

/// A table of numbered items.
#[derive(Clone, Copy, Debug, PartialEq, Eq)]
pub(crate) enum ItemTable {
    Meta,
    Mutations,
}

/// A table of entries: `journal`, whose rows have no bound, or `journal2`.
#[derive(Clone, Copy, Debug, PartialEq, Eq)]
pub(crate) enum JournalTable {
    First,
    Second,
}

impl JournalTable {
    /// The journal of a book with these items.
    pub(crate) fn of(meta: &[Bytes]) -> JournalTable
        ensures { (book : Pages) → book.meta ≡ meta.now → result ≡ table_of book }
    {
        if are_of_first_format(meta) {
            JournalTable::First
        } else {
            JournalTable::Second
        }
    }

    /// The one that has no rows then.
    pub(crate) fn other(self) -> JournalTable
        ensures { result ≡ other_of self }
    {
        match self {
            JournalTable::First => JournalTable::Second,
            JournalTable::Second => JournalTable::First,
        }
    }

    /// How many columns it has.
    fn width(self) -> usize
        ensures is { (e : Line) → result ≡ length (shown_entry self e) }
        ensures wide { 6 ≤ result }
    {
        match self {
            JournalTable::First => 6,
            JournalTable::Second => 7,
        }
    }
}

fn number_at(row: &Row, at: usize) -> Result<u32, Refusal>
    requires { at < length row.now }
    ensures found { IfOk result (λ n. column row.now at ≡ Int (pos n)) }
    ensures fault { IsErrOf result Refusal.Database → (n : ℕ) → n < 2 ^ 32 → column row.now at ≢ Int (pos n) }
{
    match row.get(at) {
        Ok(number) => Ok(number),
        Err(error) => Err(error.into()),
    }
}

fn bytes_at(row: &Row, at: usize) -> Result<Bytes, Refusal>
    requires { at < length row.now }
    ensures found { IfOk result (λ bytes. column row.now at ≡ Blob bytes) }
    ensures fault { IsErrOf result Refusal.Database → (bytes : List ℕ) → column row.now at ≢ Blob bytes }
{
    match row.get::<Vec<u8>>(at) {
        Ok(bytes) => Ok(Bytes::from_vec(bytes)),
        Err(error) => Err(error.into()),
    }
}

/// The item of a row that has this number.
pub(crate) fn item_of(row: &Row, number: usize) -> Result<Bytes, Refusal>
    ensures found { IfOk result (λ body. row.now ≡ shown_item number body) }
    ensures fault { IsErrOf result Refusal.Database → number < 2 ^ 32 → IsNoItem number row.now }
{
    if row.column_count() != 2 {
        return Err(Refusal::Database);
    }
    let found = number_at(row, 0)?;
    if found as usize != number {
        return Err(Refusal::Database);
    }
    let body = bytes_at(row, 1)?;
    Ok(body)
}

/// The bound of a row, which `journal` does not have.
fn bound_of(row: &Row, table: JournalTable) -> Result<u32, Refusal>
    requires { (e : Line) → length row.now ≡ length (shown_entry table e) }
    ensures first { table ≡ JournalTable.First → IfOk result (λ n. n ≡ 0) }
    ensures second { table ≡ JournalTable.Second → IfOk result (λ n. column row.now 6 ≡ Int (pos n)) }
    ensures fault { IsErrOf result Refusal.Database → (table ≡ JournalTable.Second) × ((n : ℕ) → n < 2 ^ 32 → column row.now 6 ≢ Int (pos n)) }
{
    match table {
        JournalTable::First => Ok(0),
        JournalTable::Second => number_at(row, 6),
    }
}

/// The entry of a row.
pub(crate) fn entry_of(row: &Row, table: JournalTable) -> Result<Entry, Refusal>
    ensures found { IfOk result (λ e. (row.now ≡ shown_entry table e) × FitsTable table e) }
    ensures fault { IsErrOf result Refusal.Database → IsNoEntry table row.now }
{
    if row.column_count() != table.width() {
        return Err(Refusal::Database);
    }
    let seq = number_at(row, 0)?;
    let mutation = number_at(row, 1)?;
    let test = number_at(row, 2)?;
    let word = number_at(row, 3)?;
    let mark = number_at(row, 4)?;
    let tags = number_at(row, 5)?;
    let bound = bound_of(row, table)?;
    Ok(Entry {
        seq,
        mutation,
        test,
        word,
        mark,
        tags,
        bound,
    })
}

/// Whether each number is greater than the one before.
pub(crate) fn are_rising(entries: &[Entry]) -> bool
    ensures { IsTrue result ↔ RisesFrom 0 entries.now }
{
    let [first, more @ ..] = entries else {
        return true;
    };
    let mut last = first.seq;
    let mut rest = more;
    while let [entry, more @ ..] = rest {
        if entry.seq <= last {
            return false;
        }
        last = entry.seq;
        rest = more;
    }
    true
}

/// Reads a journal.
fn read_entries<S: Alter>(
    alloc: Global,
    connection: &mut Connection<S>,
    table: JournalTable,
) -> Result<Vec<Entry>, Refusal>
    requires { HasCleanDisk (state S.Store connection.old) → IsBookSchema (state S.Store connection.old).now.schema }
    ensures found { HasCleanDisk (state S.Store connection.new) → IfOk result (λ entries. HoldsJournal table (rows_in (state S.Store connection.old).now.schema (state S.Store connection.old).now.trees table) entries.items) }
    ensures same { HasCleanDisk (state S.Store connection.new) → OnOk result (IsUnchanged (state S.Store connection.old) (state S.Store connection.new)) }
    ensures fault { HasCleanDisk (state S.Store connection.new) → IsErrOf result Refusal.Database → IsNoJournal S.Store table connection.old connection.new }
    ensures crash { Survives (state S.Store connection.old) (state S.Store connection.new) (λ _. ⊥) }
{
    let entries = select_entries(alloc, connection, table)?;
    if !are_rising(entries.as_slice()) {
        return Err(Refusal::Database);
    }
    Ok(entries)
}

/// Sees that a journal has no rows.
fn expect_no_entry<S: Alter>(
    alloc: Global,
    connection: &mut Connection<S>,
    table: JournalTable,
) -> Result<(), Refusal>
    requires { HasCleanDisk (state S.Store connection.old) → IsBookSchema (state S.Store connection.old).now.schema }
    ensures found { HasCleanDisk (state S.Store connection.new) → OnOk result (rows_in (state S.Store connection.old).now.schema (state S.Store connection.old).now.trees table ≡ []) }
    ensures same { HasCleanDisk (state S.Store connection.new) → OnOk result (IsUnchanged (state S.Store connection.old) (state S.Store connection.new)) }
    ensures fault { HasCleanDisk (state S.Store connection.new) → IsErrOf result Refusal.Database → IsNotBare S.Store table connection.old connection.new }
    ensures crash { Survives (state S.Store connection.old) (state S.Store connection.new) (λ _. ⊥) }
{
    let entries = select_entries(alloc, connection, table)?;
    if !entries.is_empty() {
        return Err(Refusal::Database);
    }
    Ok(())
}

/// Reads the rows of a book with these items.
fn read_rows<S: Alter>(
    alloc: Global,
    connection: &mut Connection<S>,
    table: JournalTable,
) -> Result<Vec<Entry>, Refusal>
    requires { HasCleanDisk (state S.Store connection.old) → IsBookSchema (state S.Store connection.old).now.schema }
    ensures found { HasCleanDisk (state S.Store connection.new) → IfOk result (λ entries. HoldsJournal table (rows_in (state S.Store connection.old).now.schema (state S.Store connection.old).now.trees table) entries.items
        × (rows_in (state S.Store connection.old).now.schema (state S.Store connection.old).now.trees (other_of table) ≡ [])) }
    ensures same { HasCleanDisk (state S.Store connection.new) → OnOk result (IsUnchanged (state S.Store connection.old) (state S.Store connection.new)) }
    ensures fault { HasCleanDisk (state S.Store connection.new) → IsErrOf result Refusal.Database → IsNoRows S.Store table connection.old connection.new }
    ensures crash { Survives (state S.Store connection.old) (state S.Store connection.new) (λ _. ⊥) }
{
    expect_no_entry(alloc, connection, table.other())?;
    read_entries(alloc, connection, table)
}

/// Reads the tables.
pub(crate) fn read_book<S: Alter>(
    alloc: Global,
    connection: &mut Connection<S>,
) -> Result<Book, Refusal>
    requires { HasCleanDisk (state S.Store connection.old) → IsBookSchema (state S.Store connection.old).now.schema }
    ensures found { HasCleanDisk (state S.Store connection.new) → IfOk result (HoldsBook (state S.Store connection.old).now.schema (state S.Store connection.old).now.trees) }
    ensures same { HasCleanDisk (state S.Store connection.new) → OnOk result (IsUnchanged (state S.Store connection.old) (state S.Store connection.new)) }
    ensures fault { HasCleanDisk (state S.Store connection.new) → IsErrOf result Refusal.Database → IsNoBook S.Store connection.old connection.new }
    ensures crash { Survives (state S.Store connection.old) (state S.Store connection.new) (λ _. ⊥) }
{
    let meta = select_items(alloc, connection, ItemTable::Meta)?;
    let mutations = select_items(alloc, connection, ItemTable::Mutations)?;
    let table = JournalTable::of(meta.as_slice());
    let entries = read_rows(alloc, connection, table)?;
    Ok(Book {
        meta: BytesList::from_vec(meta),
        mutations: BytesList::from_vec(mutations),
        journal: Journal::from_vec(entries),
    })
}
