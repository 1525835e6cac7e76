//! The statements that read one table each, its rows in the order of their keys.
//!
//! Rows come one at a time, and each is let go before the next is read, so that a table is in memory once.
//! No contract of `sqlite` hands out the order of the rows. So these functions say that the rows are those
//! of the table in some order: an item says its number, and `read` tests the order of the entries.
ghost use Rattle.std.specs.List.{AllByRecursion};
ghost use Rattle.std.specs.Prelude.{◌≡◌, [], map, IfOk, OnOk, IsErrOf, IsPermutation};
ghost use Rattle.sqlite.specs.Held.{state};
ghost use Rattle.sqlite.specs.Given.{IsPlain};
ghost use Rattle.sqlite.specs.Listing.{understood};
ghost use Rattle.sqlite.specs.State.{HasCleanDisk, IsUnchanged, Shown, Survives};
ghost use Rattle.keeper_sqlite.specs.Tables.{IsBookSchema};
ghost use Rattle.keeper_sqlite.specs.Rows.{entry_row, item_rows, rows_in, shown_entry, shown_items, tree_of, FitsTable};
ghost use Rattle.keeper_sqlite.specs.Unloaded.{select_from, select_of, IsNoItems, IsNoEntries};

use crate::read::{ItemTable, JournalTable, entry_of, item_of};
use crate::refusal::Refusal;
use crate::statements::{SELECT_JOURNAL, SELECT_META, SELECT_MUTATIONS, SELECT_SECOND};
use mcy_base::Bytes;
use mcy_keeper::Entry;
use sqlite::{Alter, Connection};
use std::alloc::Global;

/// A table has at most as many rows as there are numbers in a `u32`.
const MOST_ROWS: usize = 1 << 32;

impl JournalTable {
    /// The statement that reads it.
    fn text(self) -> &'static str
        ensures { result.now ≡ select_from self }
    {
        match self {
            JournalTable::First => SELECT_JOURNAL,
            JournalTable::Second => SELECT_SECOND,
        }
    }
}

/// The items that a text shows, whose numbers run from 0.
fn show_items<S: Alter>(
    alloc: Global,
    connection: &mut Connection<S>,
    sql: &str,
) -> Result<Vec<Bytes>, Refusal>
    requires { HasCleanDisk (state S.Store connection.old) → IsPlain (understood (state S.Store connection.old).now.schema sql.now) }
    ensures shown { HasCleanDisk (state S.Store connection.new) → IfOk result (λ items. Shown sql.now [] (state S.Store connection.old) (state S.Store connection.new) (shown_items 0 items.items)) }
    ensures fault { HasCleanDisk (state S.Store connection.new) → IsErrOf result Refusal.Database → IsNoItems S.Store sql.now connection.old connection.new }
    ensures crash { Survives (state S.Store connection.old) (state S.Store connection.new) (λ _. ⊥) }
{
    let mut items = Vec::new(alloc);
    let mut rows = connection.query(sql, &[])?;
    'rows: for number in 0..MOST_ROWS {
        let Some(row) = rows.next()? else {
            return Ok(items);
        };
        let item = item_of(row, number)?;
        items.push(item)?;
    }
    Err(Refusal::Database)
}

/// The entries of a journal that a text shows.
fn show_entries<S: Alter>(
    alloc: Global,
    connection: &mut Connection<S>,
    table: JournalTable,
    sql: &str,
) -> Result<Vec<Entry>, Refusal>
    requires { HasCleanDisk (state S.Store connection.old) → IsPlain (understood (state S.Store connection.old).now.schema sql.now) }
    ensures shown { HasCleanDisk (state S.Store connection.new) → IfOk result (λ entries. Shown sql.now [] (state S.Store connection.old) (state S.Store connection.new) (map (shown_entry table) entries.items)) }
    ensures fit { IfOk result (λ entries. AllByRecursion (FitsTable table) entries.items) }
    ensures fault { HasCleanDisk (state S.Store connection.new) → IsErrOf result Refusal.Database → IsNoEntries S.Store table sql.now connection.old connection.new }
    ensures crash { Survives (state S.Store connection.old) (state S.Store connection.new) (λ _. ⊥) }
{
    let mut entries = Vec::new(alloc);
    let mut rows = connection.query(sql, &[])?;
    'rows: for _place in 0..MOST_ROWS {
        let Some(row) = rows.next()? else {
            return Ok(entries);
        };
        let entry = entry_of(row, table)?;
        entries.push(entry)?;
    }
    Err(Refusal::Database)
}

/// Reads the items of `meta`.
fn select_meta<S: Alter>(
    alloc: Global,
    connection: &mut Connection<S>,
) -> Result<Vec<Bytes>, Refusal>
    requires { HasCleanDisk (state S.Store connection.old) → IsBookSchema (state S.Store connection.old).now.schema }
    ensures found { HasCleanDisk (state S.Store connection.new) → IfOk result (λ items. IsPermutation (item_rows 0 items.items) ((state S.Store connection.old).now.trees 0)) }
    ensures same { HasCleanDisk (state S.Store connection.new) → OnOk result (IsUnchanged (state S.Store connection.old) (state S.Store connection.new)) }
    ensures fault { HasCleanDisk (state S.Store connection.new) → IsErrOf result Refusal.Database → IsNoItems S.Store SELECT_META.now connection.old connection.new }
    ensures crash { Survives (state S.Store connection.old) (state S.Store connection.new) (λ _. ⊥) }
{
    let _sound = connection.schema();
    show_items(alloc, connection, SELECT_META)
}

/// Reads the places of the mutations.
fn select_mutations<S: Alter>(
    alloc: Global,
    connection: &mut Connection<S>,
) -> Result<Vec<Bytes>, Refusal>
    requires { HasCleanDisk (state S.Store connection.old) → IsBookSchema (state S.Store connection.old).now.schema }
    ensures found { HasCleanDisk (state S.Store connection.new) → IfOk result (λ items. IsPermutation (item_rows 0 items.items) ((state S.Store connection.old).now.trees 1)) }
    ensures same { HasCleanDisk (state S.Store connection.new) → OnOk result (IsUnchanged (state S.Store connection.old) (state S.Store connection.new)) }
    ensures fault { HasCleanDisk (state S.Store connection.new) → IsErrOf result Refusal.Database → IsNoItems S.Store SELECT_MUTATIONS.now connection.old connection.new }
    ensures crash { Survives (state S.Store connection.old) (state S.Store connection.new) (λ _. ⊥) }
{
    let _sound = connection.schema();
    show_items(alloc, connection, SELECT_MUTATIONS)
}

/// Reads a table of items.
pub(crate) fn select_items<S: Alter>(
    alloc: Global,
    connection: &mut Connection<S>,
    table: ItemTable,
) -> Result<Vec<Bytes>, Refusal>
    requires { HasCleanDisk (state S.Store connection.old) → IsBookSchema (state S.Store connection.old).now.schema }
    ensures found { HasCleanDisk (state S.Store connection.new) → IfOk result (λ items. IsPermutation (item_rows 0 items.items) ((state S.Store connection.old).now.trees (tree_of table))) }
    ensures same { HasCleanDisk (state S.Store connection.new) → OnOk result (IsUnchanged (state S.Store connection.old) (state S.Store connection.new)) }
    ensures fault { HasCleanDisk (state S.Store connection.new) → IsErrOf result Refusal.Database → IsNoItems S.Store (select_of table) connection.old connection.new }
    ensures crash { Survives (state S.Store connection.old) (state S.Store connection.new) (λ _. ⊥) }
{
    match table {
        ItemTable::Meta => select_meta(alloc, connection),
        ItemTable::Mutations => select_mutations(alloc, connection),
    }
}

/// Reads the entries of a journal.
pub(crate) fn select_entries<S: Alter>(
    alloc: Global,
    connection: &mut Connection<S>,
    table: JournalTable,
) -> Result<Vec<Entry>, Refusal>
    requires { HasCleanDisk (state S.Store connection.old) → IsBookSchema (state S.Store connection.old).now.schema }
    ensures found { HasCleanDisk (state S.Store connection.new) → IfOk result (λ entries. IsPermutation (map (entry_row table) entries.items) (rows_in (state S.Store connection.old).now.schema (state S.Store connection.old).now.trees table)) }
    ensures fit { IfOk result (λ entries. AllByRecursion (FitsTable table) entries.items) }
    ensures same { HasCleanDisk (state S.Store connection.new) → OnOk result (IsUnchanged (state S.Store connection.old) (state S.Store connection.new)) }
    ensures shown { HasCleanDisk (state S.Store connection.new) → IfOk result (λ entries. Shown (select_from table) [] (state S.Store connection.old) (state S.Store connection.new) (map (shown_entry table) entries.items)) }
    ensures fault { HasCleanDisk (state S.Store connection.new) → IsErrOf result Refusal.Database → IsNoEntries S.Store table (select_from table) connection.old connection.new }
    ensures crash { Survives (state S.Store connection.old) (state S.Store connection.new) (λ _. ⊥) }
{
    let _sound = connection.schema();
    show_entries(alloc, connection, table, table.text())
}
