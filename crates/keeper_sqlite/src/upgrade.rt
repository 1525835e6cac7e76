//! The migration of a book of the first format to the second, in one transaction.
//!
//! The rows of `journal` are read inside the transaction, written into `journal2` with their bounds, and deleted, and item
//! 0 of `meta` becomes the number of the second format. Where any of this fails nothing is changed.
ghost use Rattle.std.specs.List.{AllByRecursion};
ghost use Rattle.std.specs.Prelude.{◌≡◌, ℕ, [], length, map, slice_get, Some, true, false, is_some, IsTrue, IfOk, IfErr, OnOk, OnErr, IsErrOf};
ghost use Rattle.sqlite.specs.Order.{Row as Cells};
ghost use Rattle.sqlite.specs.Held.{state};
ghost use Rattle.sqlite.specs.State.{HasCleanDisk, IsLive, IsUnchanged, KeepsCommit, Survives};
ghost use Rattle.mcy_keeper.specs.declared.book.Book.{Book as Pages};
ghost use Rattle.mcy_keeper.specs.Books.{IsFirst, upgraded, Keeps, LeavesEither, LeavesNothingNew};
ghost use Rattle.keeper_sqlite.specs.declared.read.JournalTable.{JournalTable as Which};
ghost use Rattle.keeper_sqlite.specs.Tables.{IsBookSchema, second_tree};
ghost use Rattle.keeper_sqlite.specs.Rows.{entry_row, shown_entry, FitsTable, HoldsJournal, IsNoEntry};
ghost use Rattle.keeper_sqlite.specs.Changes.{IsKept, IsKeptIfOpen};
ghost use Rattle.keeper_sqlite.specs.Writing.{WritesInside};
ghost use Rattle.keeper_sqlite.specs.Refusals.{IsRefusedInsideWith};
ghost use Rattle.keeper_sqlite.specs.Upgrading.{Clears, Renumbers, HasMoved, HasUpgraded, MayUpgrade, UpgradesInside, AreNotMoved, IsNotRead, IsEntryRefused, IsNotMovedTo, IsNotMoved, IsNotUpgraded, FailsToUpgrade};
ghost use Rattle.keeper_sqlite.specs.Stands.{Tells, Holds, Leaves};

use crate::insert::insert_bounded;
use crate::read::{JournalTable, are_rising, entry_of};
use crate::refusal::{Refusal, probed};
use crate::statements::{CLEAR_JOURNAL, NUMBER_SECOND, SELECT_JOURNAL};
use crate::tables::is_book_schema;
use mcy_keeper::{BoundList, Entry, with_bounds};
use sqlite::{Alter, Connection, Error, Row, Transaction};
use std::alloc::Global;

/// The entries of rows of `journal`.
fn entries_of(alloc: Global, rows: &[Row]) -> Result<Vec<Entry>, Refusal>
    ensures found { IfOk result (λ entries. (rows.now ≡ map (shown_entry JournalTable.First) entries.items) × AllByRecursion (FitsTable JournalTable.First) entries.items) }
    ensures fault { IsErrOf result Refusal.Database → (at : ℕ) × (row : Cells) × (slice_get rows.now at ≡ Some row) × IsNoEntry JournalTable.First row }
{
    let mut entries = Vec::new(alloc);
    for row in rows {
        entries.push(entry_of(row, JournalTable::First)?)?;
    }
    Ok(entries)
}

/// Reads the rows of `journal`, in the order of their numbers.
fn read_first<S: Alter>(
    alloc: Global,
    transaction: &mut Transaction<'_, S>,
) -> Result<Vec<Entry>, Refusal>
    ensures same_reference { transaction.new.conn.ghost_name ≡ transaction.old.conn.ghost_name }
    ensures found { HasCleanDisk (state S.Store transaction.new.conn.now) → IsBookSchema (state S.Store transaction.old.conn.now).now.schema → IsLive (state S.Store transaction.old.conn.now) → IfOk result (λ entries. HoldsJournal JournalTable.First ((state S.Store transaction.old.conn.now).now.trees 2) entries.items) }
    ensures same { HasCleanDisk (state S.Store transaction.new.conn.now) → IsBookSchema (state S.Store transaction.old.conn.now).now.schema → OnOk result (IsUnchanged (state S.Store transaction.old.conn.now) (state S.Store transaction.new.conn.now)) }
    ensures kept { HasCleanDisk (state S.Store transaction.new.conn.now) → IsBookSchema (state S.Store transaction.old.conn.now).now.schema → KeepsCommit (state S.Store transaction.old.conn.now) (state S.Store transaction.new.conn.now) }
    ensures fault { HasCleanDisk (state S.Store transaction.new.conn.now) → IsTrue (state S.Store transaction.old.conn.now).in_transaction → IsErrOf result Refusal.Database → IsNotRead S.Store transaction.old.conn.now transaction.new.conn.now }
    ensures crash { Survives (state S.Store transaction.old.conn.now) (state S.Store transaction.new.conn.now) (λ _. ⊥) }
{
    let rows = transaction.query_all(SELECT_JOURNAL, &[])?;
    let entries = entries_of(alloc, rows.as_slice())?;
    if !are_rising(entries.as_slice()) {
        return Err(Refusal::Database);
    }
    Ok(entries)
}

/// Writes entries into `journal2`.
fn write_entries<S: Alter>(
    transaction: &mut Transaction<'_, S>,
    entries: &[Entry],
) -> Result<(), Refusal>
    ensures same_reference { transaction.new.conn.ghost_name ≡ transaction.old.conn.ghost_name }
    ensures writes { WritesInside (second_tree (state S.Store transaction.old.conn.now).now.schema) (map (entry_row JournalTable.Second) entries.now) (state S.Store transaction.old.conn.now) (state S.Store transaction.new.conn.now) result }
    ensures fault { HasCleanDisk (state S.Store transaction.new.conn.now) → IsTrue (state S.Store transaction.old.conn.now).in_transaction → IsErrOf result Refusal.Database → IsEntryRefused S.Store entries.now transaction.old.conn.now transaction.new.conn.now }
{
    for entry in entries {
        insert_bounded(transaction, entry)?;
    }
    Ok(())
}

/// Deletes the rows of `journal`.
fn clear_first<S: Alter>(transaction: &mut Transaction<'_, S>) -> Result<usize, Error>
    ensures same_reference { transaction.new.conn.ghost_name ≡ transaction.old.conn.ghost_name }
    ensures clears { HasCleanDisk (state S.Store transaction.new.conn.now) → IsTrue (state S.Store transaction.old.conn.now).in_transaction → IsBookSchema (state S.Store transaction.old.conn.now).now.schema → OnOk result (Clears (state S.Store transaction.old.conn.now) (state S.Store transaction.new.conn.now)) }
    ensures kept { HasCleanDisk (state S.Store transaction.new.conn.now) → IsTrue (state S.Store transaction.old.conn.now).in_transaction → KeepsCommit (state S.Store transaction.old.conn.now) (state S.Store transaction.new.conn.now) }
    ensures told { HasCleanDisk (state S.Store transaction.new.conn.now) → IsTrue (state S.Store transaction.old.conn.now).in_transaction → IfErr result (IsRefusedInsideWith CLEAR_JOURNAL.now [] (state S.Store transaction.old.conn.now) (state S.Store transaction.new.conn.now)) }
    ensures crash { Survives (state S.Store transaction.old.conn.now) (state S.Store transaction.new.conn.now) (λ _. ⊥) }
{
    transaction.execute(CLEAR_JOURNAL, &[])
}

/// Sets item 0 of `meta` to the number of the second format.
fn renumber<S: Alter>(transaction: &mut Transaction<'_, S>) -> Result<usize, Error>
    ensures same_reference { transaction.new.conn.ghost_name ≡ transaction.old.conn.ghost_name }
    ensures numbers { HasCleanDisk (state S.Store transaction.new.conn.now) → IsTrue (state S.Store transaction.old.conn.now).in_transaction → IsBookSchema (state S.Store transaction.old.conn.now).now.schema → OnOk result (Renumbers (state S.Store transaction.old.conn.now) (state S.Store transaction.new.conn.now)) }
    ensures kept { HasCleanDisk (state S.Store transaction.new.conn.now) → IsTrue (state S.Store transaction.old.conn.now).in_transaction → KeepsCommit (state S.Store transaction.old.conn.now) (state S.Store transaction.new.conn.now) }
    ensures told { HasCleanDisk (state S.Store transaction.new.conn.now) → IsTrue (state S.Store transaction.old.conn.now).in_transaction → IfErr result (IsRefusedInsideWith NUMBER_SECOND.now [] (state S.Store transaction.old.conn.now) (state S.Store transaction.new.conn.now)) }
    ensures crash { Survives (state S.Store transaction.old.conn.now) (state S.Store transaction.new.conn.now) (λ _. ⊥) }
{
    transaction.execute(NUMBER_SECOND, &[])
}

/// Writes these rows into `journal2`, deletes those of `journal`, and sets the number of the format.
fn write_moved<S: Alter>(
    transaction: &mut Transaction<'_, S>,
    rows: &[Entry],
) -> Result<(), Refusal>
    ensures same_reference { transaction.new.conn.ghost_name ≡ transaction.old.conn.ghost_name }
    ensures moved { HasCleanDisk (state S.Store transaction.new.conn.now) → IsTrue (state S.Store transaction.old.conn.now).in_transaction → IsBookSchema (state S.Store transaction.old.conn.now).now.schema → OnOk result (HasMoved (state S.Store transaction.old.conn.now) (state S.Store transaction.new.conn.now) rows.now) }
    ensures kept { HasCleanDisk (state S.Store transaction.new.conn.now) → IsTrue (state S.Store transaction.old.conn.now).in_transaction → IsBookSchema (state S.Store transaction.old.conn.now).now.schema → KeepsCommit (state S.Store transaction.old.conn.now) (state S.Store transaction.new.conn.now) }
    ensures fault { HasCleanDisk (state S.Store transaction.new.conn.now) → IsTrue (state S.Store transaction.old.conn.now).in_transaction → IsBookSchema (state S.Store transaction.old.conn.now).now.schema → IsErrOf result Refusal.Database → AreNotMoved S.Store rows.now transaction.old.conn.now transaction.new.conn.now }
    ensures crash { Survives (state S.Store transaction.old.conn.now) (state S.Store transaction.new.conn.now) (λ _. ⊥) }
{
    write_entries(transaction, rows)?;
    clear_first(transaction)?;
    renumber(transaction)?;
    Ok(())
}

/// Moves the rows into `journal2`, with their bounds.
fn move_rows<S: Alter>(
    alloc: Global,
    transaction: &mut Transaction<'_, S>,
    bounds: &BoundList,
) -> Result<(), Refusal>
    ensures same_reference { transaction.new.conn.ghost_name ≡ transaction.old.conn.ghost_name }
    ensures moved { HasCleanDisk (state S.Store transaction.new.conn.now) → IsTrue (state S.Store transaction.old.conn.now).in_transaction → IsBookSchema (state S.Store transaction.old.conn.now).now.schema → IsLive (state S.Store transaction.old.conn.now) → OnOk result (UpgradesInside (state S.Store transaction.old.conn.now) (state S.Store transaction.new.conn.now) bounds.now) }
    ensures kept { HasCleanDisk (state S.Store transaction.new.conn.now) → IsTrue (state S.Store transaction.old.conn.now).in_transaction → IsBookSchema (state S.Store transaction.old.conn.now).now.schema → KeepsCommit (state S.Store transaction.old.conn.now) (state S.Store transaction.new.conn.now) }
    ensures fault { HasCleanDisk (state S.Store transaction.new.conn.now) → IsTrue (state S.Store transaction.old.conn.now).in_transaction → IsBookSchema (state S.Store transaction.old.conn.now).now.schema → IsLive (state S.Store transaction.old.conn.now) → IsErrOf result Refusal.Database → IsNotMovedTo S.Store bounds.now transaction.old.conn.now transaction.new.conn.now }
    ensures crash { Survives (state S.Store transaction.old.conn.now) (state S.Store transaction.new.conn.now) (λ _. ⊥) }
{
    let entries = read_first(alloc, transaction)?;
    let rows = with_bounds(alloc, bounds.as_slice(), entries.as_slice())?;
    write_moved(transaction, rows.as_slice())
}

/// Moves them in one transaction.
fn move_all<S: Alter>(
    alloc: Global,
    connection: &mut Connection<S>,
    bounds: &BoundList,
) -> Result<(), Refusal>
    requires mode { (state S.Store connection.old).in_transaction ≡ false }
    requires tables { IsBookSchema (state S.Store connection.old).now.schema }
    ensures upgraded { HasCleanDisk (state S.Store connection.new) → IsBookSchema (state S.Store connection.old).now.schema → OnOk result (HasUpgraded (state S.Store connection.old) (state S.Store connection.new) bounds.now) }
    ensures kept { HasCleanDisk (state S.Store connection.new) → OnErr result (IsKeptIfOpen (state S.Store connection.old) (state S.Store connection.new)) }
    ensures fault { HasCleanDisk (state S.Store connection.new) → IsErrOf result Refusal.Database → IsNotMoved S.Store (record connection.old { in_transaction = true }) bounds.now }
    ensures crash { Survives (state S.Store connection.old) (state S.Store connection.new) (λ trees. IsBookSchema (state S.Store connection.old).now.schema → MayUpgrade (state S.Store connection.old).now bounds.now trees) }
{
    let _sound = connection.schema();
    let mut transaction = connection.transaction();
    move_rows(alloc, &mut transaction, bounds)?;
    transaction.commit()?;
    Ok(())
}

/// Upgrades a book. Want of memory changes nothing.
fn upgrade_book<S: Alter>(
    alloc: Global,
    connection: &mut Connection<S>,
    bounds: &BoundList,
) -> Result<(), Refusal>
    ensures upgraded { HasCleanDisk (state S.Store connection.new) → IsBookSchema (state S.Store connection.old).now.schema → OnOk result (HasUpgraded (state S.Store connection.old) (state S.Store connection.new) bounds.now) }
    ensures kept { HasCleanDisk (state S.Store connection.new) → IsErrOf result Refusal.Memory → IsKept (state S.Store connection.old) (state S.Store connection.new) }
    ensures fault { HasCleanDisk (state S.Store connection.new) → IsErrOf result Refusal.Database → IsNotUpgraded S.Store connection.old connection.new bounds.now }
    ensures crash { Survives (state S.Store connection.old) (state S.Store connection.new) (λ trees. IsBookSchema (state S.Store connection.old).now.schema → MayUpgrade (state S.Store connection.old).now bounds.now trees) }
{
    if !connection.is_autocommit() || !is_book_schema(connection.schema()) {
        return Err(Refusal::Database);
    }
    match move_all(alloc, connection, bounds) {
        Ok(()) => Ok(()),
        Err(refusal) => Err(probed(connection, refusal)),
    }
}

/// Upgrades a book over a connection that may be missing.
pub(crate) fn upgrade_through<S: Alter>(
    alloc: Global,
    connection: &mut Option<Connection<S>>,
    bounds: &BoundList,
) -> Result<(), Refusal>
    ensures connected { is_some connection.new ≡ is_some connection.old }
    ensures tells { Tells S.Store connection.new → Tells S.Store connection.old }
    ensures done { Tells S.Store connection.new → OnOk result ((table : Which) (was : Pages) → Holds S.Store connection.old true table was → IsFirst was → length bounds.now ≡ length was.journal → Keeps (Holds S.Store connection.new true JournalTable.Second) (Leaves S.Store connection.new) (upgraded bounds.now was)) }
    ensures either { Tells S.Store connection.new → OnErr result ((table : Which) (was : Pages) → Holds S.Store connection.old true table was → IsFirst was → LeavesEither (Leaves S.Store connection.new) was (upgraded bounds.now was)) }
    ensures same { Tells S.Store connection.new → IsErrOf result Refusal.Memory → (table : Which) (was : Pages) → Holds S.Store connection.old true table was → Holds S.Store connection.new true table was }
    ensures refused { Tells S.Store connection.new → IsErrOf result Refusal.Memory → LeavesNothingNew (Leaves S.Store connection.old) (Leaves S.Store connection.new) }
    ensures fault { Tells S.Store connection.new → IsErrOf result Refusal.Database → FailsToUpgrade S.Store connection.old connection.new bounds.now }
{
    match connection {
        Some(connected) => upgrade_book(alloc, connected, bounds),
        None => Err(Refusal::Database),
    }
}
