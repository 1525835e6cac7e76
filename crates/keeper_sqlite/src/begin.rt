//! Beginning a book: its two lists of items, written in one transaction.
ghost use Rattle.std.specs.Prelude.{◌≡◌, true, false, is_some, IsTrue, OnOk, OnErr, IsErrOf};
ghost use Rattle.sqlite.specs.Held.{state};
ghost use Rattle.sqlite.specs.State.{HasCleanDisk, Survives};
ghost use Rattle.mcy_keeper.specs.declared.book.Book.{Book as Pages};
ghost use Rattle.mcy_keeper.specs.Books.{IsBlank, begun, Keeps, LeavesEither, LeavesNothingNew};
ghost use Rattle.keeper_sqlite.specs.Tables.{IsBookSchema};
ghost use Rattle.keeper_sqlite.specs.declared.read.JournalTable.{JournalTable};
ghost use Rattle.keeper_sqlite.specs.Rows.{item_rows, table_of, tree_of};
ghost use Rattle.keeper_sqlite.specs.Changes.{IsKept, IsKeptIfOpen};
ghost use Rattle.keeper_sqlite.specs.Writing.{HasBegunBook, MayBegin, WritesInside};
ghost use Rattle.keeper_sqlite.specs.Stands.{Tells, Holds, Leaves};
ghost use Rattle.keeper_sqlite.specs.Unbegun.{IsNotWritten, AreNotWritten, IsNotBegun, FailsToBegin};

use crate::insert::insert_item;
use crate::read::ItemTable;
use crate::refusal::{Refusal, probed};
use mcy_base::{Bytes, BytesList};
use sqlite::{Alter, Connection, Transaction};

/// Writes items under their numbers, which run from 0.
fn write_items<S: Alter>(
    transaction: &mut Transaction<'_, S>,
    table: ItemTable,
    items: &[Bytes],
) -> Result<(), Refusal>
    ensures same_reference { transaction.new.conn.ghost_name ≡ transaction.old.conn.ghost_name }
    ensures writes { WritesInside (tree_of table) (item_rows 0 items.now) (state S.Store transaction.old.conn.now) (state S.Store transaction.new.conn.now) result }
    ensures fault { HasCleanDisk (state S.Store transaction.new.conn.now) → IsTrue (state S.Store transaction.old.conn.now).in_transaction → IsErrOf result Refusal.Database → IsNotWritten S.Store table items.now transaction.old.conn.now transaction.new.conn.now }
{
    let mut number: u32 = 0;
    for item in items {
        insert_item(transaction, table, number, item.as_slice())?;
        let Some(next) = number.checked_add(1) else {
            return Err(Refusal::Database);
        };
        number = next;
    }
    Ok(())
}

/// Writes both lists in one transaction.
fn write_lists<S: Alter>(
    connection: &mut Connection<S>,
    meta: &BytesList,
    mutations: &BytesList,
) -> Result<(), Refusal>
    requires { (state S.Store connection.old).in_transaction ≡ false }
    ensures begun { HasCleanDisk (state S.Store connection.new) → IsBookSchema (state S.Store connection.old).now.schema → OnOk result (HasBegunBook (state S.Store connection.old) (state S.Store connection.new) meta.now mutations.now) }
    ensures kept { HasCleanDisk (state S.Store connection.new) → OnErr result (IsKeptIfOpen (state S.Store connection.old) (state S.Store connection.new)) }
    ensures fault { HasCleanDisk (state S.Store connection.new) → IsErrOf result Refusal.Database → AreNotWritten S.Store (record connection.old { in_transaction = true }) meta.now mutations.now }
    ensures crash { Survives (state S.Store connection.old) (state S.Store connection.new) (λ trees. IsBookSchema (state S.Store connection.old).now.schema → MayBegin (state S.Store connection.old).now meta.now mutations.now trees) }
{
    let mut transaction = connection.transaction();
    write_items(&mut transaction, ItemTable::Meta, meta.as_slice())?;
    write_items(&mut transaction, ItemTable::Mutations, mutations.as_slice())?;
    transaction.commit()?;
    Ok(())
}

/// Begins a book. Want of memory changes nothing.
fn begin_book<S: Alter>(
    connection: &mut Connection<S>,
    meta: &BytesList,
    mutations: &BytesList,
) -> Result<(), Refusal>
    ensures begun { HasCleanDisk (state S.Store connection.new) → IsBookSchema (state S.Store connection.old).now.schema → OnOk result (HasBegunBook (state S.Store connection.old) (state S.Store connection.new) meta.now mutations.now) }
    ensures kept { HasCleanDisk (state S.Store connection.new) → IsErrOf result Refusal.Memory → IsKept (state S.Store connection.old) (state S.Store connection.new) }
    ensures fault { HasCleanDisk (state S.Store connection.new) → IsErrOf result Refusal.Database → IsNotBegun S.Store connection.old connection.new meta.now mutations.now }
    ensures crash { Survives (state S.Store connection.old) (state S.Store connection.new) (λ trees. IsBookSchema (state S.Store connection.old).now.schema → MayBegin (state S.Store connection.old).now meta.now mutations.now trees) }
{
    if !connection.is_autocommit() {
        return Err(Refusal::Database);
    }
    match write_lists(connection, meta, mutations) {
        Ok(()) => Ok(()),
        Err(refusal) => Err(probed(connection, refusal)),
    }
}

/// Begins a book over a connection that may be missing.
pub(crate) fn begin_through<S: Alter>(
    connection: &mut Option<Connection<S>>,
    meta: &BytesList,
    mutations: &BytesList,
) -> Result<(), Refusal>
    ensures connected { is_some connection.new ≡ is_some connection.old }
    ensures tells { Tells S.Store connection.new → Tells S.Store connection.old }
    ensures done { Tells S.Store connection.new → OnOk result ((table : JournalTable) (was : Pages) → Holds S.Store connection.old true table was → IsBlank was → Keeps (Holds S.Store connection.new true (table_of (begun meta.now mutations.now))) (Leaves S.Store connection.new) (begun meta.now mutations.now)) }
    ensures either { Tells S.Store connection.new → OnErr result ((table : JournalTable) (was : Pages) → Holds S.Store connection.old true table was → IsBlank was → LeavesEither (Leaves S.Store connection.new) was (begun meta.now mutations.now)) }
    ensures same { Tells S.Store connection.new → IsErrOf result Refusal.Memory → (table : JournalTable) (was : Pages) → Holds S.Store connection.old true table was → Holds S.Store connection.new true table was }
    ensures refused { Tells S.Store connection.new → IsErrOf result Refusal.Memory → LeavesNothingNew (Leaves S.Store connection.old) (Leaves S.Store connection.new) }
    ensures fault { Tells S.Store connection.new → IsErrOf result Refusal.Database → FailsToBegin S.Store connection.old connection.new meta.now mutations.now }
{
    match connection {
        Some(connected) => begin_book(connected, meta, mutations),
        None => Err(Refusal::Database),
    }
}
