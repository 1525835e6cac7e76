//! The statements that write one row each.
//!
//! A row of `meta` or `mutations` is written inside a transaction, a row that is added to a journal outside
//! one, which makes the statement a transaction of its own. A row whose key is taken, and one that breaks another rule
//! of its table, is refused.
ghost use Rattle.std.specs.Prelude.{◌≡◌, [], ◌∷◌, IsTrue, IfErr, OnOk, OnErr};
ghost use Rattle.sqlite.specs.Held.{state};
ghost use Rattle.sqlite.specs.State.{HasCleanDisk, Survives};
ghost use Rattle.sqlite.specs.Values.{bound};
ghost use Rattle.keeper_sqlite.specs.Tables.{IsBookSchema, second_tree};
ghost use Rattle.keeper_sqlite.specs.Rows.{entry_row, item_row, shown_entry, shown_item, tree_of};
ghost use Rattle.keeper_sqlite.specs.Changes.{HasAdded, IsAdded, IsKeptIfOpen};
ghost use Rattle.keeper_sqlite.specs.Refusals.{insert_into, IsRefusedWith, IsRefusedInsideWith};
ghost use Rattle.keeper_sqlite.specs.Unbegun.{insert_of};
ghost use Rattle.keeper_sqlite.specs.Writing.{WritesInside};

use crate::read::{ItemTable, JournalTable};
use crate::statements::{INSERT_BOUNDED, INSERT_ENTRY, INSERT_META, INSERT_MUTATION};
use mcy_keeper::Entry;
use sqlite::types::{ToSql, ValueRef};
use sqlite::{Alter, Connection, Error, Transaction, params};

/// Writes an item of `meta`.
fn insert_meta<S: Alter>(
    transaction: &mut Transaction<'_, S>,
    number: u32,
    body: &[u8],
) -> Result<usize, Error>
    ensures same_reference { transaction.new.conn.ghost_name ≡ transaction.old.conn.ghost_name }
    ensures writes { WritesInside 0 (item_row number body.now ∷ []) (state S.Store transaction.old.conn.now) (state S.Store transaction.new.conn.now) result }
    ensures told { HasCleanDisk (state S.Store transaction.new.conn.now) → IsTrue (state S.Store transaction.old.conn.now).in_transaction → IfErr result (IsRefusedInsideWith INSERT_META.now (shown_item number body.now) (state S.Store transaction.old.conn.now) (state S.Store transaction.new.conn.now)) }
{
    transaction.execute(INSERT_META, params![number, body])
}

/// Writes the place of a mutation.
fn insert_mutation<S: Alter>(
    transaction: &mut Transaction<'_, S>,
    number: u32,
    body: &[u8],
) -> Result<usize, Error>
    ensures same_reference { transaction.new.conn.ghost_name ≡ transaction.old.conn.ghost_name }
    ensures writes { WritesInside 1 (item_row number body.now ∷ []) (state S.Store transaction.old.conn.now) (state S.Store transaction.new.conn.now) result }
    ensures told { HasCleanDisk (state S.Store transaction.new.conn.now) → IsTrue (state S.Store transaction.old.conn.now).in_transaction → IfErr result (IsRefusedInsideWith INSERT_MUTATION.now (shown_item number body.now) (state S.Store transaction.old.conn.now) (state S.Store transaction.new.conn.now)) }
{
    transaction.execute(INSERT_MUTATION, params![number, body])
}

/// Writes an item under its number.
pub(crate) fn insert_item<S: Alter>(
    transaction: &mut Transaction<'_, S>,
    table: ItemTable,
    number: u32,
    body: &[u8],
) -> Result<usize, Error>
    ensures same_reference { transaction.new.conn.ghost_name ≡ transaction.old.conn.ghost_name }
    ensures writes { WritesInside (tree_of table) (item_row number body.now ∷ []) (state S.Store transaction.old.conn.now) (state S.Store transaction.new.conn.now) result }
    ensures told { HasCleanDisk (state S.Store transaction.new.conn.now) → IsTrue (state S.Store transaction.old.conn.now).in_transaction → IfErr result (IsRefusedInsideWith (insert_of table) (shown_item number body.now) (state S.Store transaction.old.conn.now) (state S.Store transaction.new.conn.now)) }
{
    match table {
        ItemTable::Meta => insert_meta(transaction, number, body),
        ItemTable::Mutations => insert_mutation(transaction, number, body),
    }
}

/// The values of an entry in the columns of `journal`.
fn first_values(entry: &Entry) -> [ValueRef<'_>; 6]
    ensures { bound result ≡ shown_entry JournalTable.First entry.now }
{
    [
        entry.seq.to_sql(),
        entry.mutation.to_sql(),
        entry.test.to_sql(),
        entry.word.to_sql(),
        entry.mark.to_sql(),
        entry.tags.to_sql(),
    ]
}

/// Its values in those of `journal2`.
fn second_values(entry: &Entry) -> [ValueRef<'_>; 7]
    ensures { bound result ≡ shown_entry JournalTable.Second entry.now }
{
    [
        entry.seq.to_sql(),
        entry.mutation.to_sql(),
        entry.test.to_sql(),
        entry.word.to_sql(),
        entry.mark.to_sql(),
        entry.tags.to_sql(),
        entry.bound.to_sql(),
    ]
}

/// Writes a row of `journal`.
fn insert_first<S: Alter>(connection: &mut Connection<S>, entry: &Entry) -> Result<usize, Error>
    ensures added { HasCleanDisk (state S.Store connection.new) → IsBookSchema (state S.Store connection.old).now.schema → OnOk result (HasAdded JournalTable.First (state S.Store connection.old) (state S.Store connection.new) entry.now) }
    ensures kept { HasCleanDisk (state S.Store connection.new) → OnErr result (IsKeptIfOpen (state S.Store connection.old) (state S.Store connection.new)) }
    ensures told { HasCleanDisk (state S.Store connection.new) → IfErr result (IsRefusedWith INSERT_ENTRY.now (shown_entry JournalTable.First entry.now) (state S.Store connection.old) (state S.Store connection.new)) }
    ensures crash { Survives (state S.Store connection.old) (state S.Store connection.new) (λ trees. IsBookSchema (state S.Store connection.old).now.schema → IsAdded JournalTable.First (state S.Store connection.old).now entry.now trees) }
{
    connection.execute(INSERT_ENTRY, &first_values(entry))
}

/// Writes a row of `journal2`.
fn insert_second<S: Alter>(connection: &mut Connection<S>, entry: &Entry) -> Result<usize, Error>
    ensures added { HasCleanDisk (state S.Store connection.new) → IsBookSchema (state S.Store connection.old).now.schema → OnOk result (HasAdded JournalTable.Second (state S.Store connection.old) (state S.Store connection.new) entry.now) }
    ensures kept { HasCleanDisk (state S.Store connection.new) → OnErr result (IsKeptIfOpen (state S.Store connection.old) (state S.Store connection.new)) }
    ensures told { HasCleanDisk (state S.Store connection.new) → IfErr result (IsRefusedWith INSERT_BOUNDED.now (shown_entry JournalTable.Second entry.now) (state S.Store connection.old) (state S.Store connection.new)) }
    ensures crash { Survives (state S.Store connection.old) (state S.Store connection.new) (λ trees. IsBookSchema (state S.Store connection.old).now.schema → IsAdded JournalTable.Second (state S.Store connection.old).now entry.now trees) }
{
    connection.execute(INSERT_BOUNDED, &second_values(entry))
}

/// Writes a row of a journal.
pub(crate) fn insert_entry<S: Alter>(
    connection: &mut Connection<S>,
    table: JournalTable,
    entry: &Entry,
) -> Result<usize, Error>
    ensures added { HasCleanDisk (state S.Store connection.new) → IsBookSchema (state S.Store connection.old).now.schema → OnOk result (HasAdded table (state S.Store connection.old) (state S.Store connection.new) entry.now) }
    ensures kept { HasCleanDisk (state S.Store connection.new) → OnErr result (IsKeptIfOpen (state S.Store connection.old) (state S.Store connection.new)) }
    ensures told { HasCleanDisk (state S.Store connection.new) → IfErr result (IsRefusedWith (insert_into table) (shown_entry table entry.now) (state S.Store connection.old) (state S.Store connection.new)) }
    ensures crash { Survives (state S.Store connection.old) (state S.Store connection.new) (λ trees. IsBookSchema (state S.Store connection.old).now.schema → IsAdded table (state S.Store connection.old).now entry.now trees) }
{
    match table {
        JournalTable::First => insert_first(connection, entry),
        JournalTable::Second => insert_second(connection, entry),
    }
}

/// Writes a row of `journal2` inside a transaction.
pub(crate) fn insert_bounded<S: Alter>(
    transaction: &mut Transaction<'_, S>,
    entry: &Entry,
) -> Result<usize, Error>
    ensures same_reference { transaction.new.conn.ghost_name ≡ transaction.old.conn.ghost_name }
    ensures writes { WritesInside (second_tree (state S.Store transaction.old.conn.now).now.schema) (entry_row JournalTable.Second entry.now ∷ []) (state S.Store transaction.old.conn.now) (state S.Store transaction.new.conn.now) result }
    ensures told { HasCleanDisk (state S.Store transaction.new.conn.now) → IsTrue (state S.Store transaction.old.conn.now).in_transaction → IfErr result (IsRefusedInsideWith INSERT_BOUNDED.now (shown_entry JournalTable.Second entry.now) (state S.Store transaction.old.conn.now) (state S.Store transaction.new.conn.now)) }
{
    transaction.execute(INSERT_BOUNDED, &second_values(entry))
}
