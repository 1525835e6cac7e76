//! Adding an entry at the journal's end: one statement, which outside a transaction is one.
ghost use Rattle.std.specs.Prelude.{◌≡◌, false, true, is_some, OnOk, OnErr, IsErrOf};
ghost use Rattle.sqlite.specs.Held.{state};
ghost use Rattle.sqlite.specs.State.{HasCleanDisk, Survives};
ghost use Rattle.keeper_sqlite.specs.Tables.{IsBookSchema};
ghost use Rattle.keeper_sqlite.specs.Changes.{HasAdded, IsAdded, IsKept};
ghost use Rattle.keeper_sqlite.specs.Refusals.{IsNotAdded, IsNotAppended};
ghost use Rattle.mcy_keeper.specs.declared.book.Book.{Book as Pages};
ghost use Rattle.mcy_keeper.specs.Books.{IsNext, with_entry, Keeps, LeavesEither, LeavesNothingNew};
ghost use Rattle.keeper_sqlite.specs.Rows.{FitsTable};
ghost use Rattle.keeper_sqlite.specs.Stands.{Tells, Holds, Leaves};

use crate::insert::insert_entry;
use crate::read::JournalTable;
use crate::refusal::{Refusal, probed};
use mcy_keeper::Entry;
use sqlite::{Alter, Connection};

/// Adds an entry. Want of memory changes nothing.
fn add_entry<S: Alter>(
    connection: &mut Connection<S>,
    table: JournalTable,
    entry: &Entry,
) -> Result<(), Refusal>
    ensures added { HasCleanDisk (state S.Store connection.new) → IsBookSchema (state S.Store connection.old).now.schema → OnOk result (((state S.Store connection.old).in_transaction ≡ false) × HasAdded table (state S.Store connection.old) (state S.Store connection.new) entry.now) }
    ensures kept { HasCleanDisk (state S.Store connection.new) → IsErrOf result Refusal.Memory → IsKept (state S.Store connection.old) (state S.Store connection.new) }
    ensures fault { HasCleanDisk (state S.Store connection.new) → IsErrOf result Refusal.Database → IsNotAdded S.Store table connection.old connection.new entry.now }
    ensures crash { Survives (state S.Store connection.old) (state S.Store connection.new) (λ trees. IsBookSchema (state S.Store connection.old).now.schema → IsAdded table (state S.Store connection.old).now entry.now trees) }
{
    if !connection.is_autocommit() {
        return Err(Refusal::Database);
    }
    match insert_entry(connection, table, entry) {
        Ok(_) => Ok(()),
        Err(error) => Err(probed(connection, error.into())),
    }
}

/// Adds an entry over a connection that may be missing.
pub(crate) fn append_through<S: Alter>(
    connection: &mut Option<Connection<S>>,
    table: JournalTable,
    entry: &Entry,
) -> Result<(), Refusal>
    ensures connected { is_some connection.new ≡ is_some connection.old }
    ensures tells { Tells S.Store connection.new → Tells S.Store connection.old }
    ensures done { Tells S.Store connection.new → OnOk result ((was : Pages) → Holds S.Store connection.old true table was → IsNext was entry.now → FitsTable table entry.now → Keeps (Holds S.Store connection.new true table) (Leaves S.Store connection.new) (with_entry was entry.now)) }
    ensures either { Tells S.Store connection.new → OnErr result ((was : Pages) → Holds S.Store connection.old true table was → IsNext was entry.now → FitsTable table entry.now → LeavesEither (Leaves S.Store connection.new) was (with_entry was entry.now)) }
    ensures same { Tells S.Store connection.new → IsErrOf result Refusal.Memory → (was : Pages) → Holds S.Store connection.old true table was → Holds S.Store connection.new true table was }
    ensures refused { Tells S.Store connection.new → IsErrOf result Refusal.Memory → LeavesNothingNew (Leaves S.Store connection.old) (Leaves S.Store connection.new) }
    ensures fault { Tells S.Store connection.new → IsErrOf result Refusal.Database → IsNotAppended S.Store table connection.old connection.new entry.now }
{
    match connection {
        Some(connected) => add_entry(connected, table, entry),
        None => Err(Refusal::Database),
    }
}
