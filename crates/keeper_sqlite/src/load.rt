//! Reading a whole book.
//!
//! A database with no table stands for the empty book, and gets the tables. One that knows the first format
//! alone gets the table of the second, and its rows stay as they are. Any other tables are refused.
ghost use Rattle.std.specs.Prelude.{◌≡◌, Bool, true, Some, is_some, IfOk, OnOk, OnErr, IsErrOf};
ghost use Rattle.sqlite.specs.Held.{state};
ghost use Rattle.sqlite.specs.State.{HasCleanDisk, Survives};
ghost use Rattle.mcy_keeper.specs.declared.book.Book.{Book as Pages};
ghost use Rattle.mcy_keeper.specs.Books.{Keeps, LeavesNothingNew};
ghost use Rattle.keeper_sqlite.specs.declared.read.JournalTable.{JournalTable};
ghost use Rattle.keeper_sqlite.specs.Rows.{table_of};
ghost use Rattle.keeper_sqlite.specs.Stands.{Tells, Holds, Leaves};
ghost use Rattle.keeper_sqlite.specs.Making.{IsReady, MayMake, IsLoaded, LoadsTables};
ghost use Rattle.keeper_sqlite.specs.Unloaded.{IsUnready, IsNotLoaded, FailsToLoad};

use crate::create::{add_second, make_tables};
use crate::read::read_book;
use crate::refusal::Refusal;
use crate::tables::{is_book_schema, is_first_schema, is_no_schema};
use mcy_keeper::Book;
use sqlite::{Alter, Connection};
use std::alloc::Global;

/// Makes the tables that are missing, in one transaction.
fn ensure_tables<S: Alter>(connection: &mut Connection<S>) -> Result<(), Refusal>
    ensures ready { HasCleanDisk (state S.Store connection.new) → OnOk result (IsReady (state S.Store connection.old) (state S.Store connection.new)) }
    ensures fault { HasCleanDisk (state S.Store connection.new) → IsErrOf result Refusal.Database → IsUnready S.Store connection.old }
    ensures crash { Survives (state S.Store connection.old) (state S.Store connection.new) (MayMake (state S.Store connection.old)) }
{
    if !connection.is_autocommit() {
        return Err(Refusal::Database);
    }
    let schema = connection.schema();
    if is_book_schema(schema) {
        return Ok(());
    }
    if is_first_schema(schema) {
        add_second(connection)?;
        return Ok(());
    }
    if !is_no_schema(schema) {
        return Err(Refusal::Database);
    }
    make_tables(connection)?;
    Ok(())
}

/// Reads the book, whose tables it makes where there is none.
fn load_from<S: Alter>(alloc: Global, connection: &mut Connection<S>) -> Result<Book, Refusal>
    ensures loaded { HasCleanDisk (state S.Store connection.new) → IfOk result (IsLoaded (state S.Store connection.old) (state S.Store connection.new)) }
    ensures fault { HasCleanDisk (state S.Store connection.new) → IsErrOf result Refusal.Database → IsNotLoaded S.Store connection.old connection.new }
    ensures crash { Survives (state S.Store connection.old) (state S.Store connection.new) (MayMake (state S.Store connection.old)) }
{
    ensure_tables(connection)?;
    let book = read_book(alloc, connection)?;
    let _live = connection.schema();
    let _settled = connection.is_autocommit();
    Ok(book)
}

/// Loads over a connection that may be missing.
pub(crate) fn load_through<S: Alter>(
    alloc: Global,
    connection: &mut Option<Connection<S>>,
) -> Result<Book, Refusal>
    ensures connected { is_some connection.new ≡ is_some connection.old }
    ensures tells { Tells S.Store connection.new → Tells S.Store connection.old }
    ensures answer { Tells S.Store connection.new → IfOk result (λ found. Keeps (Holds S.Store connection.new true (table_of found)) (Leaves S.Store connection.new) found) }
    ensures tables { Tells S.Store connection.new → OnOk result (LoadsTables connection.old connection.new) }
    ensures same { Tells S.Store connection.new → IfOk result (λ found. (settled : Bool) (table : JournalTable) (was : Pages) → Holds S.Store connection.old settled table was → found ≡ was) }
    ensures allowed { Tells S.Store connection.new → IfOk result (λ found. Leaves S.Store connection.old (Some found)) }
    ensures refused { Tells S.Store connection.new → OnErr result (LeavesNothingNew (Leaves S.Store connection.old) (Leaves S.Store connection.new)) }
    ensures fault { Tells S.Store connection.new → IsErrOf result Refusal.Database → FailsToLoad S.Store connection.old connection.new }
{
    match connection {
        Some(connected) => load_from(alloc, connected),
        None => Err(Refusal::Database),
    }
}
