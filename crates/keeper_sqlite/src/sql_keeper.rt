//! A keeper of a book in the tables of a database.
//!
//! `connection` is None where the opening of the database was refused, and each call then answers a fault.
//! The keeper tells where it has a connection whose store is clean, that is, where nobody else writes to the
//! file and the disk returns what was written. The book that it tells is that of the tables, which the
//! connection shows and has committed; it is told only while the keeper is settled. `table` is the journal
//! that has its rows then. `faults` counts the calls that answered a fault, and stays at its type's end.
//!
//! The calls of the keeper have the clauses of `Keeper`, and two more: none lets the connection go, since
//! over none the clauses on books would say nothing, and a fault comes only by the causes that `fault` names.
ghost use Rattle.std.specs.Prelude.{◌≡◌, ◌≢◌, [], length, true, false, Ok, Some, is_some, IsTrue, IfOk, OnOk, OnErr, IsOk, IsErrOf};
ghost use Rattle.mcy_base.specs.Causes.{one_more, IsCaused};
ghost use Rattle.mcy_keeper.specs.declared.book.Book.{Book as Pages};
ghost use Rattle.mcy_keeper.specs.Books.{begun, upgraded, with_entry, IsBlank, IsFirst, IsNext, Keeps, LeavesEither, LeavesNothingNew, TellsNone, TellsStill};
ghost use Rattle.keeper_sqlite.specs.Rows.{table_of};
ghost use Rattle.keeper_sqlite.specs.Stands.{Tells, Holds, Leaves};
ghost use Rattle.keeper_sqlite.specs.Making.{LoadsTables};
ghost use Rattle.keeper_sqlite.specs.Refusals.{IsNotAppended};
ghost use Rattle.keeper_sqlite.specs.Unbegun.{FailsToBegin};
ghost use Rattle.keeper_sqlite.specs.Unloaded.{FailsToLoad};
ghost use Rattle.keeper_sqlite.specs.Upgrading.{FailsToUpgrade};
ghost use Rattle.keeper_sqlite.specs.Laws.{holds_one, holds_tells, leaves_some};

use crate::append::append_through;
use crate::begin::begin_through;
use crate::load::load_through;
use crate::read::JournalTable;
use crate::refusal::Refusal;
use crate::upgrade::upgrade_through;
use mcy_base::BytesList;
use mcy_keeper::{Book, BoundList, Entry, KeepError, Keeper};
use sqlite::{Alter, Connection};
use std::alloc::Global;

/// A keeper of a book in the tables of a database.
#[derive(Drop)]
pub struct SqlKeeper<S: Alter> {
    alloc: Global,
    connection: Option<Connection<S>>,
    settled: bool,
    table: JournalTable,
    faults: u64,
}

impl<S: Alter> SqlKeeper<S> {
    /// A keeper over this connection. None stands for a database whose opening was refused. It takes no
    /// memory, and neither reads nor writes.
    pub fn adopt(alloc: Global, connection: Option<Connection<S>>) -> SqlKeeper<S>
        ensures connection { result.connection ≡ connection }
        ensures unsettled { result.settled ≡ false }
        ensures faults { result.faults ≡ 0 }
    {
        SqlKeeper {
            alloc,
            connection,
            settled: false,
            table: JournalTable::Second,
            faults: 0,
        }
    }

    /// The connection, given back.
    pub fn into_connection(self) -> Option<Connection<S>>
        ensures { result ≡ self.connection }
    {
        self.connection
    }

    /// Counts a fault.
    fn count_fault(&mut self)
        ensures { self.new ≡ record self.old { faults = one_more self.old.faults } }
    {
        self.faults = self.faults.saturating_add(1);
    }

    /// The answer of a load, which settles the keeper where it ended well.
    fn answer_load(&mut self, loaded: Result<Book, Refusal>) -> Result<Book, KeepError>
        ensures ok { IfOk loaded (λ book. (self.new ≡ record self.old { settled = true; table = table_of book }) × (result ≡ Ok book)) }
        ensures memory { IsErrOf loaded Refusal.Memory → (self.new ≡ self.old) × IsErrOf result KeepError.Memory }
        ensures fault { IsErrOf loaded Refusal.Database → (self.new ≡ record self.old { faults = one_more self.old.faults }) × IsErrOf result KeepError.Fault }
    {
        match loaded {
            Ok(book) => {
                self.settled = true;
                self.table = JournalTable::of(book.meta.as_slice());
                Ok(book)
            }
            Err(Refusal::Memory) => Err(KeepError::Memory),
            Err(Refusal::Database) => {
                self.count_fault();
                Err(KeepError::Fault)
            }
        }
    }

    /// The answer of a write, after which the rows are in this journal, and which settles the keeper no more where the database
    /// failed.
    fn answer_write(
        &mut self,
        written: Result<(), Refusal>,
        table: JournalTable,
    ) -> Result<(), KeepError>
        ensures ok { OnOk written ((self.new ≡ record self.old { table = table }) × IsOk result) }
        ensures memory { IsErrOf written Refusal.Memory → (self.new ≡ self.old) × IsErrOf result KeepError.Memory }
        ensures fault { IsErrOf written Refusal.Database → (self.new ≡ record self.old { settled = false; faults = one_more self.old.faults }) × IsErrOf result KeepError.Fault }
    {
        match written {
            Ok(()) => {
                self.table = table;
                Ok(())
            }
            Err(Refusal::Memory) => Err(KeepError::Memory),
            Err(Refusal::Database) => {
                self.settled = false;
                self.count_fault();
                Err(KeepError::Fault)
            }
        }
    }
}

impl<S: Alter> Keeper for SqlKeeper<S> {
    ghost tells = { λ k. Tells S.Store k.connection };

    ghost holds = { λ k. Holds S.Store k.connection k.settled k.table };

    ghost leaves = { λ k. Leaves S.Store k.connection };

    ghost is_settled = { λ k. k.settled };

    ghost faults = { λ k. k.faults };

    ghost one = { λ k. holds_one (record { view = S.Store.view; faults = S.Store.faults; recovers = S.Store.recovers; is_shielded = S.Store.is_shielded; is_step = S.Store.is_step; blamed = S.Store.blamed; names = S.Store.names }) k.connection k.settled k.table };

    ghost told = { λ k. holds_tells (record { view = S.Store.view; faults = S.Store.faults; recovers = S.Store.recovers; is_shielded = S.Store.is_shielded; is_step = S.Store.is_step; blamed = S.Store.blamed; names = S.Store.names }) k.connection k.settled k.table };

    ghost survives = { λ k. leaves_some (record { view = S.Store.view; faults = S.Store.faults; recovers = S.Store.recovers; is_shielded = S.Store.is_shielded; is_step = S.Store.is_step; blamed = S.Store.blamed; names = S.Store.names }) S.Store.survives k.connection };

    fn load(&mut self) -> Result<Book, KeepError>
        ensures connected { is_some self.new.connection ≡ is_some self.old.connection }
        ensures tells { Tells S.Store self.new.connection → Tells S.Store self.old.connection }
        ensures answer { Tells S.Store self.new.connection → IfOk result (Keeps (Holds S.Store self.new.connection self.new.settled self.new.table) (Leaves S.Store self.new.connection)) }
        ensures same { Tells S.Store self.new.connection → IfOk result (λ found. (was : Pages) → Holds S.Store self.old.connection self.old.settled self.old.table was → found ≡ was) }
        ensures allowed { Tells S.Store self.new.connection → IfOk result (λ found. Leaves S.Store self.old.connection (Some found)) }
        ensures refused { Tells S.Store self.new.connection → OnErr result (LeavesNothingNew (Leaves S.Store self.old.connection) (Leaves S.Store self.new.connection)) }
        ensures tables { Tells S.Store self.new.connection → OnOk result (LoadsTables self.old.connection self.new.connection) }
        ensures settles { OnOk result (IsTrue self.new.settled) }
        ensures stays { OnErr result (self.new.settled ≡ self.old.settled) }
        ensures cause { IsCaused self.old.faults self.new.faults (IsErrOf result KeepError.Fault) }
        ensures fault { Tells S.Store self.new.connection → IsErrOf result KeepError.Fault → FailsToLoad S.Store self.old.connection self.new.connection }
    {
        let loaded = load_through(self.alloc, &mut self.connection);
        self.answer_load(loaded)
    }

    fn begin(&mut self, meta: &BytesList, mutations: &BytesList) -> Result<(), KeepError>
        requires settled { IsTrue self.old.settled }
        requires empty { (was : Pages) → Holds S.Store self.old.connection self.old.settled self.old.table was → IsBlank was }
        requires meta { meta.now ≢ [] }
        ensures connected { is_some self.new.connection ≡ is_some self.old.connection }
        ensures tells { Tells S.Store self.new.connection → Tells S.Store self.old.connection }
        ensures done { Tells S.Store self.new.connection → OnOk result ((was : Pages) → Holds S.Store self.old.connection self.old.settled self.old.table was → Keeps (Holds S.Store self.new.connection self.new.settled self.new.table) (Leaves S.Store self.new.connection) (begun meta.now mutations.now)) }
        ensures either { Tells S.Store self.new.connection → IsErrOf result KeepError.Fault → (was : Pages) → Holds S.Store self.old.connection self.old.settled self.old.table was → LeavesEither (Leaves S.Store self.new.connection) was (begun meta.now mutations.now) }
        ensures untold { IsErrOf result KeepError.Fault → TellsNone (Holds S.Store self.new.connection self.new.settled self.new.table) }
        ensures same { Tells S.Store self.new.connection → IsErrOf result KeepError.Memory → TellsStill (Holds S.Store self.old.connection self.old.settled self.old.table) (Holds S.Store self.new.connection self.new.settled self.new.table) }
        ensures refused { Tells S.Store self.new.connection → IsErrOf result KeepError.Memory → LeavesNothingNew (Leaves S.Store self.old.connection) (Leaves S.Store self.new.connection) }
        ensures settles { OnOk result (IsTrue self.new.settled) }
        ensures unsettled { IsErrOf result KeepError.Fault → self.new.settled ≡ false }
        ensures stays { IsErrOf result KeepError.Memory → IsTrue self.new.settled }
        ensures cause { IsCaused self.old.faults self.new.faults (IsErrOf result KeepError.Fault) }
        ensures fault { Tells S.Store self.new.connection → IsErrOf result KeepError.Fault → FailsToBegin S.Store self.old.connection self.new.connection meta.now mutations.now }
    {
        let written = begin_through(&mut self.connection, meta, mutations);
        self.answer_write(written, JournalTable::of(meta.as_slice()))
    }

    fn upgrade(&mut self, bounds: &BoundList) -> Result<(), KeepError>
        requires settled { IsTrue self.old.settled }
        requires first { (was : Pages) → Holds S.Store self.old.connection self.old.settled self.old.table was → IsFirst was }
        requires bounds { (was : Pages) → Holds S.Store self.old.connection self.old.settled self.old.table was → length bounds.now ≡ length was.journal }
        ensures connected { is_some self.new.connection ≡ is_some self.old.connection }
        ensures tells { Tells S.Store self.new.connection → Tells S.Store self.old.connection }
        ensures done { Tells S.Store self.new.connection → OnOk result ((was : Pages) → Holds S.Store self.old.connection self.old.settled self.old.table was → Keeps (Holds S.Store self.new.connection self.new.settled self.new.table) (Leaves S.Store self.new.connection) (upgraded bounds.now was)) }
        ensures either { Tells S.Store self.new.connection → IsErrOf result KeepError.Fault → (was : Pages) → Holds S.Store self.old.connection self.old.settled self.old.table was → LeavesEither (Leaves S.Store self.new.connection) was (upgraded bounds.now was) }
        ensures untold { IsErrOf result KeepError.Fault → TellsNone (Holds S.Store self.new.connection self.new.settled self.new.table) }
        ensures same { Tells S.Store self.new.connection → IsErrOf result KeepError.Memory → TellsStill (Holds S.Store self.old.connection self.old.settled self.old.table) (Holds S.Store self.new.connection self.new.settled self.new.table) }
        ensures refused { Tells S.Store self.new.connection → IsErrOf result KeepError.Memory → LeavesNothingNew (Leaves S.Store self.old.connection) (Leaves S.Store self.new.connection) }
        ensures settles { OnOk result (IsTrue self.new.settled) }
        ensures unsettled { IsErrOf result KeepError.Fault → self.new.settled ≡ false }
        ensures stays { IsErrOf result KeepError.Memory → IsTrue self.new.settled }
        ensures cause { IsCaused self.old.faults self.new.faults (IsErrOf result KeepError.Fault) }
        ensures fault { Tells S.Store self.new.connection → IsErrOf result KeepError.Fault → FailsToUpgrade S.Store self.old.connection self.new.connection bounds.now }
    {
        let written = upgrade_through(self.alloc, &mut self.connection, bounds);
        self.answer_write(written, JournalTable::Second)
    }

    fn append(&mut self, entry: &Entry) -> Result<(), KeepError>
        requires settled { IsTrue self.old.settled }
        requires next { (was : Pages) → Holds S.Store self.old.connection self.old.settled self.old.table was → IsNext was entry.now }
        requires format { (was : Pages) → Holds S.Store self.old.connection self.old.settled self.old.table was → IsFirst was → entry.now.bound ≡ 0 }
        ensures connected { is_some self.new.connection ≡ is_some self.old.connection }
        ensures tells { Tells S.Store self.new.connection → Tells S.Store self.old.connection }
        ensures done { Tells S.Store self.new.connection → OnOk result ((was : Pages) → Holds S.Store self.old.connection self.old.settled self.old.table was → Keeps (Holds S.Store self.new.connection self.new.settled self.new.table) (Leaves S.Store self.new.connection) (with_entry was entry.now)) }
        ensures either { Tells S.Store self.new.connection → IsErrOf result KeepError.Fault → (was : Pages) → Holds S.Store self.old.connection self.old.settled self.old.table was → LeavesEither (Leaves S.Store self.new.connection) was (with_entry was entry.now) }
        ensures untold { IsErrOf result KeepError.Fault → TellsNone (Holds S.Store self.new.connection self.new.settled self.new.table) }
        ensures same { Tells S.Store self.new.connection → IsErrOf result KeepError.Memory → TellsStill (Holds S.Store self.old.connection self.old.settled self.old.table) (Holds S.Store self.new.connection self.new.settled self.new.table) }
        ensures refused { Tells S.Store self.new.connection → IsErrOf result KeepError.Memory → LeavesNothingNew (Leaves S.Store self.old.connection) (Leaves S.Store self.new.connection) }
        ensures settles { OnOk result (IsTrue self.new.settled) }
        ensures unsettled { IsErrOf result KeepError.Fault → self.new.settled ≡ false }
        ensures stays { IsErrOf result KeepError.Memory → IsTrue self.new.settled }
        ensures cause { IsCaused self.old.faults self.new.faults (IsErrOf result KeepError.Fault) }
        ensures fault { Tells S.Store self.new.connection → IsErrOf result KeepError.Fault → IsNotAppended S.Store self.old.table self.old.connection self.new.connection entry.now }
    {
        let written = append_through(&mut self.connection, self.table, entry);
        self.answer_write(written, self.table)
    }

    fn settled(&self) -> bool {
        self.settled
    }
}
