//! A keeper of the book in a database that is opened at the first load.
//!
//! `place` is the opener before the first load, and after it the keeper over the connection, or over none where
//! the opening was refused. Nothing is opened, made or read before the first load, so a call that ends without one
//! touches no file. Before it the keeper tells no book, and a crash leaves what the opener may find. `fault` is why
//! the first fault came.
ghost use Rattle.std.specs.Prelude.{◌≡◌, ◌↔◌, IfOk, IsErr, IsErrOf, IsTrue, None, OnErr, OnOk, Option, Result, Some, false};
ghost use Rattle.sqlite.specs.Tree.{Trees};
ghost use Rattle.sqlite.specs.Held.{Held, state};
ghost use Rattle.mcy_keeper.specs.declared.book.Book.{Book as Pages};
ghost use Rattle.mcy_base.specs.Causes.{IsCaused};
ghost use Rattle.mcy_keeper.specs.Books.{Keeps, LeavesNothingNew, TellsNone};
ghost use Rattle.keeper_opening.specs.Found.{Finds, HasNoTables, MayBeFound};
ghost use Rattle.keeper_opening.specs.Places.{connection_in, fault_of, is_settled, faults, noted_cause, Answers, Connects, IsUnanswered, KeeperHolds, KeeperLeaves, KeeperTells, Opens, PlaceHolds, PlaceLeaves, PlaceTells, place_one, place_survives, place_told};

use keeper_sqlite::SqlKeeper;
use mcy_base::BytesList;
use mcy_keeper::{Book, BoundList, Entry, KeepError, Keeper};
use sqlite::{Alter, Connection};
use std::alloc::{AllocError, Global};

/// Why a database has failed.
#[derive(Clone, Copy, Debug, PartialEq, Eq)]
pub enum DatabaseFault {
    /// Another program has it open.
    Locked,
    /// What is there is no database, is damaged, or holds no book.
    NoBook,
    /// It cannot be read or written.
    NoAccess,
}

/// Why a database was not opened.
#[derive(Clone, Copy, Debug, PartialEq, Eq)]
pub enum OpenError {
    /// There was no memory.
    Memory,
    /// The database was refused.
    Refused(DatabaseFault),
}

/// What opens a database.
pub trait Opener<S: Alter + Drop>: Drop {
    ghost use Rattle.keeper_opening.specs.declared.opening.OpenError.{OpenError};

    /// The trees that may be found.
    ghost found: { Self → Trees → Type 0 };

    /// What the opening may answer.
    ghost gives: { Self → Result (Held S) OpenError → Type 0 };

    /// Opens the database, which it makes where there is none.
    fn open(self) -> Result<Connection<S>, OpenError>
        ensures found { IfOk result (λ c. Finds (found self) (state S.Store c)) }
        ensures given { gives self result };
}

/// Before the first load, or after it.
#[derive(Drop)]
enum Place<S: Alter + Drop, O: Opener<S>> {
    Closed(O),
    Opened(SqlKeeper<S>),
}

/// A keeper of the book in a database that is opened at the first load.
#[derive(Drop)]
pub struct OpeningKeeper<S: Alter + Drop, O: Opener<S>> {
    alloc: Global,
    place: Place<S, O>,
    fault: Option<DatabaseFault>,
}

/// Why a load over this connection is a fault, if it is one: of a database without tables, that they cannot be made, and of
/// another one that it holds no book.
fn fault_of_load<S: Alter>(connection: &Connection<S>) -> DatabaseFault
    ensures no_access { HasNoTables (state S.Store connection.now).now.schema → result ≡ DatabaseFault.NoAccess }
    ensures no_book { (HasNoTables (state S.Store connection.now).now.schema → ⊥) → result ≡ DatabaseFault.NoBook }
{
    let schema = connection.schema();
    if schema.tables.is_empty() && schema.views.is_empty() {
        DatabaseFault::NoAccess
    } else {
        DatabaseFault::NoBook
    }
}

/// The cause, where a load has answered a fault.
fn noted_cause(loaded: &Result<Book, KeepError>, cause: DatabaseFault) -> Option<DatabaseFault>
    ensures { result ≡ noted_cause loaded.now cause }
{
    match loaded {
        Err(KeepError::Fault) => Some(cause),
        _ => None,
    }
}

impl<S: Alter + Drop, O: Opener<S>> Place<S, O> {
    /// The keeper after the opening, and why a load of it answers a fault.
    fn opened(self, alloc: Global) -> Result<(SqlKeeper<S>, DatabaseFault), AllocError>
        ensures opens { IfOk result (λ it. Opens S.Store O.found self it.0) }
        ensures answers { IfOk result (λ it. Answers O.gives self it.0.connection (λ fault. it.1 ≡ fault)) }
        ensures closed { IsErr result → (is_settled self ≡ false) × (faults self ≡ 0) }
        ensures unanswered { IsErr result → IsUnanswered O.gives self }
    {
        match self {
            Place::Opened(keeper) => Ok((keeper, DatabaseFault::NoBook)),
            Place::Closed(opener) => match opener.open() {
                Ok(connection) => {
                    let fault = fault_of_load(&connection);
                    Ok((SqlKeeper::adopt(alloc, Some(connection)), fault))
                }
                Err(OpenError::Memory) => Err(AllocError),
                Err(OpenError::Refused(fault)) => Ok((SqlKeeper::adopt(alloc, None), fault)),
            },
        }
    }
}

impl<S: Alter + Drop, O: Opener<S>> OpeningKeeper<S, O> {
    /// The keeper, which has opened nothing. It takes no memory, and neither reads nor writes.
    pub fn new(alloc: Global, opener: O) -> OpeningKeeper<S, O>
        ensures tells { ⟦<OpeningKeeper<S, O> as Keeper>⟧.tells result }
        ensures untold { TellsNone (⟦<OpeningKeeper<S, O> as Keeper>⟧.holds result) }
        ensures leaves { (left : Option Pages) → ⟦<OpeningKeeper<S, O> as Keeper>⟧.leaves result left ↔ MayBeFound (O.found opener) left }
        ensures unsettled { ⟦<OpeningKeeper<S, O> as Keeper>⟧.is_settled result ≡ false }
        ensures uncounted { ⟦<OpeningKeeper<S, O> as Keeper>⟧.faults result ≡ 0 }
        ensures fault { fault_of result ≡ None }
    {
        OpeningKeeper {
            alloc,
            place: Place::Closed(opener),
            fault: None,
        }
    }

    /// Why the first fault came, if there was one.
    pub fn fault(&self) -> Option<DatabaseFault>
        ensures { result ≡ fault_of self.now }
    {
        self.fault
    }

    /// The connection, given back, if there is one.
    pub fn into_connection(self) -> Option<Connection<S>>
        ensures { result ≡ connection_in self }
    {
        match self.place {
            Place::Closed(_) => None,
            Place::Opened(keeper) => keeper.into_connection(),
        }
    }

    /// Notes why a write has failed.
    fn note_write(&mut self, written: Result<(), KeepError>) -> Result<(), KeepError>
        ensures same { result ≡ written }
        ensures place { self.new.place ≡ self.old.place }
    {
        if let Err(KeepError::Fault) = written {
            self.fault = self.fault.or(Some(DatabaseFault::NoAccess));
        }
        written
    }
}

impl<S: Alter + Drop, O: Opener<S>> Keeper for OpeningKeeper<S, O> {
    ghost tells = { λ k. PlaceTells S.Store k.place };

    ghost holds = { λ k. PlaceHolds S.Store k.place };

    ghost leaves = { λ k. PlaceLeaves S.Store O.found k.place };

    ghost is_settled = { λ k. is_settled k.place };

    ghost faults = { λ k. faults k.place };

    ghost one = { λ k. place_one (record { view = S.Store.view; faults = S.Store.faults; recovers = S.Store.recovers; is_shielded = S.Store.is_shielded; is_step = S.Store.is_step; blamed = S.Store.blamed; names = S.Store.names }) k.place };

    ghost told = { λ k. place_told (record { view = S.Store.view; faults = S.Store.faults; recovers = S.Store.recovers; is_shielded = S.Store.is_shielded; is_step = S.Store.is_step; blamed = S.Store.blamed; names = S.Store.names }) k.place };

    ghost survives = { λ k. place_survives (record { view = S.Store.view; faults = S.Store.faults; recovers = S.Store.recovers; is_shielded = S.Store.is_shielded; is_step = S.Store.is_step; blamed = S.Store.blamed; names = S.Store.names }) S.Store.survives O.found k.place };

    fn load(&mut self) -> Result<Book, KeepError>
        ensures connected { Connects O.gives self.old self.new result }
        ensures tells { KeeperTells S.Store self.new → KeeperTells S.Store self.old }
        ensures answer { KeeperTells S.Store self.new → IfOk result (Keeps (KeeperHolds S.Store self.new) (KeeperLeaves S.Store O.found self.new)) }
        ensures same { KeeperTells S.Store self.new → IfOk result (λ found. (was : Pages) → KeeperHolds S.Store self.old was → found ≡ was) }
        ensures allowed { KeeperTells S.Store self.new → IfOk result (λ found. KeeperLeaves S.Store O.found self.old (Some found)) }
        ensures refused { KeeperTells S.Store self.new → OnErr result (LeavesNothingNew (KeeperLeaves S.Store O.found self.old) (KeeperLeaves S.Store O.found self.new)) }
        ensures settles { OnOk result (IsTrue (is_settled self.new.place)) }
        ensures stays { OnErr result (is_settled self.new.place ≡ is_settled self.old.place) }
        ensures cause { IsCaused (faults self.old.place) (faults self.new.place) (IsErrOf result KeepError.Fault) }
    {
        let nothing = Place::Opened(SqlKeeper::adopt(self.alloc, None));
        let place = std::mem::replace(&mut self.place, nothing);
        let (mut keeper, fault) = match place.opened(self.alloc) {
            Ok(opened) => opened,
            Err(AllocError) => return Err(KeepError::Memory),
        };
        let loaded = keeper.load();
        self.fault = self.fault.or(noted_cause(&loaded, fault));
        self.place = Place::Opened(keeper);
        loaded
    }

    fn begin(&mut self, meta: &BytesList, mutations: &BytesList) -> Result<(), KeepError> {
        let written = match &mut self.place {
            Place::Opened(keeper) => keeper.begin(meta, mutations),
            Place::Closed(_) => unreachable!(),
        };
        self.note_write(written)
    }

    fn upgrade(&mut self, bounds: &BoundList) -> Result<(), KeepError> {
        let written = match &mut self.place {
            Place::Opened(keeper) => keeper.upgrade(bounds),
            Place::Closed(_) => unreachable!(),
        };
        self.note_write(written)
    }

    fn append(&mut self, entry: &Entry) -> Result<(), KeepError> {
        let written = match &mut self.place {
            Place::Opened(keeper) => keeper.append(entry),
            Place::Closed(_) => unreachable!(),
        };
        self.note_write(written)
    }

    fn settled(&self) -> bool {
        match &self.place {
            Place::Opened(keeper) => keeper.settled(),
            Place::Closed(_) => false,
        }
    }
}

/// Before the first load it tells, and no book; after it, what the keeper over its connection tells.
pub fn opening_keepers_tell<S: Alter + Drop, O: Opener<S>>(keeper: &OpeningKeeper<S, O>)
    ensures tells { ⟦<OpeningKeeper<S, O> as Keeper>⟧.tells keeper.now ↔ KeeperTells S.Store keeper.now }
    ensures holds { (b : Pages) → ⟦<OpeningKeeper<S, O> as Keeper>⟧.holds keeper.now b ↔ KeeperHolds S.Store keeper.now b }
    ensures leaves { (left : Option Pages) → ⟦<OpeningKeeper<S, O> as Keeper>⟧.leaves keeper.now left ↔ KeeperLeaves S.Store O.found keeper.now left }
{
    let _ = keeper;
}
