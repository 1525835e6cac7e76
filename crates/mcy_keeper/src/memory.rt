//! A keeper in memory whose calls fail by a list, so that tests can make each call fail in turn.
//!
//! `book` is the book that it keeps, and what a crash would leave. `told` is whether it tells that book: no
//! write has failed since the last load. `settled` is whether a load has ended well and no write has
//! failed since. `failing` has the numbers of the calls that fail, each with whether a write leaves the new
//! book all the same; `next` is the number of the next call, `None` once no `u64` numbers it; `faults` is
//! how many calls have failed.
ghost use Rattle.std.specs.Prelude.{◌≡◌, Some, true, false, IsTrue};
ghost use Rattle.std.proofs.Common.{refl, sym, ◌∙◌};
ghost use Rattle.mcy_base.specs.Causes.{one_more};
ghost use Rattle.mcy_keeper.specs.Books.{begun, blank, upgraded, with_entry};
ghost use Rattle.mcy_keeper.specs.MemoryKeeper.{Loads, Writes, called, failure};

use crate::book::{Book, BoundList, Entry};
use crate::keeper::{KeepError, Keeper};
use mcy_base::{BytesList, at_call, call_after};
use std::alloc::Global;
use std::marker::Model;

/// A keeper in memory whose calls fail by a list.
///
/// It counts all its calls other than `settled`, from 0. A call that the list numbers answers `Fault`, and
/// no other call does; where its flag is true, a `begin`, an `append` or an `upgrade` leaves the new book all
/// the same. Where there is no memory for that new book, the call answers `Memory` and leaves the old one.
#[derive(Drop)]
pub struct MemoryKeeper {
    alloc: Global,
    book: Book,
    told: bool,
    settled: bool,
    failing: Vec<(u64, bool)>,
    next: Option<u64>,
    faults: u64,
}

impl Model for MemoryKeeper {
    ghost use Rattle.mcy_keeper.specs.MemoryKeeper.{ScriptedKeeper};

    ghost Value = { ScriptedKeeper };

    ghost view = { λ k. record { book = k.book; told = k.told; settled = k.settled; failing = k.failing.items; next = k.next; faults = k.faults } };
}

impl MemoryKeeper {
    /// A keeper of the empty book.
    pub fn new(alloc: Global, failing: Vec<(u64, bool)>) -> MemoryKeeper
        ensures { result ≡ record { book = blank; told = true; settled = false; failing = failing.items; next = Some 0; faults = 0 } }
    {
        MemoryKeeper::holding(alloc, Book::new(alloc), failing)
    }

    /// A keeper of this book.
    pub fn holding(alloc: Global, book: Book, failing: Vec<(u64, bool)>) -> MemoryKeeper
        ensures { result ≡ record { book = book; told = true; settled = false; failing = failing.items; next = Some 0; faults = 0 } }
    {
        MemoryKeeper {
            alloc,
            book,
            told: true,
            settled: false,
            failing,
            next: Some(0),
            faults: 0,
        }
    }

    /// The book that is kept. It takes no memory, and counts as no call.
    pub fn held(&self) -> &Book
        ensures { result.now ≡ self.now.book }
    {
        &self.book
    }

    /// Counts a call. Some where it is one that fails.
    fn count_call(&mut self) -> Option<bool>
        ensures failure { result ≡ failure self.old }
        ensures same { self.new ≡ called self.old }
    {
        let failure = at_call(self.failing.as_slice(), self.next);
        self.next = call_after(self.next);
        failure
    }

    /// Counts a call that failed.
    fn count_fault(&mut self)
        ensures { self.new ≡ record self.old { faults = one_more self.old.faults } }
    {
        self.faults = self.faults.saturating_add(1);
    }

    /// Counts a write that failed.
    fn fail_write(&mut self)
        ensures { self.new ≡ record self.old { told = false; settled = false; faults = one_more self.old.faults } }
    {
        self.told = false;
        self.settled = false;
        self.count_fault();
    }
}

impl Keeper for MemoryKeeper {
    ghost tells = { λ _. Unit {0} };

    ghost holds = { λ k b. IsTrue k.told × (b ≡ k.book) };

    ghost leaves = { λ k b. b ≡ Some k.book };

    ghost is_settled = { λ k. k.settled };

    ghost faults = { λ k. k.faults };

    ghost one = { λ k a b p q. p.1 ∙ sym q.1 };

    ghost told = { λ k b h. tt };

    ghost survives = { λ k t none. none (Some k.book) refl };

    fn load(&mut self) -> Result<Book, KeepError>
        ensures { Loads self.old self.new result }
    {
        if self.count_call().is_some() {
            self.count_fault();
            return Err(KeepError::Fault);
        }
        let copy = self.book.copy(self.alloc)?;
        self.told = true;
        self.settled = true;
        Ok(copy)
    }

    fn begin(&mut self, meta: &BytesList, mutations: &BytesList) -> Result<(), KeepError>
        ensures { Writes self.old self.new (begun meta.now mutations.now) result }
    {
        match self.count_call() {
            None => {
                self.book = Book::begun(self.alloc, meta, mutations)?;
                Ok(())
            }
            Some(whole) => {
                if whole {
                    self.book = Book::begun(self.alloc, meta, mutations)?;
                }
                self.fail_write();
                Err(KeepError::Fault)
            }
        }
    }

    fn upgrade(&mut self, bounds: &BoundList) -> Result<(), KeepError>
        ensures { Writes self.old self.new (upgraded bounds.now self.old.book) result }
    {
        match self.count_call() {
            None => {
                self.book = self.book.upgraded(self.alloc, bounds)?;
                Ok(())
            }
            Some(whole) => {
                if whole {
                    self.book = self.book.upgraded(self.alloc, bounds)?;
                }
                self.fail_write();
                Err(KeepError::Fault)
            }
        }
    }

    fn append(&mut self, entry: &Entry) -> Result<(), KeepError>
        ensures { Writes self.old self.new (with_entry self.old.book entry.now) result }
    {
        match self.count_call() {
            None => {
                self.book.journal.push(*entry)?;
                Ok(())
            }
            Some(whole) => {
                if whole {
                    self.book.journal.push(*entry)?;
                }
                self.fail_write();
                Err(KeepError::Fault)
            }
        }
    }

    fn settled(&self) -> bool {
        self.settled
    }
}
