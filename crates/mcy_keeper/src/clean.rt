//! A keeper in memory that never fails.
//!
//! `book` is the book that it keeps, and what a crash would leave; `settled` is whether it was loaded.
ghost use Rattle.std.specs.Prelude.{◌≡◌, Some, false};
ghost use Rattle.std.proofs.Common.{refl, sym, ◌∙◌};
ghost use Rattle.mcy_keeper.specs.Books.{blank};

use crate::book::{Book, BoundList, Entry};
use crate::keeper::{KeepError, Keeper};
use mcy_base::BytesList;
use std::alloc::Global;
use std::marker::Model;

/// A keeper in memory that never fails: only memory can be wanting.
#[derive(Drop)]
pub struct CleanKeeper {
    alloc: Global,
    book: Book,
    settled: bool,
}

impl Model for CleanKeeper {
    ghost use Rattle.mcy_keeper.specs.CleanKeeper.{Kept};

    ghost Value = { Kept };

    ghost view = { λ k. record { book = k.book; settled = k.settled } };
}

impl CleanKeeper {
    /// A keeper of the empty book.
    pub fn new(alloc: Global) -> CleanKeeper
        ensures { result ≡ record { book = blank; settled = false } }
    {
        CleanKeeper {
            alloc,
            book: Book::new(alloc),
            settled: false,
        }
    }

    /// The book that is kept. It takes no memory.
    pub fn held(&self) -> &Book
        ensures { result.now ≡ self.now.book }
    {
        &self.book
    }
}

impl Keeper for CleanKeeper {
    ghost tells = { λ _. Unit {0} };

    ghost holds = { λ k b. b ≡ k.book };

    ghost leaves = { λ k b. b ≡ Some k.book };

    ghost is_settled = { λ k. k.settled };

    ghost faults = { λ _. 0 };

    ghost one = { λ k a b p q. p ∙ sym q };

    ghost told = { λ k b h. tt };

    ghost survives = { λ k t none. none (Some k.book) refl };

    fn load(&mut self) -> Result<Book, KeepError> {
        let copy = self.book.copy(self.alloc)?;
        self.settled = true;
        Ok(copy)
    }

    fn begin(&mut self, meta: &BytesList, mutations: &BytesList) -> Result<(), KeepError> {
        self.book = Book::begun(self.alloc, meta, mutations)?;
        Ok(())
    }

    fn upgrade(&mut self, bounds: &BoundList) -> Result<(), KeepError> {
        self.book = self.book.upgraded(self.alloc, bounds)?;
        Ok(())
    }

    fn append(&mut self, entry: &Entry) -> Result<(), KeepError> {
        self.book.journal.push(*entry)?;
        Ok(())
    }

    fn settled(&self) -> bool {
        self.settled
    }
}
