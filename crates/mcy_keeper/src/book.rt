//! The book of a campaign: what is kept over stops and crashes.
//!
//! `meta` says what the campaign is about, `mutations` which mutations were selected, and `journal`
//! what was found, row by row. A book of which all three are empty is one that has not begun. No entry
//! is ever taken out of a book: it begins once, and its journal grows at the end. A book is of one of two
//! formats, whose number is item 0 of `meta`; in the first no row has a bound. Its upgrade to the second
//! alone changes rows, and in them the bound alone.
ghost use Rattle.std.specs.Prelude.{◌≡◌, ◌↔◌, IsTrue, IfOk};
ghost use Rattle.mcy_keeper.specs.Books.{IsBlank, IsFirst, IsSecond, begun, blank, upgraded};

use crate::formats::{FIRST, SECOND, begins_with, in_second, with_bounds};
use mcy_base::{BytesList, Items};
use std::alloc::{AllocError, Global};

/// A row of the journal: how a test went on a mutation, and what came of it.
#[derive(Clone, Copy, Debug, PartialEq, Eq)]
pub struct Entry {
    /// The row's place in the journal, counted from 0.
    pub seq: u32,
    /// The mutation, counted from 0 in the order of the book.
    pub mutation: u32,
    /// The test, counted from 0 in the order of the project.
    pub test: u32,
    /// The test's word: 0 PASS, 1 FAIL, 2 HANG, 3 UNKNOWN.
    pub word: u32,
    /// How the tag script stands after this row: 0 needs more, 1 done, 2 ended by an unexpected
    /// word, 16 + n ended by the assertion at its line n.
    pub mark: u32,
    /// The tags that the script gave, tag i in bit i; 0 unless `mark` is 1.
    pub tags: u32,
    /// The limit under which the word was found; 0 for a simulation, and in the first format.
    pub bound: u32,
}

/// The rows of a journal, oldest first.
pub type Journal = Items<Entry>;

/// Bounds, the one in each place for the row in that place.
pub type BoundList = Items<u32>;

/// What a campaign keeps.
#[derive(Drop)]
pub struct Book {
    /// What the campaign is about. Item 0 is the number of this format.
    pub meta: BytesList,
    /// The place of each mutation, as text.
    pub mutations: BytesList,
    /// What was found so far.
    pub journal: Journal,
}

impl Book {
    /// The empty book.
    pub fn new(alloc: Global) -> Book
        ensures { result ≡ blank }
    {
        Book {
            meta: BytesList::from_vec(Vec::new(alloc)),
            mutations: BytesList::from_vec(Vec::new(alloc)),
            journal: Journal::from_vec(Vec::new(alloc)),
        }
    }

    /// Whether the book is empty, as one that has not begun.
    pub fn is_blank(&self) -> bool
        ensures { IsTrue result ↔ IsBlank self.now }
    {
        self.meta.as_slice().is_empty()
            && self.mutations.as_slice().is_empty()
            && self.journal.as_slice().is_empty()
    }

    /// The book that has just begun.
    pub(crate) fn begun(
        alloc: Global,
        meta: &BytesList,
        mutations: &BytesList,
    ) -> Result<Book, AllocError>
        ensures { IfOk result (λ b. b ≡ begun meta.now mutations.now) }
    {
        Ok(Book {
            meta: meta.copy(alloc)?,
            mutations: mutations.copy(alloc)?,
            journal: Journal::from_vec(Vec::new(alloc)),
        })
    }

    /// Whether the book is of the first format.
    pub fn is_first(&self) -> bool
        ensures { IsTrue result ↔ IsFirst self.now }
    {
        begins_with(FIRST, self.meta.as_slice())
    }

    /// Whether the book is of the second format.
    pub fn is_second(&self) -> bool
        ensures { IsTrue result ↔ IsSecond self.now }
    {
        begins_with(SECOND, self.meta.as_slice())
    }

    /// The book in the second format, with these bounds.
    pub(crate) fn upgraded(&self, alloc: Global, bounds: &BoundList) -> Result<Book, AllocError>
        ensures { IfOk result (λ b. b ≡ upgraded bounds.now self.now) }
    {
        Ok(Book {
            meta: in_second(alloc, self.meta.as_slice())?,
            mutations: self.mutations.copy(alloc)?,
            journal: with_bounds(alloc, bounds.as_slice(), self.journal.as_slice())?,
        })
    }

    /// The same book.
    pub fn copy(&self, alloc: Global) -> Result<Book, AllocError>
        ensures { IfOk result (λ b. b ≡ self.now) }
    {
        Ok(Book {
            meta: self.meta.copy(alloc)?,
            mutations: self.mutations.copy(alloc)?,
            journal: Journal::from_vec(self.journal.as_slice().to_vec(alloc)?),
        })
    }
}
