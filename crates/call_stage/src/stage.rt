//! What the next call finds: files, a book, and which of its calls fail.
//!
//! | statement | what it does |
//! |---|---|
//! | `new` | There are no files, the book is empty, and nothing fails. |
//! | `hold NAME TEXT` | There is this file; `~` stands for the end of a line. |
//! | `spread NAME COUNT TEXT\UNIT\TEXT ..` | There is this file, with so many of each unit; in one `#` stands for its number, from 1, and `?` for the number before, and `%` everywhere for the end of a line. |
//! | `fill NAME BYTE COUNT` | There is this file, of so many equal bytes. |
//! | `bytes NAME BYTE ..` | There is this file, of these bytes. |
//! | `wide NAME INPUTS AGAIN` | There is this file, a source with so many inputs, one of them twice where AGAIN is 1. |
//! | `forget` | There are no files. |
//! | `row SEQ MUTATION TEST WORD MARK TAGS BOUND` | The book has this row more. |
//! | `unrow` | The book has no rows. |
//! | `format TEXT` | Item 0 of the book is this text, and where that is `1` no row has a bound. |
//! | `fail-read CALL` | This read of the next call fails, counted from 0. |
//! | `fail-keeper CALL WHOLE` | This call of the keeper fails, and leaves the new book where WHOLE is 1. |
//! | `fail-write CALL BYTES` | This write fails after so many bytes. |
use crate::content::{file_bytes, numbers_of};
use crate::world::World;
use mcy_base::{Bytes, BytesList, FileList, SourceFile, Text};
use mcy_keeper::{Book, Entry, Journal, MemoryKeeper};
use mcy_outside::{MemoryFiles, MemorySink};
use std::alloc::{AllocError, Global};

/// For how many bytes a sink has room.
const ROOM: usize = 4096;

/// What the next call finds.
pub struct Stage {
    alloc: Global,
    files: Vec<SourceFile>,
    book: Book,
    /// The numbers of the reads that fail.
    reads: Vec<u64>,
    /// The numbers of the keeper's calls that fail, each with whether it leaves the new book.
    keeps: Vec<(u64, bool)>,
    /// The numbers of the writes that fail, each with how many bytes it still takes.
    writes: Vec<(u64, u32)>,
}

impl Drop for Stage {
    fn drop(self) {
        let Stage {
            alloc: _,
            files: _files,
            book: _book,
            reads: _reads,
            keeps: _keeps,
            writes: _writes,
        } = self;
    }
}

/// A copy of a file.
fn copy_of(alloc: Global, file: &SourceFile) -> Result<SourceFile, AllocError> {
    Ok(SourceFile {
        name: Text::copy(alloc, file.name.as_str())?,
        bytes: Bytes::copy(alloc, file.bytes.as_slice())?,
    })
}

impl Stage {
    /// No files, the empty book, and nothing that fails.
    pub fn new(alloc: Global) -> Stage {
        Stage {
            alloc,
            files: Vec::new(alloc),
            book: Book::new(alloc),
            reads: Vec::new(alloc),
            keeps: Vec::new(alloc),
            writes: Vec::new(alloc),
        }
    }

    /// The book.
    pub fn book(&self) -> &Book {
        &self.book
    }

    /// Copies of the files.
    fn copies(&self) -> Result<FileList, AllocError> {
        let mut files = Vec::new(self.alloc);
        for file in &self.files {
            files.push(copy_of(self.alloc, file)?)?;
        }
        Ok(FileList::from_vec(files))
    }

    /// The files, of which the listed reads fail.
    fn files(&self) -> Result<MemoryFiles, AllocError> {
        let reads = self.reads.to_vec(self.alloc)?;
        Ok(MemoryFiles::new(self.alloc, self.copies()?, reads))
    }

    /// A keeper of the book, whose listed calls fail.
    fn keeper(&self) -> Result<MemoryKeeper, AllocError> {
        let keeps = self.keeps.to_vec(self.alloc)?;
        Ok(MemoryKeeper::holding(self.alloc, self.book.copy(self.alloc)?, keeps))
    }

    /// A sink, of whose writes the listed ones fail.
    fn sink(&self) -> Result<MemorySink, AllocError> {
        let writes = self.writes.to_vec(self.alloc)?;
        Ok(MemorySink::new(writes, Vec::with_capacity(self.alloc, ROOM)?))
    }

    /// What the next call is given.
    pub fn world(&self) -> Result<World, AllocError> {
        Ok(World {
            files: self.files()?,
            keeper: self.keeper()?,
            out: self.sink()?,
        })
    }

    /// Keeps this book. Nothing fails in the call after this one.
    pub fn keep(&mut self, book: &Book) -> Result<(), AllocError> {
        self.book = book.copy(self.alloc)?;
        self.reads = Vec::new(self.alloc);
        self.keeps = Vec::new(self.alloc);
        self.writes = Vec::new(self.alloc);
        Ok(())
    }

    /// Begins anew.
    fn begin(&mut self) {
        *self = Stage::new(self.alloc);
    }

    /// Lets go of the files.
    fn forget(&mut self) {
        self.files = Vec::new(self.alloc);
    }

    /// Lets go of the rows of the book.
    fn unrow(&mut self) {
        self.book.journal = Journal::from_vec(Vec::new(self.alloc));
    }

    /// Gives the book another number of its format.
    fn set_format(&mut self, number: &str) -> Result<(), AllocError> {
        let mut meta = Vec::new(self.alloc);
        meta.push(Bytes::copy(self.alloc, number.as_bytes())?)?;
        for item in self.book.meta.as_slice().iter().skip(1) {
            meta.push(Bytes::copy(self.alloc, item.as_slice())?)?;
        }
        self.book.meta = BytesList::from_vec(meta);
        if number == "1" {
            self.take_bounds()?;
        }
        Ok(())
    }

    /// Takes the bounds of the rows away.
    fn take_bounds(&mut self) -> Result<(), AllocError> {
        let mut rows = self.book.journal.as_slice().to_vec(self.alloc)?;
        for row in rows.iter_mut() {
            row.bound = 0;
        }
        self.book.journal = Journal::from_vec(rows);
        Ok(())
    }

    /// Holds a file of these bytes.
    fn hold(&mut self, name: &str, bytes: Vec<u8>) -> Result<(), AllocError> {
        let file = SourceFile {
            name: Text::copy(self.alloc, name)?,
            bytes: Bytes::from_vec(bytes),
        };
        self.files.push(file)?;
        Ok(())
    }

    /// Carries out a statement that only changes what the next call finds. False where it is none.
    pub fn prepare(&mut self, verb: &str, rest: &str) -> Result<bool, AllocError> {
        match verb {
            "new" => self.begin(),
            "forget" => self.forget(),
            "unrow" => self.unrow(),
            "format" => self.set_format(rest)?,
            "hold" | "spread" | "fill" | "bytes" | "wide" => return self.hold_file(verb, rest),
            _ => return self.list(verb, rest),
        }
        Ok(true)
    }

    /// Holds the file that a statement gives.
    fn hold_file(&mut self, verb: &str, rest: &str) -> Result<bool, AllocError> {
        let Some((name, content)) = rest.split_once(' ') else {
            return Ok(false);
        };
        let bytes = file_bytes(self.alloc, verb, content)?;
        self.hold(name, bytes)?;
        Ok(true)
    }

    /// Lists a row, or a call that fails.
    fn list(&mut self, verb: &str, rest: &str) -> Result<bool, AllocError> {
        let numbers = numbers_of(self.alloc, rest)?;
        match verb {
            "row" => self.list_row(numbers.as_slice()),
            "fail-read" => self.list_read(numbers.as_slice()),
            "fail-keeper" => self.list_keep(numbers.as_slice()),
            "fail-write" => self.list_write(numbers.as_slice()),
            _ => Ok(false),
        }
    }

    /// Lists a row.
    fn list_row(&mut self, numbers: &[u32]) -> Result<bool, AllocError> {
        let [seq, mutation, test, word, mark, tags, bound] = numbers else {
            return Ok(false);
        };
        self.book.journal.push(Entry {
            seq: *seq,
            mutation: *mutation,
            test: *test,
            word: *word,
            mark: *mark,
            tags: *tags,
            bound: *bound,
        })?;
        Ok(true)
    }

    /// Lists a read that fails.
    fn list_read(&mut self, numbers: &[u32]) -> Result<bool, AllocError> {
        let [call] = numbers else {
            return Ok(false);
        };
        self.reads.push(u64::from(*call))?;
        Ok(true)
    }

    /// Lists a call of the keeper that fails.
    fn list_keep(&mut self, numbers: &[u32]) -> Result<bool, AllocError> {
        let [call, whole] = numbers else {
            return Ok(false);
        };
        self.keeps.push((u64::from(*call), *whole == 1))?;
        Ok(true)
    }

    /// Lists a write that fails.
    fn list_write(&mut self, numbers: &[u32]) -> Result<bool, AllocError> {
        let [call, bytes] = numbers else {
            return Ok(false);
        };
        self.writes.push((u64::from(*call), *bytes))?;
        Ok(true)
    }
}
