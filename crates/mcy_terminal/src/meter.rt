//! How far a running campaign is, told on standard error where that is a terminal, at most ten times a second.
//!
//! It is one line, which is written over itself and cleared after the last row, before the call writes its text. The cursor waits below
//! it, so that a call which is cut off leaves a whole line. Behind the text lines tell what to do next (`next`). Nothing else depends on it:
//! it is told of the rows that were added, reads the clock, and passes over what goes wrong with either, or want of memory.
use crate::look::Look;
use crate::marks::Marks;
use crate::next::{project_of, tell_project, tell_unfinished, tell_unknown};
use command_words::MutationNumbers;
use mcy_base::BytesList;
use mcy_keeper::{Book, Entry};
use mcy_outside::SourceFiles;
use std::alloc::Global;
use std::io;
use std::rt::Clock;
use std::str::from_utf8;
use std::time::{Duration, Instant};
use watched_keeper::Watcher;

/// For how many milliseconds the line stands at least.
const PAUSE: u64 = 100;

/// Leads from below the line back to it.
const BACK: &str = "\x1b[A";

/// When rows began to be added, how many mutations were left then, and when the line was written last, if it was.
#[derive(Clone, Copy)]
struct Pace {
    begun: Instant,
    left: u64,
    written: Option<Instant>,
}

impl Pace {
    /// Whether the line was written too short a time ago.
    fn is_too_early(&self, now: Instant) -> bool {
        match self.written {
            Some(written) => millis(now.duration_since(written)) < PAUSE,
            None => false,
        }
    }
}

/// What the words of a call say that a meter of it takes account of.
#[derive(Drop)]
pub struct Asked {
    /// Whether the call tells the state of the campaign.
    pub is_of_status: bool,
    /// After how many tests it stops, if it was told so.
    pub stop_after: Option<u32>,
    /// Below which limit it asks tests again; 0 without one.
    pub retry: u32,
    /// The mutations that it looks at; none where it looks at all.
    pub mutations: MutationNumbers,
}

/// How far a campaign is.
#[derive(Drop)]
pub struct Meter<R, L> {
    rt: R,
    alloc: Global,
    /// Who tells which benches do not pass with the design itself.
    look: L,
    /// Whether standard error is a terminal.
    is_shown: bool,
    asked: Asked,
    mutations: u64,
    /// What the rows say; none where nothing is to be told.
    marks: Option<Marks>,
    /// How many tests ended in this call.
    tests: u32,
    /// Nothing, where nothing is to be told.
    pace: Option<Pace>,
}

/// How many milliseconds there are in a time.
fn millis(time: Duration) -> u64 {
    u64::try_from(time.as_millis()).unwrap_or(u64::MAX)
}

impl<R: Eprint + Clock, L: Look> Meter<R, L> {
    /// A meter of a call with these words; it is shown where standard error is a terminal.
    pub fn new(rt: R, alloc: Global, look: L, is_shown: bool, asked: Asked) -> Meter<R, L> {
        Meter {
            rt,
            alloc,
            look,
            is_shown,
            asked,
            mutations: 0,
            marks: None,
            tests: 0,
            pace: None,
        }
    }

    /// Begins with so many mutations and these rows.
    fn begin(&mut self, mutations: usize, rows: &[Entry]) {
        if !self.is_shown {
            return;
        }
        let named = self.asked.mutations.as_slice();
        let Ok(mut marks) = Marks::new(self.alloc, mutations, self.asked.retry, named) else {
            return;
        };
        for row in rows {
            marks.add(row);
        }
        if let Ok(now) = Instant::now(&self.rt) {
            self.pace = Some(Pace {
                begun: now,
                left: marks.left(),
                written: None,
            });
        }
        self.mutations = mutations as u64;
        self.marks = Some(marks);
    }

    /// Tells which benches do not pass with the design itself, where there are such.
    fn tell_benches(&mut self) {
        if !self.is_shown {
            return;
        }
        let Some(lines) = self.look.lines() else {
            return;
        };
        let told = from_utf8(lines.as_slice()).unwrap_or("");
        if !told.is_empty() {
            let _written = eprint!(self.rt; "mcy: the design itself does not pass: {told}");
        }
    }

    /// How many mutations are finished.
    fn finished(&self) -> u64 {
        match &self.marks {
            Some(marks) => marks.finished(),
            None => 0,
        }
    }

    /// How many mutations have a test that is to be run still.
    fn left(&self) -> u64 {
        match &self.marks {
            Some(marks) => marks.left(),
            None => 0,
        }
    }

    /// Whether no row is added after the last one.
    fn has_all(&self) -> bool {
        self.left() == 0 || self.asked.stop_after == Some(self.tests)
    }

    /// How many seconds are left at most, as far as the mutations that were done in this call tell it.
    fn seconds_left(&self, pace: Pace, spent: u64) -> Option<u64> {
        let left = self.left();
        let done = pace.left.saturating_sub(left);
        let millis = left.saturating_mul(spent).checked_div(done)?;
        Some(millis / 1000 + 1)
    }

    /// Writes the line in the place of the one before, and goes below it. The terminal cuts it at its width, since it begins no
    /// line by itself meanwhile.
    fn write(&self, pace: Pace, now: Instant) -> io::Result<()> {
        let spent = millis(now.duration_since(pace.begun));
        let tests = (self.tests as u64).saturating_mul(1000).checked_div(spent);
        let speed = tests.unwrap_or(0);
        let (finished, mutations) = (self.finished(), self.mutations);
        let back = if pace.written.is_some() { BACK } else { "" };
        match self.seconds_left(pace, spent) {
            Some(seconds) => eprint!(self.rt;
                "{back}\r\x1b[K\x1b[?7lmcy: {finished} of {mutations} finished, {speed} tests a second, {seconds} s left\x1b[?7h\n"
            ),
            None => eprint!(self.rt;
                "{back}\r\x1b[K\x1b[?7lmcy: {finished} of {mutations} finished, {speed} tests a second\x1b[?7h\n"
            ),
        }
    }

    /// Writes the line, where the last one has stood long enough.
    fn tell(&mut self, pace: Pace) -> io::Result<()> {
        let now = Instant::now(&self.rt)?;
        if pace.is_too_early(now) {
            return Ok(());
        }
        self.pace = Some(Pace {
            written: Some(now),
            ..pace
        });
        self.write(pace, now)
    }

    /// Clears the line. From here on nothing is told.
    pub fn end(&mut self) {
        if let Some(
            Pace {
                written: Some(_),
                ..
            },
        ) = self.pace.take()
        {
            let _written = eprint!(self.rt; "{BACK}\r\x1b[K");
        }
    }

    /// Tells what to do next, where this call tells the state of the campaign. A line that cannot be written is left out.
    pub fn tell_next<F: SourceFiles>(&self, files: &mut F) {
        let Some(marks) = &self.marks else {
            return;
        };
        if !self.asked.is_of_status {
            return;
        }
        if let Some(project) = project_of(self.alloc, files) {
            let _written = tell_project(&self.rt, &project, marks);
        }
        let _written = tell_unfinished(&self.rt, marks);
        let _written = tell_unknown(&self.rt, marks);
    }
}

impl<R: Eprint + Clock, L: Look> Watcher for Meter<R, L> {
    fn loaded(&mut self, book: &Book) {
        self.begin(book.mutations.as_slice().len(), book.journal.as_slice());
    }

    fn begun(&mut self, mutations: &BytesList) {
        self.tell_benches();
        self.begin(mutations.as_slice().len(), &[]);
    }

    fn added(&mut self, entry: &Entry) {
        self.tests = self.tests.saturating_add(1);
        if let Some(marks) = &mut self.marks {
            marks.add(entry);
        }
        if self.has_all() {
            self.end();
        } else if let Some(pace) = self.pace {
            // A line that cannot be written is left out.
            let _written = self.tell(pace);
        }
    }
}
