//! What the rows of a book say of its mutations, as far as a terminal is told of it.
//!
//! The last row of a mutation says whether it is finished and with which tags, and that of a test whether this is UNKNOWN and under which
//! bound. So a mutation counts once, whatever was asked again of it.
use mcy_keeper::Entry;
use result_book::{MAX_LIMIT, TestWord, is_limit};
use std::alloc::{AllocError, Global};

/// The mark of a row behind which a script has ended at a word that is not expected.
const UNEXPECTED: u32 = 2;

/// What is known of a mutation.
#[derive(Clone, Copy)]
struct Mark {
    /// Whether the call is to run its tests.
    is_wanted: bool,
    /// The mark and the tags of its last row.
    mark: u32,
    tags: u32,
    /// The bits of the tests that are UNKNOWN, of those among them that are asked again in this call, and of those that are HANG.
    unknown: u16,
    open: u16,
    hung: u16,
}

impl Mark {
    fn is_finished(self) -> bool {
        self.mark != 0
    }

    /// Whether a test of it is to be run still.
    fn is_left(self) -> bool {
        self.is_wanted && (!self.is_finished() || self.open != 0)
    }

    /// Whether its script has ended at a word that is not expected, and one of these tests is HANG.
    fn is_lost(self, tests: u16) -> bool {
        self.mark == UNEXPECTED && self.hung & tests != 0
    }
}

/// What is known of each mutation, and how many are finished and how many are left.
#[derive(Drop)]
pub(crate) struct Marks {
    marks: Vec<Mark>,
    /// A test that is UNKNOWN under less than this limit is asked again; 0 asks none again.
    retry: u32,
    finished: u64,
    left: u64,
    /// The greatest bound under which a test was UNKNOWN; 0 where no row tells it.
    bound: u32,
    /// The bits of the tests that gave a word, and of those that gave PASS.
    given: u16,
    passed: u16,
}

/// The bit with this number, of 16; no bit where there are not so many.
pub(crate) fn test_bit(test: usize) -> u16 {
    let test = u32::try_from(test).unwrap_or(u32::MAX);
    1u16.checked_shl(test).unwrap_or(0)
}

/// The bit with this number, of 32; no bit where there are not so many.
fn tag_bit(tag: usize) -> u32 {
    let tag = u32::try_from(tag).unwrap_or(u32::MAX);
    1u32.checked_shl(tag).unwrap_or(0)
}

/// The bits with this one, or without it.
fn with_bit(bits: u16, bit: u16, is_set: bool) -> u16 {
    if is_set { bits | bit } else { bits & !bit }
}

/// The count without one, and with one.
fn moved(count: u64, was: bool, is: bool) -> u64 {
    let without = count.saturating_sub(u64::from(was));
    without.saturating_add(u64::from(is))
}

/// The least limit of a retry that is twice this bound, or the greatest one; none where this is it already.
fn limit_above(bound: u32) -> Option<u32> {
    if bound >= MAX_LIMIT {
        return None;
    }
    let twice = bound.saturating_mul(2).min(MAX_LIMIT);
    (twice..MAX_LIMIT)
        .find(|limit| is_limit(*limit))
        .or(Some(MAX_LIMIT))
}

/// What is known of a mutation after a row of it more, in a call that asks tests again below this limit.
fn mark_after(old: Mark, row: &Entry, retry: u32) -> Mark {
    let bit = test_bit(row.test as usize);
    let is_unknown = row.word == TestWord::Unknown.code();
    Mark {
        is_wanted: old.is_wanted,
        mark: row.mark,
        tags: row.tags,
        unknown: with_bit(old.unknown, bit, is_unknown),
        open: with_bit(old.open, bit, is_unknown && row.bound < retry),
        hung: with_bit(old.hung, bit, row.word == TestWord::Hang.code()),
    }
}

/// So many mutations without rows, of which the call wants all or none.
fn blank_marks(alloc: Global, mutations: usize, is_wanted: bool) -> Result<Vec<Mark>, AllocError> {
    let mark = Mark {
        is_wanted,
        mark: 0,
        tags: 0,
        unknown: 0,
        open: 0,
        hung: 0,
    };
    vec![in alloc; mark; mutations]
}

/// The call wants the mutation with this number, from 1, too.
fn want(marks: &mut [Mark], number: u32) {
    let place = (number as usize).saturating_sub(1);
    if let Some(mark) = marks.get_mut(place) {
        mark.is_wanted = true;
    }
}

impl Marks {
    /// So many mutations without rows, in a call that asks tests again below this limit, and wants the mutations with these numbers,
    /// from 1, or all where there are none.
    pub(crate) fn new(
        alloc: Global,
        mutations: usize,
        retry: u32,
        named: &[u32],
    ) -> Result<Marks, AllocError> {
        let mut marks = blank_marks(alloc, mutations, named.is_empty())?;
        for number in named {
            want(&mut marks, *number);
        }
        let left = marks.iter().filter(|mark| mark.is_left()).count();
        Ok(Marks {
            marks,
            retry,
            finished: 0,
            left: left as u64,
            bound: 0,
            given: 0,
            passed: 0,
        })
    }

    /// One row more.
    pub(crate) fn add(&mut self, row: &Entry) {
        if let Some(mark) = self.marks.get_mut(row.mutation as usize) {
            let old = *mark;
            *mark = mark_after(old, row, self.retry);
            self.finished = moved(self.finished, old.is_finished(), mark.is_finished());
            self.left = moved(self.left, old.is_left(), mark.is_left());
        }
        self.add_word(row);
    }

    /// The word of a row more.
    fn add_word(&mut self, row: &Entry) {
        let bit = test_bit(row.test as usize);
        self.given |= bit;
        if row.word == TestWord::Pass.code() {
            self.passed |= bit;
        }
        if row.word == TestWord::Unknown.code() {
            self.bound = self.bound.max(row.bound);
        }
    }

    /// How many mutations are finished.
    pub(crate) fn finished(&self) -> u64 {
        self.finished
    }

    /// How many mutations are not finished.
    pub(crate) fn unfinished(&self) -> u64 {
        (self.marks.len() as u64).saturating_sub(self.finished)
    }

    /// How many mutations have a test that is to be run still.
    pub(crate) fn left(&self) -> u64 {
        self.left
    }

    /// How many tests are UNKNOWN.
    pub(crate) fn unknown(&self) -> u64 {
        let counts = self.marks.iter().map(|mark| mark.unknown.count_ones());
        counts.fold(0, |sum: u64, count| sum.saturating_add(u64::from(count)))
    }

    /// How many mutations have the tag with this number, from 0.
    pub(crate) fn tagged(&self, tag: usize) -> usize {
        let bit = tag_bit(tag);
        self.marks
            .iter()
            .filter(|mark| mark.tags & bit != 0)
            .count()
    }

    /// How many mutations have no tag since a test among these was HANG, which it does not expect.
    pub(crate) fn lost(&self, tests: u16) -> usize {
        self.marks.iter().filter(|mark| mark.is_lost(tests)).count()
    }

    /// Whether the test gave words, and none of them PASS.
    pub(crate) fn has_no_pass(&self, test: usize) -> bool {
        let bit = test_bit(test);
        self.given & bit != 0 && self.passed & bit == 0
    }

    /// The limit of a retry that asks these again; none where no limit is greater than theirs.
    pub(crate) fn next_limit(&self) -> Option<u32> {
        limit_above(self.bound)
    }

    /// Whether a row tells under which bound a test was UNKNOWN.
    pub(crate) fn has_bound(&self) -> bool {
        self.bound != 0
    }
}
