//! The limits under which the words of one mutation's tests were found, and those that the rows of a book get where it is brought
//! to the second format.
//!
//! Place t has the bound of test t's last row; 0 where it is a simulation, or has none. Contracts see the list of the 16 places.
ghost use Rattle.std.specs.Prelude.{◌≡◌, ◌<◌, ◌≤◌, IfOk, length, replicate, slice_index, slice_set};
ghost use Rattle.tag_script.specs.Outcomes.{word_at};
ghost use Rattle.result_book.specs.Goals.{is_given_up};
ghost use Rattle.result_book.specs.Rows.{bounds_of};
ghost use Rattle.result_book.specs.Wants.{kept_words, without_one};

use crate::campaign::Campaign;
use crate::script::TestWord;
use mcy_keeper::{Book, BoundList};
use std::alloc::{AllocError, Global};
use std::marker::Model;
use tag_script::{MAX_TESTS, Results};

/// The bound of the last row of each test of a mutation.
#[derive(Clone, Copy, Debug, PartialEq, Eq)]
pub(crate) struct Bounds {
    bounds: [u32; MAX_TESTS],
}

impl Model for Bounds {
    ghost use Rattle.std.specs.Prelude.{List, ℕ};

    ghost Value = { List ℕ };

    ghost view = { λ b. b.bounds };

    ghost inverse = { λ bounds. record { bounds = bounds } };
}

impl Bounds {
    /// No test has a bound.
    pub(crate) fn empty() -> Bounds
        ensures { result ≡ replicate MAX_TESTS 0 }
    {
        Bounds {
            bounds: [0; MAX_TESTS],
        }
    }

    /// The bound of a test.
    pub(crate) fn of(self, test: u32) -> u32
        requires { test < MAX_TESTS }
        ensures { result ≡ slice_index self test }
    {
        self.bounds[test as usize]
    }

    /// The same with this bound of a test.
    pub(crate) fn set(mut self, test: u32, bound: u32) -> Bounds
        requires { test < MAX_TESTS }
        ensures { result ≡ slice_set self test bound }
    {
        self.bounds[test as usize] = bound;
        self
    }

    /// The words without that of this test, if it was given up under less than the limit.
    fn without_one(self, words: Results, test: u32, limit: u32) -> Results
        requires { test < MAX_TESTS }
        ensures { result ≡ without_one limit (slice_index self test) test words (word_at words test) }
    {
        match words.word(test) {
            None => words,
            Some(word) => {
                if is_given_up(limit, word, self.of(test)) {
                    words.without_word(test)
                } else {
                    words
                }
            }
        }
    }

    /// The words without those that were given up under less than the limit.
    pub(crate) fn without_given_up(self, words: Results, limit: u32) -> Results
        requires words { length words ≤ MAX_TESTS }
        requires bounds { length self ≡ MAX_TESTS }
        ensures { result ≡ kept_words limit words self }
    {
        let mut kept = words;
        for test in 0..MAX_TESTS as u32 {
            kept = self.without_one(kept, test, limit);
        }
        kept
    }
}

/// Whether a test with this last word, found under this bound, was given up under less than the limit.
pub(crate) fn is_given_up(limit: u32, word: u32, bound: u32) -> bool
    ensures { result ≡ is_given_up limit word bound }
{
    word == TestWord::Unknown.code() && bound < limit
}

/// The bounds that the rows of a book get in the second format: the project's limit, where the test is not a simulation.
pub fn bounds_of(alloc: Global, campaign: &Campaign, book: &Book) -> Result<BoundList, AllocError>
    ensures { IfOk result (λ bounds. bounds ≡ bounds_of campaign.now book.now.journal) }
{
    let mut bounds = Vec::new(alloc);
    for row in book.journal.as_slice() {
        bounds.push(campaign.bound_of(row))?;
    }
    Ok(BoundList::from_vec(bounds))
}
