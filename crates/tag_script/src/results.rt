//! The words of one mutation's tests, as far as there are any.
//!
//! Place t has the code of test t's word, or none. Contracts see the list of the 16 places.
ghost use Rattle.std.specs.Prelude.{◌≡◌, ◌<◌, Some, None, slice_set, replicate};
ghost use Rattle.tag_script.specs.Outcomes.{word_at};

use std::marker::Model;

/// How many tests a project has at most.
pub const MAX_TESTS: usize = 16;

/// The word of each test of a mutation, or none.
#[derive(Clone, Copy, Debug, PartialEq, Eq)]
pub struct Results {
    words: [Option<u8>; MAX_TESTS],
}

impl Model for Results {
    ghost use Rattle.std.specs.Prelude.{List, Option, ℕ};

    ghost Value = { List (Option ℕ) };

    ghost view = { λ r. r.words };

    ghost inverse = { λ words. record { words = words } };
}

impl Results {
    /// No test has a word.
    pub fn empty() -> Results
        ensures { result ≡ replicate MAX_TESTS None }
    {
        Results {
            words: [None; MAX_TESTS],
        }
    }

    /// The word of a test, if it has one.
    pub fn word(self, test: u32) -> Option<u32>
        requires { test < MAX_TESTS }
        ensures { result ≡ word_at self test }
    {
        self.words[test as usize].map(u32::from)
    }

    /// The word of a test, where there is such a test and it has one.
    pub fn any_word(self, test: u32) -> Option<u32>
        ensures { result ≡ word_at self test }
    {
        if (test as usize) < MAX_TESTS {
            self.word(test)
        } else {
            None
        }
    }

    /// The same with this word of a test.
    pub fn set_word(mut self, test: u32, word: u32) -> Results
        requires test { test < MAX_TESTS }
        requires word { word < 4 }
        ensures { result ≡ slice_set self test (Some word) }
    {
        self.words[test as usize] = Some(word as u8);
        self
    }

    /// The same without the word of a test.
    pub fn without_word(mut self, test: u32) -> Results
        requires { test < MAX_TESTS }
        ensures { result ≡ slice_set self test None }
    {
        self.words[test as usize] = None;
        self
    }
}
