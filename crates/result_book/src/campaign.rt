//! A campaign: what a project and its sources define before any test is run.
//!
//! `meta` and `mutations` are what the book keeps of it. `lines` has an element for each mutation;
//! `test_names`, `kinds` and `expect` have one for each test. Each number that names a mutation, a test
//! or a tag counts from 0 in the order of its list, in the script and the report too. A test whose kind is not that of a simulation
//! is a proof test: it may be given up at a limit, and its word is UNKNOWN then.
ghost use Rattle.std.specs.Prelude.{◌≡◌, ◌<◌, ◌↔◌, IsTrue, length};
ghost use Rattle.result_book.specs.Campaigns.{IsWordOf, IsWordOfKind, first_bound, is_sim_test};
ghost use Rattle.result_book.specs.Rows.{bound_of};
ghost use Rattle.result_book.specs.Scripts.{ask_by};

use crate::script::TestWord;
use mcy_base::{BytesList, Items, TextList};
use mcy_keeper::Entry;
use report_script::Report;
use tag_script::{Ask, Results, Script, ask};

/// The code of an equivalence test among kinds.
pub const EQ_KIND: u32 = 0;

/// The code of a simulation among kinds.
pub const SIM_KIND: u32 = 1;

/// Places in the sources: the file, counted from 0 in the order of reading, and the line, counted from 1.
pub type PlaceList = Items<(u16, u32)>;

/// Numbers.
pub type NumberList = Items<u32>;

/// A campaign.
#[derive(Drop)]
pub struct Campaign {
    /// What a book of the second format keeps of the project and its sources.
    pub meta: BytesList,
    /// The place of each mutation, as text.
    pub mutations: BytesList,
    pub lines: PlaceList,
    pub test_names: TextList,
    /// The kind of each test, `EQ_KIND` or `SIM_KIND`.
    pub kinds: NumberList,
    /// The words that the project expects of each test, the word with code w in bit w.
    pub expect: NumberList,
    /// The names of the tags.
    pub tags: TextList,
    /// Which tests are asked on a mutation, and the tags that their words give.
    pub script: Script,
    /// What the status tells of the counts of tags.
    pub report: Report,
    /// The limit under which a proof test is first asked.
    pub conflicts: u32,
}

/// Whether the word with this code is one of this kind of test.
fn is_word_of_kind(kind: u32, word: u32) -> bool
    ensures { IsTrue result ↔ IsWordOfKind kind word }
{
    let is_verdict = word == TestWord::Pass.code() || word == TestWord::Fail.code();
    if kind == SIM_KIND {
        is_verdict || word == TestWord::Hang.code()
    } else {
        is_verdict || word == TestWord::Unknown.code()
    }
}

impl Campaign {
    /// Whether the word with this code is one of the test's kind.
    pub(crate) fn has_word(&self, test: u32, word: u32) -> bool
        requires { test < length self.now.kinds }
        ensures { IsTrue result ↔ IsWordOf self.now test word }
    {
        is_word_of_kind(self.kinds.as_slice()[test as usize], word)
    }

    /// What the script asks for where the tests of a mutation have these words, or how it ended. It takes no memory.
    pub fn ask_by(&self, results: &Results) -> Ask
        ensures { result ≡ ask_by self.now results.now }
    {
        ask(&self.script, self.expect.as_slice(), results)
    }

    /// Whether there is such a test, and it is a simulation.
    fn is_sim_test(&self, test: u32) -> bool
        ensures { result ≡ is_sim_test self.now test }
    {
        match self.kinds.as_slice().get(test as usize) {
            Some(kind) => *kind == SIM_KIND,
            None => false,
        }
    }

    /// The limit under which a test is first asked; 0 for a simulation.
    pub(crate) fn first_bound(&self, test: u32) -> u32
        ensures { result ≡ first_bound self.now test }
    {
        if self.is_sim_test(test) {
            0
        } else {
            self.conflicts
        }
    }

    /// The bound that a row of a book of the first format gets in the second.
    pub(crate) fn bound_of(&self, row: &Entry) -> u32
        ensures { result ≡ bound_of self.now row.now }
    {
        if self.is_sim_test(row.test) {
            row.bound
        } else {
            self.conflicts
        }
    }
}
