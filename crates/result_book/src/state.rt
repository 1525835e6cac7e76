//! What is known of a campaign's book while a command runs.
//!
//! `rows` are the rows of the journal, of the second format. For each mutation `results` has the last words of its tests, `bounds`
//! the limits under which they were found, and `asks` what the script asks for, or how it ended. `spare` is for how many more rows
//! room was made: `rows` has that capacity. There are fewer than 2^32 rows and mutations, so a `u32` counts them. Contracts see the
//! five fields; `IsStateOf` ties them to a campaign.
ghost use Rattle.std.specs.Prelude.{◌≡◌, ◌↔◌, ℕ, ◌+◌, ◌<◌, ◌++◌, ◌∷◌, List, [], Some, IfOk, OnOk, OnErr, IsTrue, length, slice_get, slice_index, slice_set, count_by, max};
ghost use Rattle.result_book.specs.Scripts.{ask_by, is_ended, words_of};
ghost use Rattle.result_book.specs.Campaigns.{IsFit, IsWordOf};
ghost use Rattle.result_book.specs.BookFaults.{IsAskedFor};
ghost use Rattle.result_book.specs.Goals.{IsGoal, next_bound, wanted};
ghost use Rattle.result_book.specs.Rows.{answers_of, IsPair, IsRow, MayFollow};
ghost use Rattle.result_book.specs.States.{IsStateOf};

use crate::bounds::Bounds;
use crate::campaign::Campaign;
use crate::goal::{Goal, Want};
use crate::script::{is_ended, mark, needs, tags};
use mcy_keeper::Entry;
use std::alloc::{AllocError, Global};
use std::marker::Model;
use tag_script::{Ask, MAX_TESTS, Results};

/// The rows of a campaign's book, and what they say of each mutation.
#[derive(Drop)]
pub struct State {
    rows: Vec<Entry>,
    results: Vec<Results>,
    bounds: Vec<Bounds>,
    asks: Vec<Ask>,
    spare: u32,
}

impl Model for State {
    ghost use Rattle.std.specs.Prelude.{vec_len, vec_capacity};
    ghost use Rattle.result_book.specs.States.{HasRoom, Progress};

    ghost Value = { Progress };

    ghost view = { λ s. record { rows = s.rows.items; results = s.results.items; bounds = s.bounds.items; asks = s.asks.items; spare = s.spare } };

    ghost invariant = { λ s. HasRoom (vec_len s.rows) (vec_capacity s.rows) s.spare (vec_len s.asks) };
}

impl State {
    /// The state of a begun book that has no rows.
    pub fn new(alloc: Global, campaign: &Campaign) -> Result<State, AllocError>
        requires { IsFit campaign.now }
        ensures { IfOk result (IsStateOf campaign.now []) }
    {
        let count = campaign.mutations.as_slice().len();
        let none = Results::empty();
        Ok(State {
            rows: Vec::new(alloc),
            results: vec![in alloc; none; count]?,
            bounds: vec![in alloc; Bounds::empty(); count]?,
            asks: vec![in alloc; campaign.ask_by(&none); count]?,
            spare: 0,
        })
    }

    /// Makes room for so many more rows at least. Where there is no memory for it, the state stays as it
    /// was.
    pub fn reserve(&mut self, rows: u32) -> Result<(), AllocError>
        ensures ok { OnOk result (self.new ≡ record self.old { spare = max self.old.spare rows }) }
        ensures err { OnErr result (self.new ≡ self.old) }
    {
        self.rows.reserve(rows as usize)?;
        self.spare = self.spare.max(rows);
        Ok(())
    }

    /// How many rows there are.
    pub fn len(&self) -> u32
        ensures { result ≡ length self.now.rows }
    {
        self.rows.len() as u32
    }

    /// How many mutations are finished.
    pub fn finished(&self) -> u32
        ensures { result ≡ count_by is_ended self.now.asks }
    {
        self.asks.iter().filter(|ask| is_ended(**ask)).count() as u32
    }

    /// The last words of a mutation's tests.
    pub fn results(&self, mutation: u32) -> Results
        requires { mutation < length self.now.results }
        ensures { slice_get self.now.results mutation ≡ Some result }
    {
        self.results[mutation as usize]
    }

    /// What the script asks for on a mutation, or how it ended.
    pub fn ask_of(&self, mutation: u32) -> Ask
        requires { mutation < length self.now.asks }
        ensures { slice_get self.now.asks mutation ≡ Some result }
    {
        self.asks[mutation as usize]
    }

    /// The bounds of the last rows of a mutation's tests.
    fn bounds(&self, mutation: u32) -> Bounds
        requires { mutation < length self.now.bounds }
        ensures { slice_get self.now.bounds mutation ≡ Some result }
    {
        self.bounds[mutation as usize]
    }

    /// The bound of a pair's last row; 0 where it has none.
    pub(crate) fn bound(&self, mutation: u32, test: u32) -> u32
        requires mutation { mutation < length self.now.bounds }
        requires test { test < MAX_TESTS }
        ensures { (bounds : List ℕ) → slice_get self.now.bounds mutation ≡ Some bounds → result ≡ slice_index bounds test }
    {
        self.bounds(mutation).of(test)
    }

    /// What the script asks for where a test of a mutation has this word, whatever it had before, and the others their last.
    pub(crate) fn ask_with(&self, campaign: &Campaign, mutation: u32, test: u32, word: u32) -> Ask
        requires fit { IsFit campaign.now }
        requires state { IsStateOf campaign.now self.now.rows self.now }
        requires mutation { mutation < length campaign.now.mutations }
        requires test { test < length campaign.now.kinds }
        requires word { word < 4 }
        ensures { result ≡ ask_by campaign.now (slice_set (words_of (answers_of mutation self.now.rows)) test (Some word)) }
    {
        campaign.ask_by(&self.results(mutation).set_word(test, word))
    }

    /// Whether a test is read on the rows of a mutation, or the next that its script needs: it is what the script asks for where
    /// it has no word and the others their last.
    pub(crate) fn asks_for(&self, campaign: &Campaign, mutation: u32, test: u32) -> bool
        requires fit { IsFit campaign.now }
        requires state { IsStateOf campaign.now self.now.rows self.now }
        requires mutation { mutation < length campaign.now.mutations }
        requires test { test < length campaign.now.kinds }
        ensures { IsTrue result ↔ IsAskedFor campaign.now self.now.rows mutation test }
    {
        needs(
            campaign.ask_by(&self.results(mutation).without_word(test)),
            test,
        )
    }

    /// Which test a run with this goal wants of a mutation, and under which bound. It takes no memory.
    pub fn want(&self, campaign: &Campaign, mutation: u32, goal: &Goal) -> Option<Want>
        requires fit { IsFit campaign.now }
        requires state { IsStateOf campaign.now self.now.rows self.now }
        requires mutation { mutation < length campaign.now.mutations }
        requires goal { IsGoal goal.now }
        ensures { result ≡ wanted campaign.now self.now.rows mutation goal.now }
    {
        if !goal.has(mutation) {
            return None;
        }
        let last = self.results(mutation);
        let kept = self.bounds(mutation).without_given_up(last, goal.retry);
        match campaign.ask_by(&kept) {
            Ask::Need(test) => Some(Want {
                test,
                bound: next_bound(campaign, goal.retry, test, last.any_word(test)),
            }),
            Ask::Done(_) | Ask::AssertFailed(_) | Ask::Unexpected(_) => None,
        }
    }

    /// The next row, for a pair that may stand next with this bound, and a word of the test's kind.
    pub fn entry_for(
        &self,
        campaign: &Campaign,
        mutation: u32,
        test: u32,
        word: u32,
        bound: u32,
    ) -> Entry
        requires fit { IsFit campaign.now }
        requires state { IsStateOf campaign.now self.now.rows self.now }
        requires mutation { mutation < length campaign.now.mutations }
        requires follows { MayFollow campaign.now self.now.rows mutation test bound }
        requires word { IsWordOf campaign.now test word }
        ensures row { IsRow campaign.now self.now.rows result }
        ensures pair { IsPair mutation test result }
        ensures word { result.word ≡ word }
        ensures bound { result.bound ≡ bound }
    {
        let ask = self.ask_with(campaign, mutation, test, word);
        Entry {
            seq: self.len(),
            mutation,
            test,
            word,
            mark: mark(ask),
            tags: tags(ask),
            bound,
        }
    }

    /// Adds the next row, for which there is room. It takes no memory.
    pub fn add(&mut self, campaign: &Campaign, entry: &Entry)
        requires fit { IsFit campaign.now }
        requires state { IsStateOf campaign.now self.old.rows self.old }
        requires row { IsRow campaign.now self.old.rows entry.now }
        requires room { 0 < self.old.spare }
        ensures state { IsStateOf campaign.now (self.old.rows ++ entry.now ∷ []) self.new }
        ensures spare { self.new.spare + 1 ≡ self.old.spare }
    {
        let mutation = entry.mutation as usize;
        let results = self.results[mutation].set_word(entry.test, entry.word);
        let bounds = self.bounds[mutation].set(entry.test, entry.bound);
        self.results[mutation] = results;
        self.bounds[mutation] = bounds;
        self.asks[mutation] = campaign.ask_by(&results);
        let added = self.rows.push(*entry).is_ok();
        prove!(added);
        self.spare -= 1;
    }
}

/// The bound under which a test with this last word is asked next.
fn next_bound(campaign: &Campaign, limit: u32, test: u32, word: Option<u32>) -> u32
    ensures { result ≡ next_bound campaign.now limit test word }
{
    match word {
        None => campaign.first_bound(test),
        Some(_) => limit,
    }
}
