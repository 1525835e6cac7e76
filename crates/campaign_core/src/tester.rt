//! Who runs the tests of a campaign: each test is a job that takes turns until it has a word.
//!
//! A tester says how many mutations there are, the kind of each test, and by `gives` which words a test may give that is asked of a
//! mutation under a bound. A job is one of its tester, was started for a test of a mutation under a bound, and has a word once a turn
//! gave one. `left` falls with each turn that gives none, so that a job comes to its end; `most` is what a new job has at most.
ghost use Rattle.std.specs.Prelude.{◌≡◌, ℕ, ◌+◌, ◌<◌, ◌≤◌, List, Option, None, IfOk, IfSome, OnErr, OnOk, MatchResult};
ghost use Rattle.campaign_core.specs.Testers.{Asked, IsAskable, IsSame, IsWordIn};

use mcy_base::Steps;
use std::alloc::AllocError;
use std::sync::ledger::Ledger;

/// What runs tests.
pub trait Tester {
    /// A test under way.
    type Job: Drop;

    /// How many mutations there are.
    ghost mutations: { Self → ℕ };

    /// The code of the kind of each test.
    ghost kinds: { Self → List ℕ };

    /// Which words a test may give.
    ghost gives: { Self → Asked → ℕ → Type 0 };

    /// How many turns without a word a test has at most.
    ghost most: { Self → Asked → ℕ };

    /// The job is one of this tester.
    ghost has: { Self → Self.Job → Type 0 };

    /// What the job was started for.
    ghost asked: { Self.Job → Asked };

    /// The word that it gave, if it gave one.
    ghost word: { Self.Job → Option ℕ };

    /// How many turns without a word it has left at most.
    ghost left: { Self.Job → ℕ };

    /// Starts a test of a mutation under a bound, which counts as one step. The error is want of memory.
    fn start<L: Ledger>(
        &mut self,
        mutation: u32,
        test: u32,
        bound: u32,
        steps: &mut Steps<L>,
    ) -> Result<Self::Job, AllocError>
        requires { IsAskable (mutations self.old) (kinds self.old) (record { mutation = mutation; test = test; bound = bound }) }
        ensures mine { IfOk result (has self.new) }
        ensures asked { IfOk result (λ job. asked job ≡ record { mutation = mutation; test = test; bound = bound }) }
        ensures new { IfOk result (λ job. (word job ≡ None) × (left job ≤ most self.old (record { mutation = mutation; test = test; bound = bound }))) }
        ensures ok { OnOk result (steps.new ≡ steps.old + 1) }
        ensures err { OnErr result (steps.new ≡ steps.old) }
        ensures same { IsSame (mutations self.old) (mutations self.new) (kinds self.old) (kinds self.new) (gives self.old) (gives self.new) (most self.old) (most self.new) }
        ensures others { (other : Self.Job) → has self.old other → has self.new other };

    /// Goes on with a job that has given no word: the word, or none yet. After an error, want of memory, it may go on.
    fn turn(&mut self, job: &mut Self::Job) -> Result<Option<u32>, AllocError>
        requires mine { has self.old job.old }
        requires going { word job.old ≡ None }
        ensures mine { has self.new job.new }
        ensures asked { asked job.new ≡ asked job.old }
        ensures told { MatchResult result (λ o. word job.new ≡ o) (λ _. word job.new ≡ None) }
        ensures gives { IfOk result (λ o. IfSome o (λ w. gives self.old (asked job.old) w × IsWordIn (kinds self.old) (asked job.old).test w)) }
        ensures left { IfOk result (λ o. o ≡ None → left job.new < left job.old) }
        ensures same { IsSame (mutations self.old) (mutations self.new) (kinds self.old) (kinds self.new) (gives self.old) (gives self.new) (most self.old) (most self.new) }
        ensures others { (other : Self.Job) → has self.old other → has self.new other };
}
