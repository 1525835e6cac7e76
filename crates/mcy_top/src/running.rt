//! The work of `run`: a begun book is moved to the second format, where it is of the first, tests are run, and the status is written.
ghost use Rattle.std.specs.Prelude.{◌≡◌, ◌≢◌, ◌≤◌, ℕ, [], Option, IfErr, IfOk, IsErrOf, IsTrue, OnErr, OnOk};
ghost use Rattle.mcy_base.specs.Causes.{Rose};
ghost use Rattle.mcy_keeper.specs.Books.{blank, Keeps, LeavesEither};
ghost use Rattle.result_book.specs.Goals.{IsGoal};
ghost use Rattle.result_book.specs.Rows.{history, IsWellFormed};
ghost use Rattle.result_book.specs.States.{IsStateOf};
ghost use Rattle.mcy_top.specs.BookRefusals.{lacking, HasNamed, RefusesBook};
ghost use Rattle.mcy_top.specs.Commands.{run_goal, AreSlots, Runs};
ghost use Rattle.command_words.specs.declared.command.Command.{Command as Asked};
ghost use Rattle.campaign_plan.specs.Campaigns.{IsPlan};
ghost use Rattle.campaign_run.specs.Limits.{HasItsLimit};
ghost use Rattle.mcy_top.specs.Endings.{broken_outcome, run_outcome, Ends};
ghost use Rattle.campaign_run.specs.Running.{book_of};
ghost use Rattle.mcy_top.specs.Life.{wanting, Work};

use crate::ending::failed;
use crate::refusal::BookRefusal;
use crate::work::Task;
use campaign_core::{Core, CoreError};
use campaign_outcomes::Outcome;
use command_words::Command;
use mcy_base::Steps;
use mcy_keeper::{Book, KeepError, Keeper};
use mcy_outside::Sink;
use project_tester::ProjectTester;
use result_book::{Goal, NumberList, State, bounds_of};
use std::sync::ledger::Ledger;

/// What a run aims at: the mutations of these numbers, or all where there are none, and the pairs that were given up under less than the
/// number of its option, if it has one.
pub(crate) fn run_goal(retry: Option<u32>, numbers: NumberList) -> Goal
    ensures { result ≡ run_goal retry numbers }
{
    Goal {
        retry: retry.unwrap_or(0),
        part: 0,
        parts: 1,
        mutations: numbers,
    }
}

/// How a call ends whose campaign could not go on.
fn broken(error: CoreError) -> Outcome
    ensures { result ≡ broken_outcome error }
{
    match error {
        CoreError::Keeper => Outcome::KeeperFault,
        CoreError::Memory => Outcome::Memory,
    }
}

impl Task<'_> {
    /// How many mutations want a test under the goal.
    fn wanting(&self, goal: &Goal, state: &State) -> u32
        requires plan { IsPlan self.now.prepared.now }
        requires goal { IsGoal goal.now }
        requires state { IsStateOf self.now.prepared.now.campaign state.now.rows state.now }
        ensures { result ≡ wanting self.now.prepared.now goal.now state.now.rows }
    {
        let campaign = &self.prepared.campaign;
        let mutations = campaign.mutations.as_slice().len() as u32;
        let mut count = 0;
        for mutation in 0..mutations {
            if state.want(campaign, mutation, goal).is_some() {
                count += 1;
            }
        }
        count
    }

    /// How a run ends whose text is written: with so many mutations that want a test, or none.
    fn run_outcome(&self, goal: &Goal, state: &State) -> Outcome
        requires plan { IsPlan self.now.prepared.now }
        requires goal { IsGoal goal.now }
        requires state { IsStateOf self.now.prepared.now.campaign state.now.rows state.now }
        ensures { result ≡ run_outcome self.now.prepared.now goal.now state.now.rows }
    {
        match self.wanting(goal, state) {
            0 => self.run_done(state),
            left => Outcome::Unfinished(left),
        }
    }

    /// The first number under which the goal names a mutation that the campaign has not.
    pub(crate) fn lacking(&self, goal: &Goal) -> Option<u32>
        requires { IsPlan self.now.prepared.now }
        ensures { result ≡ lacking goal.now self.now.prepared.now }
    {
        let mutations = self.prepared.campaign.mutations.as_slice().len() as u32;
        goal.unnamed(mutations)
    }

    /// The state of a begun book's history, where the book is the campaign's, and the campaign has the mutations that are named.
    pub(crate) fn ready(&self, goal: &Goal, loaded: &Book) -> Result<State, BookRefusal>
        requires plan { IsPlan self.now.prepared.now }
        requires begun { loaded.now.meta ≢ [] }
        ensures form { OnOk result (IsWellFormed self.now.prepared.now.campaign loaded.now) }
        ensures state { IfOk result (IsStateOf self.now.prepared.now.campaign (history self.now.prepared.now.campaign loaded.now).journal) }
        ensures named { OnOk result (HasNamed goal.now self.now.prepared.now) }
        ensures refused { IfErr result (λ refusal. (command : Asked) → Runs command → RefusesBook command goal.now self.now.prepared.now loaded.now refusal) }
    {
        let state = self.read_state(loaded)?;
        match self.lacking(goal) {
            None => Ok(state),
            Some(number) => Err(BookRefusal::NoMutation(number)),
        }
    }

    /// Runs tests from this state of the begun book, which is of the second format, so many at once, and writes the status.
    fn run<K: Keeper, O: Sink, L: Ledger>(
        &self,
        jobs: u32,
        stop_after: Option<u32>,
        goal: &Goal,
        state: State,
        keeper: &mut K,
        out: &mut O,
        steps: &mut Steps<L>,
    ) -> Outcome
        requires settled { IsTrue (K.is_settled keeper.old) }
        requires plan { IsPlan self.now.prepared.now }
        requires limit { HasItsLimit self.now.prepared.now }
        requires goal { IsGoal goal.now }
        requires slots { AreSlots jobs }
        requires state { IsStateOf self.now.prepared.now.campaign state.rows state }
        requires named { HasNamed goal.now self.now.prepared.now }
        requires kept { K.tells keeper.old → Keeps (K.holds keeper.old) (K.leaves keeper.old) (book_of self.now.prepared.now state.rows) }
        ensures tells { K.tells keeper.new → K.tells keeper.old }
        ensures work { K.tells keeper.new → (retry : Option ℕ) → Work (K.leaves keeper.new) (O.written out.old) (O.written out.new) steps.old steps.new (Command.Run jobs stop_after retry) goal.now self.now.prepared.now (book_of self.now.prepared.now state.rows) result }
        ensures ends { Ends (O.written out.old) (O.written out.new) (K.faults keeper.old) (K.faults keeper.new) (O.faults out.old) (O.faults out.new) result }
    {
        let campaign = &self.prepared.campaign;
        let tester = ProjectTester::new(self.alloc, self.prepared);
        let Ok(mut core) = Core::new(self.alloc, campaign, state, tester, jobs, goal) else {
            return Outcome::Memory;
        };
        match core.run(stop_after, keeper, steps) {
            Ok(()) => self
                .report(core.state(), out)
                .outcome(self.run_outcome(goal, core.state())),
            Err(error) => broken(error),
        }
    }

    /// Begins the campaign in an empty book, runs tests, and writes the status.
    pub(crate) fn begin_and_run<K: Keeper, O: Sink, L: Ledger>(
        &self,
        jobs: u32,
        stop_after: Option<u32>,
        goal: &Goal,
        keeper: &mut K,
        out: &mut O,
        steps: &mut Steps<L>,
    ) -> Outcome
        requires settled { IsTrue (K.is_settled keeper.old) }
        requires plan { IsPlan self.now.prepared.now }
        requires limit { HasItsLimit self.now.prepared.now }
        requires goal { IsGoal goal.now }
        requires slots { AreSlots jobs }
        requires kept { K.tells keeper.old → Keeps (K.holds keeper.old) (K.leaves keeper.old) blank }
        ensures tells { K.tells keeper.new → K.tells keeper.old }
        ensures work { K.tells keeper.new → (retry : Option ℕ) → Work (K.leaves keeper.new) (O.written out.old) (O.written out.new) steps.old steps.new (Command.Run jobs stop_after retry) goal.now self.now.prepared.now blank result }
        ensures ends { Ends (O.written out.old) (O.written out.new) (K.faults keeper.old) (K.faults keeper.new) (O.faults out.old) (O.faults out.new) result }
    {
        if let Some(number) = self.lacking(goal) {
            return Outcome::NoMutation(number);
        }
        let Ok(state) = State::new(self.alloc, &self.prepared.campaign) else {
            return Outcome::Memory;
        };
        match keeper.begin(
            &self.prepared.campaign.meta,
            &self.prepared.campaign.mutations,
        ) {
            Ok(()) => self.run(jobs, stop_after, goal, state, keeper, out, steps),
            Err(error) => failed(error),
        }
    }

    /// Moves the campaign's book to the second format, where it is of the first: the keeper then has its history.
    fn upgrade<K: Keeper>(&self, loaded: &Book, keeper: &mut K) -> Result<(), KeepError>
        requires settled { IsTrue (K.is_settled keeper.old) }
        requires form { IsWellFormed self.now.prepared.now.campaign loaded.now }
        requires kept { K.tells keeper.old → Keeps (K.holds keeper.old) (K.leaves keeper.old) loaded.now }
        ensures tells { K.tells keeper.new → K.tells keeper.old }
        ensures settled { OnOk result (IsTrue (K.is_settled keeper.new)) }
        ensures kept { K.tells keeper.new → OnOk result (Keeps (K.holds keeper.new) (K.leaves keeper.new) (history self.now.prepared.now.campaign loaded.now)) }
        ensures left { K.tells keeper.new → OnErr result (LeavesEither (K.leaves keeper.new) loaded.now (history self.now.prepared.now.campaign loaded.now)) }
        ensures later { K.faults keeper.old ≤ K.faults keeper.new }
        ensures cause { IsErrOf result KeepError.Fault → Rose (K.faults keeper.old) (K.faults keeper.new) }
    {
        if loaded.is_first() {
            let bounds = bounds_of(self.alloc, &self.prepared.campaign, loaded)?;
            keeper.upgrade(&bounds)
        } else {
            Ok(())
        }
    }

    /// Goes on with a begun book: moves it to the second format, where it is of the first, runs tests, and writes the status.
    pub(crate) fn resume<K: Keeper, O: Sink, L: Ledger>(
        &self,
        jobs: u32,
        stop_after: Option<u32>,
        goal: &Goal,
        loaded: &Book,
        keeper: &mut K,
        out: &mut O,
        steps: &mut Steps<L>,
    ) -> Outcome
        requires settled { IsTrue (K.is_settled keeper.old) }
        requires plan { IsPlan self.now.prepared.now }
        requires limit { HasItsLimit self.now.prepared.now }
        requires goal { IsGoal goal.now }
        requires slots { AreSlots jobs }
        requires begun { loaded.now.meta ≢ [] }
        requires kept { K.tells keeper.old → Keeps (K.holds keeper.old) (K.leaves keeper.old) loaded.now }
        ensures tells { K.tells keeper.new → K.tells keeper.old }
        ensures work { K.tells keeper.new → (retry : Option ℕ) → Work (K.leaves keeper.new) (O.written out.old) (O.written out.new) steps.old steps.new (Command.Run jobs stop_after retry) goal.now self.now.prepared.now loaded.now result }
        ensures ends { Ends (O.written out.old) (O.written out.new) (K.faults keeper.old) (K.faults keeper.new) (O.faults out.old) (O.faults out.new) result }
    {
        let state = match self.ready(goal, loaded) {
            Ok(state) => state,
            Err(refusal) => return refusal.into_outcome(),
        };
        match self.upgrade(loaded, keeper) {
            Ok(()) => self.run(jobs, stop_after, goal, state, keeper, out, steps),
            Err(error) => failed(error),
        }
    }
}
