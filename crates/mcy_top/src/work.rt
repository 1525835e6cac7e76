//! The work of the commands over a loaded book.
ghost use Rattle.std.specs.Prelude.{◌≡◌, ◌≢◌, ℕ, ◌≤◌, [], IfOk, IfErr, IsTrue, OnOk, string_bytes};
ghost use Rattle.mcy_base.specs.Causes.{Rose};
ghost use Rattle.mcy_keeper.specs.Books.{blank, Keeps};
ghost use Rattle.result_book.specs.Goals.{IsGoal};
ghost use Rattle.result_book.specs.Rows.{history, IsWellFormed};
ghost use Rattle.result_book.specs.States.{IsStateOf};
ghost use Rattle.source_report.specs.Lists.{list_text};
ghost use Rattle.source_report.specs.Sources.{source_text};
ghost use Rattle.source_report.specs.Texts.{status_text};
ghost use Rattle.result_book.specs.declared.goal.Goal.{Goal as Aim};
ghost use Rattle.mcy_top.specs.Commands.{HasSlots, OnBook, OnlyReads, Runs};
ghost use Rattle.campaign_run.specs.Limits.{HasItsLimit};
ghost use Rattle.mcy_top.specs.Texts.{init_text, text_of};
ghost use Rattle.campaign_plan.specs.Campaigns.{IsPlan};
ghost use Rattle.mcy_top.specs.BookRefusals.{RefusesBook};
ghost use Rattle.mcy_top.specs.Endings.{Delivers, Ends};
ghost use Rattle.campaign_run.specs.Running.{book_of};
ghost use Rattle.mcy_top.specs.Life.{Work};
ghost use Rattle.command_words.specs.declared.command.Command.{Command as Asked};

use crate::ending::{Ending, deliver, failed};
use crate::refusal::{BookRefusal, stray};
use campaign_outcomes::Outcome;
use campaign_plan::Prepared;
use command_words::Command;
use mcy_base::Steps;
use mcy_keeper::{Book, Keeper};
use mcy_outside::Sink;
use result_book::book_laws::refused_books_are_ill_formed;
use result_book::{BookError, Goal, State, check_book};
use source_report::{add_number, list_text, source_text, status_text};
use std::alloc::{AllocError, Global};
use std::sync::ledger::Ledger;

/// The campaign that a command works on.
#[derive(Drop)]
pub(crate) struct Task<'a> {
    pub(crate) alloc: Global,
    pub(crate) prepared: &'a Prepared,
}

impl Task<'_> {
    /// Makes the status text whole, and writes it.
    pub(crate) fn report<O: Sink>(&self, state: &State, out: &mut O) -> Ending
        requires plan { IsPlan self.now.prepared.now }
        requires state { IsStateOf self.now.prepared.now.campaign state.now.rows state.now }
        ensures wrote { Delivers (O.written out.old) (O.written out.new) (status_text self.now.prepared.now.campaign state.now.rows) result }
        ensures later { O.faults out.old ≤ O.faults out.new }
        ensures cause { result ≡ Ending.Refused → Rose (O.faults out.old) (O.faults out.new) }
    {
        match status_text(self.alloc, &self.prepared.campaign, state) {
            Ok(text) => deliver(text.as_slice(), out),
            Err(_) => Ending::NoMemory,
        }
    }

    /// Makes the list of the mutations whole, and writes it.
    fn list<O: Sink>(&self, state: &State, out: &mut O) -> Ending
        requires plan { IsPlan self.now.prepared.now }
        requires state { IsStateOf self.now.prepared.now.campaign state.now.rows state.now }
        ensures wrote { Delivers (O.written out.old) (O.written out.new) (list_text self.now.prepared.now.campaign state.now.rows) result }
        ensures later { O.faults out.old ≤ O.faults out.new }
        ensures cause { result ≡ Ending.Refused → Rose (O.faults out.old) (O.faults out.new) }
    {
        match list_text(self.alloc, &self.prepared.campaign, state) {
            Ok(text) => deliver(text.as_slice(), out),
            Err(_) => Ending::NoMemory,
        }
    }

    /// Makes the text of the sources whole, and writes it.
    fn show_source<O: Sink>(&self, state: &State, out: &mut O) -> Ending
        requires plan { IsPlan self.now.prepared.now }
        requires state { IsStateOf self.now.prepared.now.campaign state.now.rows state.now }
        ensures wrote { Delivers (O.written out.old) (O.written out.new) (source_text self.now.prepared.now.campaign state.now.rows self.now.prepared.now.files) result }
        ensures later { O.faults out.old ≤ O.faults out.new }
        ensures cause { result ≡ Ending.Refused → Rose (O.faults out.old) (O.faults out.new) }
    {
        let prepared = self.prepared;
        match source_text(self.alloc, &prepared.campaign, state, &prepared.files) {
            Ok(text) => deliver(text.as_slice(), out),
            Err(_) => Ending::NoMemory,
        }
    }

    /// Writes the text of a command that only reads the book.
    fn tell<O: Sink>(&self, command: Command, state: &State, out: &mut O) -> Ending
        requires reads { OnlyReads command }
        requires plan { IsPlan self.now.prepared.now }
        requires state { IsStateOf self.now.prepared.now.campaign state.now.rows state.now }
        ensures wrote { Delivers (O.written out.old) (O.written out.new) (text_of command self.now.prepared.now (book_of self.now.prepared.now state.now.rows)) result }
        ensures later { O.faults out.old ≤ O.faults out.new }
        ensures cause { result ≡ Ending.Refused → Rose (O.faults out.old) (O.faults out.new) }
    {
        match command {
            Command::List => self.list(state, out),
            Command::Source => self.show_source(state, out),
            Command::Init
            | Command::Run { .. }
            | Command::Status { .. }
            | Command::Baseline
            | Command::Demo { .. } => self.report(state, out),
        }
    }

    /// The text of `init`.
    fn begun_text(&self) -> Result<String, AllocError>
        ensures { IfOk result (λ text. string_bytes text ≡ init_text self.now.prepared.now) }
    {
        let mut text = String::new(self.alloc);
        add_number(&mut text, "Sites", self.prepared.site_count)?;
        let mutations = self.prepared.campaign.mutations.as_slice().len();
        add_number(&mut text, "Mutations", mutations)?;
        Ok(text)
    }

    /// Begins the campaign in an empty book, and writes how many mutations it has.
    fn init<K: Keeper, O: Sink>(&self, keeper: &mut K, out: &mut O) -> Outcome
        requires settled { IsTrue (K.is_settled keeper.old) }
        requires plan { IsPlan self.now.prepared.now }
        requires kept { K.tells keeper.old → Keeps (K.holds keeper.old) (K.leaves keeper.old) blank }
        ensures tells { K.tells keeper.new → K.tells keeper.old }
        ensures work { K.tells keeper.new → (n : ℕ) (aim : Aim) → Work (K.leaves keeper.new) (O.written out.old) (O.written out.new) n n Command.Init aim self.now.prepared.now blank result }
        ensures ends { Ends (O.written out.old) (O.written out.new) (K.faults keeper.old) (K.faults keeper.new) (O.faults out.old) (O.faults out.new) result }
    {
        match keeper.begin(
            &self.prepared.campaign.meta,
            &self.prepared.campaign.mutations,
        ) {
            Ok(()) => {}
            Err(error) => return failed(error),
        }
        match self.begun_text() {
            Ok(text) => deliver(text.as_bytes(), out).outcome(Outcome::Done),
            Err(_) => Outcome::Memory,
        }
    }

    /// The work of a command over an empty book.
    fn start<K: Keeper, O: Sink, L: Ledger>(
        &self,
        command: Command,
        goal: &Goal,
        keeper: &mut K,
        out: &mut O,
        steps: &mut Steps<L>,
    ) -> Outcome
        requires settled { IsTrue (K.is_settled keeper.old) }
        requires plan { IsPlan self.now.prepared.now }
        requires limit { Runs command → HasItsLimit self.now.prepared.now }
        requires book { OnBook command }
        requires goal { IsGoal goal.now }
        requires slots { HasSlots command }
        requires kept { K.tells keeper.old → Keeps (K.holds keeper.old) (K.leaves keeper.old) blank }
        ensures tells { K.tells keeper.new → K.tells keeper.old }
        ensures work { K.tells keeper.new → Work (K.leaves keeper.new) (O.written out.old) (O.written out.new) steps.old steps.new command goal.now self.now.prepared.now blank result }
        ensures ends { Ends (O.written out.old) (O.written out.new) (K.faults keeper.old) (K.faults keeper.new) (O.faults out.old) (O.faults out.new) result }
    {
        match command {
            Command::Init => self.init(keeper, out),
            Command::Run {
                jobs,
                stop_after,
                ..
            } => self.begin_and_run(jobs, stop_after, goal, keeper, out, steps),
            Command::List
            | Command::Status { .. }
            | Command::Source
            | Command::Baseline
            | Command::Demo { .. } => Outcome::NoCampaign,
        }
    }

    /// The state of a begun book's history, where the book is the campaign's.
    pub(crate) fn read_state(&self, loaded: &Book) -> Result<State, BookRefusal>
        requires plan { IsPlan self.now.prepared.now }
        requires begun { loaded.now.meta ≢ [] }
        ensures form { OnOk result (IsWellFormed self.now.prepared.now.campaign loaded.now) }
        ensures state { IfOk result (IsStateOf self.now.prepared.now.campaign (history self.now.prepared.now.campaign loaded.now).journal) }
        ensures refused { IfErr result (λ refusal. (command : Asked) (aim : Aim) → command ≢ Command.Init → RefusesBook command aim self.now.prepared.now loaded.now refusal) }
    {
        refused_books_are_ill_formed();
        match check_book(self.alloc, &self.prepared.campaign, loaded) {
            Ok(state) => Ok(state),
            Err(BookError::Memory) => Err(BookRefusal::Memory),
            Err(error) => Err(BookRefusal::BookBad(error)),
        }
    }

    /// Writes what a command tells of a begun book that only reads it.
    fn show<K: Keeper, O: Sink>(
        &self,
        command: Command,
        loaded: &Book,
        keeper: &K,
        out: &mut O,
    ) -> Outcome
        requires reads { OnlyReads command }
        requires plan { IsPlan self.now.prepared.now }
        requires begun { loaded.now.meta ≢ [] }
        requires kept { K.tells keeper.now → Keeps (K.holds keeper.now) (K.leaves keeper.now) loaded.now }
        ensures work { K.tells keeper.now → (n : ℕ) (aim : Aim) → Work (K.leaves keeper.now) (O.written out.old) (O.written out.new) n n command aim self.now.prepared.now loaded.now result }
        ensures ends { Ends (O.written out.old) (O.written out.new) (K.faults keeper.now) (K.faults keeper.now) (O.faults out.old) (O.faults out.new) result }
    {
        match self.read_state(loaded) {
            Ok(state) => self
                .tell(command, &state, out)
                .outcome(self.done_outcome(command, &state)),
            Err(refusal) => refusal.into_outcome(),
        }
    }

    /// The work of a command over a begun book.
    fn go_on<K: Keeper, O: Sink, L: Ledger>(
        &self,
        command: Command,
        goal: &Goal,
        loaded: &Book,
        keeper: &mut K,
        out: &mut O,
        steps: &mut Steps<L>,
    ) -> Outcome
        requires settled { IsTrue (K.is_settled keeper.old) }
        requires plan { IsPlan self.now.prepared.now }
        requires limit { Runs command → HasItsLimit self.now.prepared.now }
        requires book { OnBook command }
        requires goal { IsGoal goal.now }
        requires slots { HasSlots command }
        requires begun { loaded.now.meta ≢ [] }
        requires kept { K.tells keeper.old → Keeps (K.holds keeper.old) (K.leaves keeper.old) loaded.now }
        ensures tells { K.tells keeper.new → K.tells keeper.old }
        ensures work { K.tells keeper.new → Work (K.leaves keeper.new) (O.written out.old) (O.written out.new) steps.old steps.new command goal.now self.now.prepared.now loaded.now result }
        ensures ends { Ends (O.written out.old) (O.written out.new) (K.faults keeper.old) (K.faults keeper.new) (O.faults out.old) (O.faults out.new) result }
    {
        match command {
            Command::Init => Outcome::AlreadyBegun,
            Command::Run {
                jobs,
                stop_after,
                ..
            } => self.resume(jobs, stop_after, goal, loaded, keeper, out, steps),
            Command::List
            | Command::Status { .. }
            | Command::Source
            | Command::Baseline
            | Command::Demo { .. } => self.show(command, loaded, keeper, out),
        }
    }

    /// Carries out a command over a loaded book.
    pub(crate) fn carry_out<K: Keeper, O: Sink, L: Ledger>(
        &self,
        command: Command,
        goal: &Goal,
        loaded: &Book,
        keeper: &mut K,
        out: &mut O,
        steps: &mut Steps<L>,
    ) -> Outcome
        requires settled { IsTrue (K.is_settled keeper.old) }
        requires plan { IsPlan self.now.prepared.now }
        requires limit { Runs command → HasItsLimit self.now.prepared.now }
        requires book { OnBook command }
        requires goal { IsGoal goal.now }
        requires slots { HasSlots command }
        requires kept { K.tells keeper.old → Keeps (K.holds keeper.old) (K.leaves keeper.old) loaded.now }
        ensures tells { K.tells keeper.new → K.tells keeper.old }
        ensures work { K.tells keeper.new → Work (K.leaves keeper.new) (O.written out.old) (O.written out.new) steps.old steps.new command goal.now self.now.prepared.now loaded.now result }
        ensures ends { Ends (O.written out.old) (O.written out.new) (K.faults keeper.old) (K.faults keeper.new) (O.faults out.old) (O.faults out.new) result }
    {
        if loaded.is_blank() {
            return self.start(command, goal, keeper, out, steps);
        }
        if loaded.meta.as_slice().is_empty() {
            return Outcome::BookBad(stray(loaded));
        }
        self.go_on(command, goal, loaded, keeper, out, steps)
    }
}
