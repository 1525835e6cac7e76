//! A command over a loaded book: under which limit of cycles it is carried out, or how it is refused by the campaign's baselines.
//!
//! The baselines are found before the book is judged, since a refusal by the book is told first and needs no limit. The book is judged
//! once in either case.
ghost use Rattle.std.specs.Prelude.{◌⊎◌, ◌↔◌, ℕ, List, Option, IfErr, IfOk, IsTrue, MatchOption, OnOk};
ghost use Rattle.mcy_keeper.specs.Books.{IsBlank, Keeps};
ghost use Rattle.result_book.specs.declared.goal.Goal.{Goal as Aim};
ghost use Rattle.result_book.specs.Goals.{IsGoal};
ghost use Rattle.result_book.specs.Rows.{IsWellFormed};
ghost use Rattle.command_words.specs.declared.command.Command.{Command as Asked};
ghost use Rattle.campaign_plan.specs.declared.prepared.Prepared.{Prepared as Planned};
ghost use Rattle.campaign_plan.specs.Campaigns.{IsPlan};
ghost use Rattle.mcy_top.specs.BookRefusals.{HasNamed, RefusesBook};
ghost use Rattle.mcy_top.specs.Commands.{HasSlots, OnBook, Runs};
ghost use Rattle.mcy_top.specs.Endings.{Ends};
ghost use Rattle.mcy_top.specs.Life.{Carried, Takes, Work};
ghost use Rattle.mcy_top.specs.LimitedWork.{WorkUnder};
ghost use Rattle.mcy_top.specs.Limits.{IsLimitFor, IsUnfit, Opens};

use crate::refusal::{BookRefusal, stray};
use crate::work::Task;
use campaign_baseline::cycle_limit;
use campaign_outcomes::Outcome;
use campaign_plan::Prepared;
use command_words::Command;
use mcy_base::Steps;
use mcy_keeper::{Book, Keeper};
use mcy_outside::Sink;
use result_book::Goal;
use std::alloc::{AllocError, Global};
use std::sync::ledger::Ledger;

/// Whether a command begins a campaign, or runs it.
fn opens(command: Command) -> bool
    ensures { IsTrue result ↔ Opens command }
{
    match command {
        Command::Init => true,
        Command::Run { .. } => true,
        Command::List => false,
        Command::Status { .. } => false,
        Command::Source => false,
        Command::Baseline => false,
        Command::Demo { .. } => false,
    }
}

/// The limit of cycles under which a command is carried out; there is none where it is refused by the baselines.
fn limit_for(
    alloc: Global,
    command: Command,
    prepared: &Prepared,
) -> Result<Option<u32>, AllocError>
    requires { IsPlan prepared.now }
    ensures { IfOk result (λ found. MatchOption found (IsUnfit command prepared.now) (IsLimitFor command prepared.now)) }
{
    if opens(command) {
        cycle_limit(alloc, prepared)
    } else {
        Ok(Some(prepared.cycles))
    }
}

/// Whether a campaign may begin in the book.
fn init_takes(loaded: &Book) -> Result<(), BookRefusal>
    ensures taken { OnOk result (IsBlank loaded.now) }
    ensures refused { IfErr result (λ refusal. (aim : Aim) (c : Planned) → RefusesBook Command.Init aim c loaded.now refusal) }
{
    if loaded.is_blank() {
        return Ok(());
    }
    if loaded.meta.as_slice().is_empty() {
        return Err(BookRefusal::BookBad(stray(loaded)));
    }
    Err(BookRefusal::AlreadyBegun)
}

impl Task<'_> {
    /// Whether a run may begin in the book or go on with it.
    fn run_takes(&self, goal: &Goal, loaded: &Book) -> Result<(), BookRefusal>
        requires plan { IsPlan self.now.prepared.now }
        ensures taken { OnOk result ((IsBlank loaded.now ⊎ IsWellFormed self.now.prepared.now.campaign loaded.now) × HasNamed goal.now self.now.prepared.now) }
        ensures refused { IfErr result (λ refusal. (command : Asked) → Runs command → RefusesBook command goal.now self.now.prepared.now loaded.now refusal) }
    {
        if loaded.is_blank() {
            return match self.lacking(goal) {
                None => Ok(()),
                Some(number) => Err(BookRefusal::NoMutation(number)),
            };
        }
        if loaded.meta.as_slice().is_empty() {
            return Err(BookRefusal::BookBad(stray(loaded)));
        }
        match self.ready(goal, loaded) {
            Ok(_) => Ok(()),
            Err(refusal) => Err(refusal),
        }
    }

    /// Whether a command takes the book that begins a campaign or runs it.
    fn takes(&self, command: Command, goal: &Goal, loaded: &Book) -> Result<(), BookRefusal>
        requires plan { IsPlan self.now.prepared.now }
        requires opens { Opens command }
        ensures taken { OnOk result (Takes command goal.now self.now.prepared.now loaded.now) }
        ensures refused { IfErr result (RefusesBook command goal.now self.now.prepared.now loaded.now) }
    {
        match command {
            Command::Init => init_takes(loaded),
            _ => self.run_takes(goal, loaded),
        }
    }

    /// How a command is refused by the baselines, or by the book.
    fn refuse<K: Keeper>(&self, command: Command, goal: &Goal, loaded: &Book, keeper: &K) -> Outcome
        requires plan { IsPlan self.now.prepared.now }
        requires unfit { IsUnfit command self.now.prepared.now }
        requires kept { K.tells keeper.now → Keeps (K.holds keeper.now) (K.leaves keeper.now) loaded.now }
        ensures work { K.tells keeper.now → (written : Option (List ℕ)) (n : ℕ) → Work (K.leaves keeper.now) written written n n command goal.now self.now.prepared.now loaded.now result }
        ensures ends { (written : Option (List ℕ)) (keeper sink : ℕ) → Ends written written keeper keeper sink sink result }
        ensures stays { ¬ Carried result }
    {
        match self.takes(command, goal, loaded) {
            Ok(()) => Outcome::BaselineBad,
            Err(refusal) => refusal.into_outcome(),
        }
    }
}

/// Carries out a command over a loaded book.
pub(crate) fn on_book<K: Keeper, O: Sink, L: Ledger>(
    alloc: Global,
    command: Command,
    goal: &Goal,
    prepared: Prepared,
    loaded: &Book,
    keeper: &mut K,
    out: &mut O,
    steps: &mut Steps<L>,
) -> Outcome
    requires settled { IsTrue (K.is_settled keeper.old) }
    requires plan { IsPlan prepared }
    requires book { OnBook command }
    requires goal { IsGoal goal.now }
    requires slots { HasSlots command }
    requires kept { K.tells keeper.old → Keeps (K.holds keeper.old) (K.leaves keeper.old) loaded.now }
    ensures tells { K.tells keeper.new → K.tells keeper.old }
    ensures work { K.tells keeper.new → WorkUnder (K.leaves keeper.new) (O.written out.old) (O.written out.new) steps.old steps.new command goal.now prepared loaded.now result }
    ensures ends { Ends (O.written out.old) (O.written out.new) (K.faults keeper.old) (K.faults keeper.new) (O.faults out.old) (O.faults out.new) result }
{
    let Ok(found) = limit_for(alloc, command, &prepared) else {
        return Outcome::Memory;
    };
    match found {
        Some(cycles) => {
            let limited = prepared.with_cycles(cycles);
            let task = Task {
                alloc,
                prepared: &limited,
            };
            task.carry_out(command, goal, loaded, keeper, out, steps)
        }
        None => {
            let task = Task {
                alloc,
                prepared: &prepared,
            };
            task.refuse(command, goal, loaded, keeper)
        }
    }
}
