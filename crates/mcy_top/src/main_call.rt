//! The one call of the program.
ghost use Rattle.std.specs.Prelude.{◌≡◌, ◌⊎◌, ◌<◌, ℕ, map, string_bytes};
ghost use Rattle.command_words.specs.declared.command.Command.{Command as Asked};
ghost use Rattle.mcy_top.specs.Baselines.{ToldBaselines};
ghost use Rattle.mcy_top.specs.Commands.{goal_of, AsksBaseline, AsksDemo, AsksNoDemo};
ghost use Rattle.mcy_top.specs.Complete.{Completes, IsReady, NoneRose};
ghost use Rattle.mcy_top.specs.Life.{Answered, HasCause, IsQuiet, Life, Unloaded};
ghost use Rattle.mcy_top.specs.Passes.{LeavesTruePasses};
ghost use Rattle.mcy_top.specs.Shown.{Shown};

use crate::baseline::baseline;
use crate::demo::demo;
use crate::ending::failed;
use crate::limited::on_book;
use crate::refusal::refused;
use crate::running::run_goal;
use campaign_outcomes::Outcome;
use campaign_reading::read_campaign;
use command_words::{Command, MutationNumbers, read_words};
use mcy_base::Steps;
use mcy_keeper::Keeper;
use mcy_outside::{Sink, SourceFiles};
use result_book::Goal;
use std::alloc::Global;
use std::marker::Brand;
use std::sync::ledger::{Blank, Ledger};

/// What is aimed at by a command that names these mutations.
fn goal_of(command: Command, numbers: MutationNumbers) -> Goal
    ensures { result ≡ goal_of command numbers }
{
    match command {
        Command::Run { retry, .. } => run_goal(retry, numbers),
        Command::Init => run_goal(None, numbers),
        Command::List => run_goal(None, numbers),
        Command::Status { .. } => run_goal(None, numbers),
        Command::Source => run_goal(None, numbers),
        Command::Baseline => run_goal(None, numbers),
        Command::Demo { .. } => run_goal(None, numbers),
    }
}

/// Carries out the command that the words after the program's name give: reads the project and its
/// source from `files`, keeps the campaign's results in `keeper`, and writes the command's text to
/// `out`. A step of `steps` is one test started. A demo is shown with none of these but `out` and `steps`, and what
/// the benches say of the design itself is told with neither `keeper` nor `steps`.
pub fn mcy_main<F: SourceFiles, K: Keeper, O: Sink, L: Ledger>(
    alloc: Global,
    words: &[String],
    files: &mut F,
    keeper: &mut K,
    out: &mut O,
    steps: &mut Steps<L>,
) -> Outcome
    ensures tells { K.tells keeper.new → K.tells keeper.old }

    // What the outcome says of the words and the files, where no demo is asked for.
    ensures answer { AsksNoDemo (map string_bytes words.now) → Answered (map string_bytes words.now) (F.held files.old) result }

    // A fault comes only where its count rose.
    ensures cause { HasCause (F.faults files.old) (F.faults files.new) (K.faults keeper.old) (K.faults keeper.new) (O.faults out.old) (O.faults out.new) result }

    // Nothing is written at a refusal.
    ensures quiet { IsQuiet (O.written out.old) (O.written out.new) result }

    // No book was loaded; or what the call does with the book, the steps and the text.
    ensures life { K.tells keeper.new → Unloaded (map string_bytes words.now) (K.leaves keeper.old) (K.leaves keeper.new) steps.old steps.new result
        ⊎ Life (map string_bytes words.now) (F.held files.old) (K.holds keeper.old) (K.leaves keeper.old) (K.leaves keeper.new) (O.written out.old) (O.written out.new) steps.old steps.new result }

    // A demo reads no file and makes no call on the keeper.
    ensures demo { (seed cells : ℕ) → AsksDemo (map string_bytes words.now) seed cells → Shown seed cells (O.written out.old) (O.written out.new) steps.old steps.new result × (files.new ≡ files.old) × (keeper.new ≡ keeper.old) }

    // What the benches say of the design itself is told without a call on the keeper, and no test is started.
    ensures baseline { AsksBaseline (map string_bytes words.now) → ToldBaselines (F.held files.old) (O.written out.old) (O.written out.new) result × (steps.new ≡ steps.old) × (keeper.new ≡ keeper.old) }

    // Where each row PASS of an equivalence test was true in each book that a crash could leave before, each is in those that it may leave now.
    ensures pass { K.tells keeper.new → LeavesTruePasses (K.leaves keeper.old) → LeavesTruePasses (K.leaves keeper.new) }

    // Where all is there and nothing fails, the command is carried out, or there is no memory.
    ensures complete { K.tells keeper.new → (command : Asked) → IsReady (map string_bytes words.now) (F.held files.old) (K.holds keeper.old) (K.leaves keeper.old) command
        → NoneRose (F.faults files.old) (F.faults files.new) (K.faults keeper.old) (K.faults keeper.new) (O.faults out.old) (O.faults out.new) → Completes command result }
{
    carry_out_words(alloc, words, files, keeper, out, steps)
}

/// Carries out the command, with every promise but those on rows PASS and that it is completed.
fn carry_out_words<F: SourceFiles, K: Keeper, O: Sink, L: Ledger>(
    alloc: Global,
    words: &[String],
    files: &mut F,
    keeper: &mut K,
    out: &mut O,
    steps: &mut Steps<L>,
) -> Outcome
    ensures tells { K.tells keeper.new → K.tells keeper.old }
    ensures answer { AsksNoDemo (map string_bytes words.now) → Answered (map string_bytes words.now) (F.held files.old) result }
    ensures cause { HasCause (F.faults files.old) (F.faults files.new) (K.faults keeper.old) (K.faults keeper.new) (O.faults out.old) (O.faults out.new) result }
    ensures quiet { IsQuiet (O.written out.old) (O.written out.new) result }
    ensures life { K.tells keeper.new → Unloaded (map string_bytes words.now) (K.leaves keeper.old) (K.leaves keeper.new) steps.old steps.new result
        ⊎ Life (map string_bytes words.now) (F.held files.old) (K.holds keeper.old) (K.leaves keeper.old) (K.leaves keeper.new) (O.written out.old) (O.written out.new) steps.old steps.new result }
    ensures demo { (seed cells : ℕ) → AsksDemo (map string_bytes words.now) seed cells → Shown seed cells (O.written out.old) (O.written out.new) steps.old steps.new result × (files.new ≡ files.old) × (keeper.new ≡ keeper.old) }
    ensures baseline { AsksBaseline (map string_bytes words.now) → ToldBaselines (F.held files.old) (O.written out.old) (O.written out.new) result × (steps.new ≡ steps.old) × (keeper.new ≡ keeper.old) }
{
    let asked = match read_words(alloc, words) {
        Ok(Some(asked)) => asked,
        Ok(None) => return Outcome::Usage,
        Err(_) => return Outcome::Memory,
    };
    let command = asked.command;
    if let Command::Demo { seed, cells } = command {
        return demo(alloc, seed, cells, out, steps);
    }
    let prepared = match read_campaign(alloc, files) {
        Ok(prepared) => prepared,
        Err(refusal) => return refused(refusal),
    };
    if let Command::Baseline = command {
        return baseline(alloc, &prepared, out);
    }
    match keeper.load() {
        Ok(loaded) => {
            let goal = goal_of(command, asked.mutations);
            on_book(alloc, command, &goal, prepared, &loaded, keeper, out, steps)
        }
        Err(error) => failed(error),
    }
}

/// The same call with a counter of its own, which nobody reads: it takes some number n of steps.
pub fn mcy_call<F: SourceFiles, K: Keeper, O: Sink>(
    alloc: Global,
    words: &[String],
    files: &mut F,
    keeper: &mut K,
    out: &mut O,
) -> Outcome
    ensures tells { K.tells keeper.new → K.tells keeper.old }
    ensures answer { AsksNoDemo (map string_bytes words.now) → Answered (map string_bytes words.now) (F.held files.old) result }
    ensures cause { HasCause (F.faults files.old) (F.faults files.new) (K.faults keeper.old) (K.faults keeper.new) (O.faults out.old) (O.faults out.new) result }
    ensures quiet { IsQuiet (O.written out.old) (O.written out.new) result }
    ensures life { K.tells keeper.new → (n : ℕ) × (Unloaded (map string_bytes words.now) (K.leaves keeper.old) (K.leaves keeper.new) 0 n result
        ⊎ Life (map string_bytes words.now) (F.held files.old) (K.holds keeper.old) (K.leaves keeper.old) (K.leaves keeper.new) (O.written out.old) (O.written out.new) 0 n result) }
    ensures demo { (seed cells : ℕ) → AsksDemo (map string_bytes words.now) seed cells → (n : ℕ) × Shown seed cells (O.written out.old) (O.written out.new) 0 n result × (files.new ≡ files.old) × (keeper.new ≡ keeper.old) }
    ensures baseline { AsksBaseline (map string_bytes words.now) → ToldBaselines (F.held files.old) (O.written out.old) (O.written out.new) result × (keeper.new ≡ keeper.old) }
    ensures pass { K.tells keeper.new → LeavesTruePasses (K.leaves keeper.old) → LeavesTruePasses (K.leaves keeper.new) }
    ensures complete { K.tells keeper.new → (command : Asked) → IsReady (map string_bytes words.now) (F.held files.old) (K.holds keeper.old) (K.leaves keeper.old) command
        → NoneRose (F.faults files.old) (F.faults files.new) (K.faults keeper.old) (K.faults keeper.new) (O.faults out.old) (O.faults out.new) → Completes command result }
{
    call_with::<F, K, O, Brand>(alloc, words, files, keeper, out, Blank::new(1))
}

/// The same call with a counter that is opened for it.
fn call_with<F: SourceFiles, K: Keeper, O: Sink, L: Ledger>(
    alloc: Global,
    words: &[String],
    files: &mut F,
    keeper: &mut K,
    out: &mut O,
    blank: Blank,
) -> Outcome
    requires name { blank.name ≡ L.name }
    requires parts { blank.parts ≡ L.parts }
    requires one { 0 < blank.parts }
    ensures tells { K.tells keeper.new → K.tells keeper.old }
    ensures answer { AsksNoDemo (map string_bytes words.now) → Answered (map string_bytes words.now) (F.held files.old) result }
    ensures cause { HasCause (F.faults files.old) (F.faults files.new) (K.faults keeper.old) (K.faults keeper.new) (O.faults out.old) (O.faults out.new) result }
    ensures quiet { IsQuiet (O.written out.old) (O.written out.new) result }
    ensures life { K.tells keeper.new → (n : ℕ) × (Unloaded (map string_bytes words.now) (K.leaves keeper.old) (K.leaves keeper.new) 0 n result
        ⊎ Life (map string_bytes words.now) (F.held files.old) (K.holds keeper.old) (K.leaves keeper.old) (K.leaves keeper.new) (O.written out.old) (O.written out.new) 0 n result) }
    ensures demo { (seed cells : ℕ) → AsksDemo (map string_bytes words.now) seed cells → (n : ℕ) × Shown seed cells (O.written out.old) (O.written out.new) 0 n result × (files.new ≡ files.old) × (keeper.new ≡ keeper.old) }
    ensures baseline { AsksBaseline (map string_bytes words.now) → ToldBaselines (F.held files.old) (O.written out.old) (O.written out.new) result × (keeper.new ≡ keeper.old) }
    ensures pass { K.tells keeper.new → LeavesTruePasses (K.leaves keeper.old) → LeavesTruePasses (K.leaves keeper.new) }
    ensures complete { K.tells keeper.new → (command : Asked) → IsReady (map string_bytes words.now) (F.held files.old) (K.holds keeper.old) (K.leaves keeper.old) command
        → NoneRose (F.faults files.old) (F.faults files.new) (K.faults keeper.old) (K.faults keeper.new) (O.faults out.old) (O.faults out.new) → Completes command result }
{
    let mut steps = Steps::<L>::open(blank);
    mcy_main(alloc, words, files, keeper, out, &mut steps)
}
