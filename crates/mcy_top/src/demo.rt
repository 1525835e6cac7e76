//! A demo: the whole campaign of a project that two numbers make.
//!
//! No file is read, and no keeper is handed in. The texts of the project are made, the book is kept in memory, and so is the status, which
//! stands in the summary.
ghost use Rattle.std.specs.Prelude.{◌≡◌, ◌≤◌, ℕ, [], false, None, IfOk, IsTrue};
ghost use Rattle.mcy_keeper.specs.Books.{blank};
ghost use Rattle.campaign_plan.specs.Campaigns.{IsPlan};
ghost use Rattle.mcy_top.specs.Commands.{run_goal};
ghost use Rattle.mcy_top.specs.Life.{HasCause, IsQuiet};
ghost use Rattle.mcy_top.specs.Shown.{IsMadeOf, IsSummary, RanPart, RanWhole, Shown};
ghost use Rattle.made_campaign.specs.Made.{made_limit};

use crate::ending::deliver;
use crate::kept_text::KeptText;
use crate::refusal::refused;
use crate::running::run_goal;
use crate::work::Task;
use campaign_baseline::laws::baselines_are_one;
use campaign_outcomes::Outcome;
use campaign_plan::Prepared;
use made_campaign::made_campaign;
use made_project::summary;
use mcy_base::{Bytes, Steps};
use mcy_keeper::{CleanKeeper, KeepError, Keeper};
use mcy_outside::Sink;
use result_book::{Goal, NumberList};
use sim_words::mutants_tell_the_same;
use std::alloc::{AllocError, Global};
use std::sync::ledger::Ledger;
use tb_once::{benches_have_one_outcome, designs_in_benches};

/// How many tests of a demo are under way at once.
const SLOTS: u32 = 4;

/// A keeper that has loaded the empty book.
fn settled_keeper(alloc: Global) -> Result<CleanKeeper, KeepError>
    ensures settled { IfOk result (λ keeper. IsTrue keeper.settled) }
    ensures empty { IfOk result (λ keeper. keeper.book ≡ blank) }
{
    let mut keeper = CleanKeeper::new(alloc);
    keeper.load()?;
    Ok(keeper)
}

/// What a run aims at that looks at all mutations, and asks nothing again.
fn goal_of_all(alloc: Global) -> Goal
    ensures { result ≡ run_goal None [] }
{
    run_goal(None, NumberList::from_vec(Vec::new(alloc)))
}

/// Runs the whole campaign over a keeper of its own, and keeps its status. It finds no memory, or comes to its end.
fn run_whole<L: Ledger>(
    alloc: Global,
    prepared: &Prepared,
    steps: &mut Steps<L>,
) -> Result<KeptText, AllocError>
    requires plan { IsPlan prepared.now }
    requires fixed { prepared.now.auto_cycles ≡ false }
    ensures whole { IfOk result (λ kept. RanWhole prepared.now prepared.now.campaign.conflicts steps.old steps.new kept.text) }
    ensures part { RanPart prepared.now prepared.now.campaign.conflicts steps.old steps.new }
{
    benches_have_one_outcome();
    designs_in_benches();
    mutants_tell_the_same();
    baselines_are_one();
    let mut status = KeptText::new(alloc);
    let Ok(mut keeper) = settled_keeper(alloc) else {
        return Err(AllocError);
    };
    let task = Task { alloc, prepared };
    let goal = goal_of_all(alloc);
    let outcome = task.begin_and_run(SLOTS, None, &goal, &mut keeper, &mut status, steps);
    match &outcome {
        Outcome::Done => Ok(status),
        _ => Err(AllocError),
    }
}

/// The summary of the campaign of two numbers, which is run for it.
fn summary_of<L: Ledger>(
    alloc: Global,
    seed: u64,
    cells: u32,
    prepared: &Prepared,
    steps: &mut Steps<L>,
) -> Result<Bytes, AllocError>
    requires made { IsMadeOf seed cells prepared.now }
    requires limit { prepared.now.campaign.conflicts ≡ made_limit }
    requires fixed { prepared.now.auto_cycles ≡ false }
    ensures whole { IfOk result (IsSummary seed cells steps.old steps.new) }
    ensures part { RanPart prepared.now made_limit steps.old steps.new }
{
    let status = run_whole(alloc, prepared, steps)?;
    summary(alloc, seed, cells, prepared.site_count, status.as_slice())
}

/// Runs the whole campaign of the project that the two numbers make, and writes its summary.
pub(crate) fn demo<O: Sink, L: Ledger>(
    alloc: Global,
    seed: u64,
    cells: u32,
    out: &mut O,
    steps: &mut Steps<L>,
) -> Outcome
    requires cells { (1 ≤ cells) × (cells ≤ 400) }
    ensures shown { Shown seed cells (O.written out.old) (O.written out.new) steps.old steps.new result }
    ensures quiet { IsQuiet (O.written out.old) (O.written out.new) result }
    ensures cause { (files keeper : ℕ) → HasCause files files keeper keeper (O.faults out.old) (O.faults out.new) result }
{
    let prepared = match made_campaign(alloc, seed, cells) {
        Ok(prepared) => prepared,
        Err(refusal) => return refused(refusal),
    };
    match summary_of(alloc, seed, cells, &prepared, steps) {
        Ok(text) => deliver(text.as_slice(), out).outcome(Outcome::Done),
        Err(_) => Outcome::Memory,
    }
}
