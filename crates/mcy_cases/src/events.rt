//! Campaigns that are driven by the events of a core, one after the other, beside the call.
ghost use Rattle.std.specs.Prelude.{◌≡◌, ◌<◌, ◌≤◌, [], IfSome, IsTrue, OnOk};
ghost use Rattle.campaign_core.specs.Running.{book_of};
ghost use Rattle.campaign_core.specs.UnderWay.{IsUnderWay};
ghost use Rattle.campaign_run.specs.Limits.{IsTestable};
ghost use Rattle.campaign_plan.specs.Campaigns.{IsPlan};
ghost use Rattle.mcy_keeper.specs.Books.{Keeps};

use campaign_baseline::cycle_limit;
use campaign_core::{Core, CoreError, Tester};
use campaign_plan::Prepared;
use campaign_reading::read_campaign;
use mcy_base::Steps;
use mcy_keeper::{KeepError, Keeper, MemoryKeeper};
use mcy_outside::MemoryFiles;
use project_tester::ProjectTester;
use result_book::{Goal, NumberList, State};
use std::alloc::Global;
use std::marker::Brand;
use std::sync::ledger::{Blank, Ledger};

/// Takes the events of a core as they come next, until none does.
fn drive<T: Tester + Drop, K: Keeper, L: Ledger>(
    core: &mut Core<'_, T>,
    keeper: &mut K,
    steps: &mut Steps<L>,
) -> Result<(), CoreError>
    requires settled { IsTrue (K.is_settled keeper.old) }
    requires order { IsUnderWay (T.gives core.old.tester) core.old }
    requires kept { K.tells keeper.old → Keeps (K.holds keeper.old) (K.leaves keeper.old) (book_of core.old.campaign core.old.state.rows) }
{
    'events: while let Some(event) = core.next() {
        core.event(event, keeper, steps)?;
    }
    Ok(())
}

/// Begins the campaign in the empty book of a keeper.
fn begin<K: Keeper>(keeper: &mut K, prepared: &Prepared) -> Result<(), KeepError>
    requires plan { IsPlan prepared.now }
    ensures settled { OnOk result (IsTrue (K.is_settled keeper.new)) }
    ensures kept { K.tells keeper.new → OnOk result (Keeps (K.holds keeper.new) (K.leaves keeper.new) (book_of prepared.now.campaign [])) }
{
    let loaded = keeper.load()?;
    if loaded.is_blank() {
        keeper.begin(&prepared.campaign.meta, &prepared.campaign.mutations)
    } else {
        Err(KeepError::Fault)
    }
}

/// Runs a campaign whole over an empty keeper, in so many slots.
fn run_prepared<K: Keeper, L: Ledger>(
    alloc: Global,
    prepared: &Prepared,
    slots: u32,
    keeper: &mut K,
    blank: Blank,
) -> Result<(), CoreError>
    requires ready { IsTestable prepared.now }
    requires slots { (1 ≤ slots) × (slots ≤ 64) }
    requires name { blank.name ≡ L.name }
    requires parts { blank.parts ≡ L.parts }
    requires one { 0 < blank.parts }
{
    begin(keeper, prepared)?;
    let state = State::new(alloc, &prepared.campaign)?;
    let tester = ProjectTester::new(alloc, prepared);
    let goal = Goal {
        retry: 0,
        part: 0,
        parts: 1,
        mutations: NumberList::from_vec(Vec::new(alloc)),
    };
    let mut core = Core::new(alloc, &prepared.campaign, state, tester, slots, &goal)?;
    let mut steps = Steps::<L>::open(blank);
    drive(&mut core, keeper, &mut steps)
}

/// The campaign of these files with its limit of cycles, if they make one that can be run.
fn read_testable(alloc: Global, files: &mut MemoryFiles) -> Option<Prepared>
    ensures { IfSome result IsTestable }
{
    let Ok(prepared) = read_campaign(alloc, files) else {
        return None;
    };
    let Ok(found) = cycle_limit(alloc, &prepared) else {
        return None;
    };
    match found {
        Some(cycles) => Some(prepared.with_cycles(cycles)),
        None => None,
    }
}

/// Runs the campaign of these files whole over an empty keeper, in so many slots. Where they make none that can be run, or a core has not
/// so many slots, nothing is run.
pub(crate) fn run_by_events(
    alloc: Global,
    files: &mut MemoryFiles,
    keeper: &mut MemoryKeeper,
    slots: u32,
) -> Result<(), CoreError> {
    if slots == 0 || slots > 64 {
        return Ok(());
    }
    match read_testable(alloc, files) {
        Some(prepared) => run_prepared::<MemoryKeeper, Brand>(
            alloc,
            &prepared,
            slots,
            keeper,
            Blank::new(1),
        ),
        None => Ok(()),
    }
}
