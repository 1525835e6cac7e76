//! A whole run over a keeper of its own.
ghost use Rattle.std.specs.Prelude.{◌≡◌, ◌<◌, ◌≤◌, [], OnOk, length, replicate, true};
ghost use Rattle.mcy_keeper.specs.Books.{blank};
ghost use Rattle.result_book.specs.Campaigns.{IsFit};
ghost use Rattle.campaign_core.specs.Running.{book_of};

use crate::ready::Ready;
use campaign_core::{Core, CoreError};
use mcy_base::Steps;
use mcy_keeper::{CleanKeeper, KeepError, Keeper};
use result_book::{Campaign, Goal, NumberList, State};
use std::alloc::Global;
use std::sync::ledger::{Blank, Ledger};

/// What a run leaves: the keeper of its book, and how many tests it started.
#[derive(Drop)]
pub(crate) struct Ran {
    pub(crate) keeper: CleanKeeper,
    pub(crate) started: u32,
}

/// Begins the campaign's book in an empty keeper.
fn begin(campaign: &Campaign, keeper: &mut CleanKeeper) -> Result<(), KeepError>
    requires fit { IsFit campaign.now }
    requires empty { keeper.old.book ≡ blank }
    ensures settled { OnOk result (keeper.new.settled ≡ true) }
    ensures begun { OnOk result (keeper.new.book ≡ book_of campaign.now []) }
{
    let _empty = keeper.load()?;
    keeper.begin(&campaign.meta, &campaign.mutations)
}

/// Runs the campaign with so many slots, to its end or to so many rows.
pub(crate) fn run<L: Ledger>(
    alloc: Global,
    campaign: &Campaign,
    tester: Ready,
    slots: u32,
    stop: Option<u32>,
    steps: Blank,
) -> Result<Ran, CoreError>
    requires fit { IsFit campaign.now }
    requires mutations { tester.mutations ≡ length campaign.now.mutations }
    requires kinds { replicate tester.tests 0 ≡ campaign.now.kinds }
    requires slots { (1 ≤ slots) × (slots ≤ 64) }
    requires name { steps.name ≡ L.name }
    requires parts { steps.parts ≡ L.parts }
    requires one { 0 < steps.parts }
{
    let mut steps = Steps::<L>::open(steps);
    let mut keeper = CleanKeeper::new(alloc);
    begin(campaign, &mut keeper)?;
    let state = State::new(alloc, campaign)?;
    let goal = Goal {
        retry: 0,
        part: 0,
        parts: 1,
        mutations: NumberList::from_vec(Vec::new(alloc)),
    };
    let mut core = Core::new(alloc, campaign, state, tester, slots, &goal)?;
    core.run(stop, &mut keeper, &mut steps)?;
    Ok(Ran {
        started: core.started(),
        keeper,
    })
}
