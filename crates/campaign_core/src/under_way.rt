//! A campaign under way.
//!
//! `slots` have the tests under way, `waiting` what the mutations wait for, `first` is the slot that is looked at first for the next
//! event. Invariant (`IsKept`): the state is that of the campaign's book, the test in each slot is the one that its mutation wants, no
//! mutation is in two slots, each job is one of the tester, and the state has room for each row that may be added: two of each test
//! on each mutation at first, since a test that a run gives up is asked again once at most. Contracts see the campaign, the goal, the
//! tester, the state, the slots, the counts and whether the core was stopped.
ghost use Rattle.std.specs.Prelude.{◌≡◌, ◌↔◌, ◌⊎◌, ◌-◌, ◌<◌, ◌≤◌, true, false, None, Some, IfOk, IfSome, IsTrue, length, replicate};
ghost use Rattle.result_book.specs.Campaigns.{IsFit};
ghost use Rattle.result_book.specs.Goals.{IsGoal};
ghost use Rattle.result_book.specs.States.{IsStateOf};
ghost use Rattle.campaign_core.specs.Events.{IsAllowed};
ghost use Rattle.campaign_core.specs.Orders.{WantsNone, first_given, next_event, next_start, slot_gives};
ghost use Rattle.campaign_core.specs.Turns.{all_wanted, waits_for};
ghost use Rattle.campaign_core.specs.UnderWay.{IsUnderWay, begun};

use crate::event::Event;
use crate::seat::{Seat, Stage, stage_at};
use crate::tester::Tester;
use crate::waiting::Waiting;
use result_book::{Campaign, Goal, State, Want};
use std::alloc::{AllocError, Global};
use std::marker::Model;

/// A campaign whose tests are run in slots.
pub struct Core<'a, T: Tester> {
    pub(crate) campaign: &'a Campaign,
    pub(crate) goal: &'a Goal,
    pub(crate) tester: T,
    pub(crate) state: State,
    pub(crate) slots: Vec<Option<Seat<T::Job>>>,
    pub(crate) waiting: Waiting,
    pub(crate) first: u32,
    pub(crate) acknowledged: u32,
    pub(crate) started: u32,
    pub(crate) is_stopped: bool,
}

impl<T: Tester + Drop> Drop for Core<'_, T> {
    fn drop(self) {
        let Core {
            campaign: _campaign,
            goal: _goal,
            tester: _tester,
            state: _state,
            slots: _slots,
            waiting: _waiting,
            first: _first,
            acknowledged: _acknowledged,
            started: _started,
            is_stopped: _is_stopped,
        } = self;
    }
}

impl<'a, T: Tester> Model for Core<'a, T> {
    ghost use Rattle.std.specs.Coded.{codes};
    ghost use Rattle.result_book.specs.contracts.campaign.Campaign as e;
    ghost use Rattle.result_book.specs.contracts.goal.Goal as g;
    ghost use Rattle.campaign_core.specs.Turns.{Turns};
    ghost use Rattle.campaign_core.specs.Seats.{seen};
    ghost use Rattle.campaign_core.specs.Kept.{IsKept};

    ghost Value = { Turns T };

    ghost coded = { Prim.hlevel (codes, e.the_row.coded, g.the_row.coded) };

    ghost view = { λ c. record { campaign = c.campaign.now; goal = c.goal.now; tester = c.tester; state = c.state; slots = seen T.left c.slots.items; first = c.first; acknowledged = c.acknowledged; started = c.started; is_stopped = c.is_stopped } };

    ghost invariant = { λ c. IsKept (T.mutations c.tester) (T.kinds c.tester) (T.gives c.tester) (T.has c.tester) T.asked T.word c.slots.items c.waiting (record { campaign = c.campaign.now; goal = c.goal.now; tester = c.tester; state = c.state; slots = seen T.left c.slots.items; first = c.first; acknowledged = c.acknowledged; started = c.started; is_stopped = c.is_stopped }) };
}

/// What each mutation wants under the goal.
fn wants(
    alloc: Global,
    campaign: &Campaign,
    state: &State,
    goal: &Goal,
) -> Result<Vec<Option<Want>>, AllocError>
    requires fit { IsFit campaign.now }
    requires state { IsStateOf campaign.now state.now.rows state.now }
    requires goal { IsGoal goal.now }
    ensures { IfOk result (λ wants. wants.items ≡ all_wanted campaign.now state.now.rows goal.now) }
{
    let count = campaign.mutations.as_slice().len() as u32;
    let mut wants = Vec::new(alloc);
    for mutation in 0..count {
        wants.push(state.want(campaign, mutation, goal))?;
    }
    Ok(wants)
}

/// So many free slots.
fn free_slots<J: Drop>(alloc: Global, count: u32) -> Result<Vec<Option<Seat<J>>>, AllocError>
    ensures { IfOk result (λ slots. slots.items ≡ replicate count None) }
{
    let mut slots = Vec::new(alloc);
    for _ in 0..count {
        slots.push(None)?;
    }
    Ok(slots)
}

impl<'a, T: Tester + Drop> Core<'a, T> {
    /// The campaign with so many slots, which are free. There is room for two rows of each test on each mutation, so no further memory is
    /// taken for the rows that are added.
    pub fn new(
        alloc: Global,
        campaign: &'a Campaign,
        state: State,
        tester: T,
        slots: u32,
        goal: &'a Goal,
    ) -> Result<Core<'a, T>, AllocError>
        requires fit { IsFit campaign.now }
        requires state { IsStateOf campaign.now state.rows state }
        requires mutations { T.mutations tester ≡ length campaign.now.mutations }
        requires kinds { T.kinds tester ≡ campaign.now.kinds }
        requires slots { (1 ≤ slots) × (slots ≤ 64) }
        requires goal { IsGoal goal.now }
        ensures new { IfOk result (λ core. core ≡ begun campaign.now goal.now tester state slots) }
        ensures order { IfOk result (λ core. IsUnderWay (T.gives core.tester) core) }
    {
        let mut state = state;
        let wants = wants(alloc, campaign, &state, goal)?;
        let tests = campaign.kinds.as_slice().len() as u32;
        state.reserve(2 * (wants.len() as u32 * tests))?;
        Ok(Core {
            campaign,
            goal,
            tester,
            state,
            slots: free_slots(alloc, slots)?,
            waiting: Waiting::new(alloc, wants)?,
            first: 0,
            acknowledged: 0,
            started: 0,
            is_stopped: false,
        })
    }

    /// What is known of the book.
    pub fn state(&self) -> &State
        ensures same { result.now ≡ self.now.state }
        ensures form { IsStateOf self.now.campaign result.now.rows result.now }
    {
        &self.state
    }

    /// How many rows were added.
    pub fn acknowledged(&self) -> u32
        ensures { result ≡ self.now.acknowledged }
    {
        self.acknowledged
    }

    /// How many tests were started.
    pub fn started(&self) -> u32
        ensures { result ≡ self.now.started }
    {
        self.started
    }

    /// Whether the mutation is in no slot and wants this test under this bound.
    fn waits(&self, mutation: u32, want: Want) -> bool
        ensures { IsTrue result ↔ ((mutation < length self.now.campaign.mutations) × (waits_for self.now mutation ≡ Some want)) }
    {
        self.waiting.of(mutation) == Some(want)
    }

    /// Whether an event may take place while the core is not stopped.
    fn may_take(&self, event: Event) -> bool
        requires { self.now.is_stopped ≡ false }
        ensures { IsTrue result ↔ IsAllowed self.now event }
    {
        match event {
            Event::Start {
                slot,
                mutation,
                test,
                bound,
            } => {
                stage_at(&self.slots, slot) == Stage::Free
                    && self.waits(mutation, Want { test, bound })
            }
            Event::Turn { slot } => stage_at(&self.slots, slot) == Stage::Going,
            Event::Commit { slot } => stage_at(&self.slots, slot) == Stage::Told,
            Event::Stop => true,
        }
    }

    /// Whether an event may take place. It takes no memory.
    pub fn allowed(&self, event: &Event) -> bool
        ensures { IsTrue result ↔ IsAllowed self.now event.now }
    {
        if self.is_stopped {
            return matches!(event, Event::Stop);
        }
        self.may_take(*event)
    }

    /// The start of the least mutation that waits, in this slot.
    fn next_start(&self, slot: u32) -> Option<Event>
        ensures { result ≡ next_start self.now slot }
    {
        let mutation = self.waiting.least()?;
        let want = self.waiting.of(mutation)?;
        Some(Event::Start {
            slot,
            mutation,
            test: want.test,
            bound: want.bound,
        })
    }

    /// What a slot gives.
    fn slot_gives(&self, slot: u32) -> Option<Event>
        ensures { result ≡ slot_gives self.now slot }
    {
        match stage_at(&self.slots, slot) {
            Stage::Absent => None,
            Stage::Free => self.next_start(slot),
            Stage::Going => Some(Event::Turn { slot }),
            Stage::Told => Some(Event::Commit { slot }),
        }
    }

    /// The first event that these slots give.
    fn first_given(&self, from: u32, to: u32) -> Option<Event>
        requires { from ≤ to }
        ensures { result ≡ first_given (slot_gives self.now) from (to - from) }
    {
        for slot in from..to {
            let event = self.slot_gives(slot);
            if event.is_some() {
                return event;
            }
        }
        None
    }

    /// The event that comes next in the order of a program, if any does. It takes no memory.
    pub fn next(&self) -> Option<Event>
        ensures next { result ≡ next_event self.now }
        ensures allowed { IfSome result (IsAllowed self.now) }
        ensures none { (result ≡ None) ↔ ((self.now.is_stopped ≡ true) ⊎ WantsNone self.now) }
    {
        if self.is_stopped {
            return None;
        }
        let event = self.first_given(self.first, self.slots.len() as u32);
        if event.is_some() {
            return event;
        }
        self.first_given(0, self.first)
    }
}
