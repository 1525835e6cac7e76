//! What each event does to a campaign under way.
//!
//! A test is started in a free slot, the job of a slot takes a turn, or the row of a job's word is added to the book. What is refused
//! changes nothing but the turns that a job has left.
ghost use Rattle.std.specs.Prelude.{◌≡◌, ◌+◌, ◌≤◌, IsErrOf, IsTrue, OnErr, OnOk};
ghost use Rattle.mcy_base.specs.Causes.{IsCaused};
ghost use Rattle.campaign_core.specs.Events.{IsAllowed, IsUnchanged, Takes, slot_after};
ghost use Rattle.campaign_core.specs.Keeping.{AddsRow, AddsRowBy, AreTold, TouchesNone, steps_of};
ghost use Rattle.campaign_core.specs.Testers.{IsSame};
ghost use Rattle.campaign_core.specs.UnderWay.{IsUnderWay};

use crate::event::{CoreError, Event};
use crate::seat::{Seat, Work, take_turn, told_at};
use crate::tester::Tester;
use crate::under_way::Core;
use mcy_base::Steps;
use mcy_keeper::Keeper;
use result_book::Want;
use std::alloc::AllocError;
use std::sync::ledger::Ledger;

/// The slot behind this one, round to the first.
fn slot_after(slot: u32, count: usize) -> u32
    requires { count ≤ 64 }
    ensures { result ≡ slot_after slot count }
{
    match slot.checked_add(1) {
        Some(next) if (next as usize) < count => next,
        _ => 0,
    }
}

impl<T: Tester + Drop> Core<'_, T> {
    /// Starts a test in a free slot.
    fn start<L: Ledger>(
        &mut self,
        slot: u32,
        mutation: u32,
        want: Want,
        steps: &mut Steps<L>,
    ) -> Result<(), AllocError>
        requires { IsAllowed self.old (Event.Start slot mutation want.test want.bound) }
        ensures taken { OnOk result (Takes (T.gives self.old.tester) (T.most self.old.tester) self.old (Event.Start slot mutation want.test want.bound) self.new) }
        ensures refused { OnErr result (IsUnchanged self.old self.new) }
        ensures same { IsSame (T.mutations self.old.tester) (T.mutations self.new.tester) (T.kinds self.old.tester) (T.kinds self.new.tester) (T.gives self.old.tester) (T.gives self.new.tester) (T.most self.old.tester) (T.most self.new.tester) }
        ensures order { IsUnderWay (T.gives self.new.tester) self.new }
        ensures ok { OnOk result (steps.new ≡ steps.old + 1) }
        ensures err { OnErr result (steps.new ≡ steps.old) }
    {
        let job = self.tester.start(mutation, want.test, want.bound, steps)?;
        self.slots[slot as usize] = Some(Seat {
            mutation,
            want,
            work: Work::Going(job),
        });
        self.waiting.set(mutation, None);
        self.first = slot_after(slot, self.slots.len());
        self.started += 1;
        Ok(())
    }

    /// Lets the job of a slot take a turn.
    fn turn(&mut self, slot: u32) -> Result<(), AllocError>
        requires { IsAllowed self.old (Event.Turn slot) }
        ensures taken { OnOk result (Takes (T.gives self.old.tester) (T.most self.old.tester) self.old (Event.Turn slot) self.new) }
        ensures refused { OnErr result (IsUnchanged self.old self.new) }
        ensures same { IsSame (T.mutations self.old.tester) (T.mutations self.new.tester) (T.kinds self.old.tester) (T.kinds self.new.tester) (T.gives self.old.tester) (T.gives self.new.tester) (T.most self.old.tester) (T.most self.new.tester) }
        ensures order { IsUnderWay (T.gives self.new.tester) self.new }
    {
        let Some(seat) = &mut self.slots[slot as usize] else {
            return Ok(());
        };
        take_turn(&mut self.tester, seat)?;
        self.first = slot_after(slot, self.slots.len());
        Ok(())
    }

    /// Adds the row of the word of a slot's job, and frees the slot.
    fn commit<K: Keeper>(&mut self, slot: u32, keeper: &mut K) -> Result<(), CoreError>
        requires allowed { IsAllowed self.old (Event.Commit slot) }
        requires settled { IsTrue (K.is_settled keeper.old) }
        requires told { AreTold (K.holds keeper.old) self.old.state.rows }
        ensures taken { OnOk result (Takes (T.gives self.old.tester) (T.most self.old.tester) self.old (Event.Commit slot) self.new) }
        ensures refused { OnErr result (IsUnchanged self.old self.new) }
        ensures same { self.new.tester ≡ self.old.tester }
        ensures order { IsUnderWay (T.gives self.new.tester) self.new }
        ensures tells { K.tells keeper.new → K.tells keeper.old }
        ensures kept { K.tells keeper.new → AddsRow self.old slot (K.holds keeper.old) (K.holds keeper.new) (K.leaves keeper.old) (K.leaves keeper.new) result }
        ensures settled { OnOk result (IsTrue (K.is_settled keeper.new)) }
        ensures stays { IsErrOf result CoreError.Memory → IsTrue (K.is_settled keeper.new) }
        ensures cause { IsCaused (K.faults keeper.old) (K.faults keeper.new) (IsErrOf result CoreError.Keeper) }
    {
        let Some(told) = told_at(&self.slots, slot) else {
            return Ok(());
        };
        let Want { test, bound } = told.want;
        let entry = self
            .state
            .entry_for(self.campaign, told.mutation, test, told.word, bound);
        keeper.append(&entry)?;
        self.state.add(self.campaign, &entry);
        self.slots[slot as usize] = None;
        let next = self.state.want(self.campaign, told.mutation, self.goal);
        self.waiting.set(told.mutation, next);
        self.first = slot_after(slot, self.slots.len());
        self.acknowledged += 1;
        Ok(())
    }

    /// Lets an allowed event take place. A Commit takes no memory other than the keeper's.
    pub fn event<K: Keeper, L: Ledger>(
        &mut self,
        event: Event,
        keeper: &mut K,
        steps: &mut Steps<L>,
    ) -> Result<(), CoreError>
        requires allowed { IsAllowed self.old event }
        requires settled { IsTrue (K.is_settled keeper.old) }
        requires told { AreTold (K.holds keeper.old) self.old.state.rows }
        ensures taken { OnOk result (Takes (T.gives self.old.tester) (T.most self.old.tester) self.old event self.new) }
        ensures refused { OnErr result (IsUnchanged self.old self.new) }
        ensures same { IsSame (T.mutations self.old.tester) (T.mutations self.new.tester) (T.kinds self.old.tester) (T.kinds self.new.tester) (T.gives self.old.tester) (T.gives self.new.tester) (T.most self.old.tester) (T.most self.new.tester) }
        ensures order { IsUnderWay (T.gives self.new.tester) self.new }
        ensures untouched { TouchesNone event → keeper.new ≡ keeper.old }
        ensures tells { K.tells keeper.new → K.tells keeper.old }
        ensures kept { K.tells keeper.new → AddsRowBy self.old event (K.holds keeper.old) (K.holds keeper.new) (K.leaves keeper.old) (K.leaves keeper.new) result }
        ensures settled { OnOk result (IsTrue (K.is_settled keeper.new)) }
        ensures stays { IsErrOf result CoreError.Memory → IsTrue (K.is_settled keeper.new) }
        ensures steps { OnOk result (steps.new ≡ steps.old + steps_of event) }
        ensures no_steps { OnErr result (steps.new ≡ steps.old) }
        ensures cause { IsCaused (K.faults keeper.old) (K.faults keeper.new) (IsErrOf result CoreError.Keeper) }
    {
        match event {
            Event::Start {
                slot,
                mutation,
                test,
                bound,
            } => Ok(self.start(slot, mutation, Want { test, bound }, steps)?),
            Event::Turn { slot } => Ok(self.turn(slot)?),
            Event::Commit { slot } => self.commit(slot, keeper),
            Event::Stop => {
                self.is_stopped = true;
                Ok(())
            }
        }
    }
}
