//! A program's run: the events of a core in their order.
ghost use Rattle.std.specs.Prelude.{◌≡◌, ◌+◌, IsErrOf, IsTrue, OnErr, OnOk};
ghost use Rattle.mcy_base.specs.Causes.{IsCaused};
ghost use Rattle.mcy_keeper.specs.Books.{Keeps};
ghost use Rattle.campaign_core.specs.Running.{Broke, Ran, Torn, book_of};
ghost use Rattle.campaign_core.specs.Testers.{GivesTheSame};
ghost use Rattle.campaign_core.specs.UnderWay.{IsUnderWay};

use crate::event::CoreError;
use crate::tester::Tester;
use crate::under_way::Core;
use mcy_base::Steps;
use mcy_keeper::Keeper;
use std::sync::ledger::Ledger;

impl<T: Tester + Drop> Core<'_, T> {
    /// Takes the events that come next, until no mutation wants a test or as many rows were added as were asked for.
    pub fn run<K: Keeper, L: Ledger>(
        &mut self,
        stop_after: Option<u32>,
        keeper: &mut K,
        steps: &mut Steps<L>,
    ) -> Result<(), CoreError>
        requires settled { IsTrue (K.is_settled keeper.old) }
        requires order { IsUnderWay (T.gives self.old.tester) self.old }
        requires kept { K.tells keeper.old → Keeps (K.holds keeper.old) (K.leaves keeper.old) (book_of self.old.campaign self.old.state.rows) }
        ensures ran { OnOk result (Ran T.gives T.most stop_after self.old self.new) }
        ensures broke { OnErr result (Broke T.gives T.most stop_after self.old self.new) }
        ensures order { IsUnderWay (T.gives self.new.tester) self.new }
        ensures same { GivesTheSame (T.gives self.old.tester) (T.gives self.new.tester) }
        ensures steps { steps.new + self.old.started ≡ steps.old + self.new.started }
        ensures tells { K.tells keeper.new → K.tells keeper.old }
        ensures settled { OnOk result (IsTrue (K.is_settled keeper.new)) }
        ensures kept { K.tells keeper.new → OnOk result (Keeps (K.holds keeper.new) (K.leaves keeper.new) (book_of self.new.campaign self.new.state.rows)) }
        ensures left { K.tells keeper.new → OnErr result (Torn T.gives T.most stop_after (K.leaves keeper.new) self.old self.new) }
        ensures cause { IsCaused (K.faults keeper.old) (K.faults keeper.new) (IsErrOf result CoreError.Keeper) }
    {
        let before = self.acknowledged();
        'events: while let Some(event) = self.next() {
            let gained = self.acknowledged() - before;
            if stop_after == Some(gained) {
                return Ok(());
            }
            self.event(event, keeper, steps)?;
        }
        Ok(())
    }
}
