//! A simulation that is watched in turns until it has a verdict.
//!
//! `phases` of its phases went on so far, which is less than the limit has: phase 0 and two for each cycle. While a turn runs,
//! `refused` is set, so that one that was refused for want of memory is followed by refused ones alone.
ghost use Rattle.std.specs.Prelude.{◌≡◌, ◌↔◌, ℕ, false, [], IfOk, IsErr, IsTrue, MatchOption, ⊤};
ghost use Rattle.tb_machine.specs.Phases.{Setting, State};
ghost use Rattle.tb_turns.specs.Reached.{IsAt, IsOpen, MeetsEnd, phases_after};
ghost use Rattle.tb_turns.specs.Verdicts.{IsVerdict};
ghost use Rattle.tb_watch.specs.Searches.{HasWatched};

use crate::phases::Phases;
use crate::running::run_to;
use crate::verdict::{SimVerdict, finished};
use std::alloc::{AllocError, Global};
use tb_machine::{PhaseEnd, simulations_go_on};
use tb_watch::Watch;

/// A run, what was seen of its text, the limit of cycles, and how many phases went on.
#[derive(Drop)]
pub struct Turns<R> {
    pub run: R,
    pub watch: Watch,
    pub limit: u32,
    pub phases: u64,
    pub refused: bool,
}

impl<R: Phases + Drop> Turns<R> {
    /// A simulation from its start on.
    pub fn new(
        alloc: Global,
        run: R,
        limit: u32,
        pass: &[u8],
        fail: &[u8],
    ) -> Result<Turns<R>, AllocError>
        ensures run { IfOk result (λ t. t.run ≡ run) }
        ensures limit { IfOk result (λ t. t.limit ≡ limit) }
        ensures texts { IfOk result (λ t. (t.watch.pass.word ≡ pass.now) × (t.watch.fail.word ≡ fail.now)) }
        ensures start { IfOk result (λ t. (t.phases ≡ 0) × (t.refused ≡ false) × HasWatched t.watch []) }
    {
        let watch = Watch::new(alloc, pass, fail)?;
        Ok(Turns {
            run,
            watch,
            limit,
            phases: 0,
            refused: false,
        })
    }

    /// Simulates so many cycles more, or up to the verdict. By `none` the phases that are left up to the limit fall with each
    /// turn without a verdict.
    pub fn turn(&mut self, cycles: u32) -> Result<Option<SimVerdict>, AllocError>
        requires going { self.old.refused ≡ false → IsOpen (R.is_going self.old.run) (R.phases self.old.run) self.old.phases self.old.limit }
        ensures told { (g : Setting) (start : State) → IsAt g (R.stands self.old.run g) (HasWatched self.old.watch) start self.old.phases → IfOk result (λ o. MatchOption o (IsAt g (R.stands self.new.run g) (HasWatched self.new.watch) start self.new.phases) (IsVerdict g start self.old.limit self.old.watch.pass.word self.old.watch.fail.word)) }
        ensures none { IfOk result (λ o. MatchOption o (IsOpen (R.is_going self.new.run) (R.phases self.new.run) self.new.phases self.old.limit × (self.new.phases ≡ phases_after self.old.phases cycles)) (λ _. ⊤)) }
        ensures some { (g : Setting) (start : State) → IsAt g (R.stands self.old.run g) (HasWatched self.old.watch) start self.old.phases → IfOk result (λ o. MatchOption o ⊤ (λ _. MeetsEnd g start self.old.limit (phases_after self.old.phases cycles))) }
        ensures same { R.is_same self.old.run self.new.run × (self.new.limit ≡ self.old.limit) × (self.new.watch.pass.word ≡ self.old.watch.pass.word) × (self.new.watch.fail.word ≡ self.old.watch.fail.word) }
        ensures refused { IsTrue self.old.refused → IsErr result }
        ensures refuses { IsTrue self.new.refused ↔ IsErr result }
    {
        if self.refused {
            return Err(AllocError);
        }
        self.refused = true;
        let verdict = self.simulate(cycles)?;
        self.refused = false;
        Ok(verdict)
    }

    /// Simulates so many cycles more, or up to the verdict.
    fn simulate(&mut self, cycles: u32) -> Result<Option<SimVerdict>, AllocError>
        requires going { IsOpen (R.is_going self.old.run) (R.phases self.old.run) self.old.phases self.old.limit }
        ensures told { (g : Setting) (start : State) → IsAt g (R.stands self.old.run g) (HasWatched self.old.watch) start self.old.phases → IfOk result (λ o. MatchOption o (IsAt g (R.stands self.new.run g) (HasWatched self.new.watch) start self.new.phases) (IsVerdict g start self.old.limit self.old.watch.pass.word self.old.watch.fail.word)) }
        ensures none { IfOk result (λ o. MatchOption o (IsOpen (R.is_going self.new.run) (R.phases self.new.run) self.new.phases self.old.limit × (self.new.phases ≡ phases_after self.old.phases cycles)) (λ _. ⊤)) }
        ensures some { (g : Setting) (start : State) → IsAt g (R.stands self.old.run g) (HasWatched self.old.watch) start self.old.phases → IfOk result (λ o. MatchOption o ⊤ (λ _. MeetsEnd g start self.old.limit (phases_after self.old.phases cycles))) }
        ensures same { R.is_same self.old.run self.new.run × (self.new.limit ≡ self.old.limit) × (self.new.watch.pass.word ≡ self.old.watch.pass.word) × (self.new.watch.fail.word ≡ self.old.watch.fail.word) }
        ensures refused { self.new.refused ≡ self.old.refused }
    {
        simulations_go_on();
        let last = 2 * u64::from(self.limit) + 1;
        let wanted = self.phases.max(1) + 2 * u64::from(cycles);
        let to = wanted.min(last);
        match run_to(&mut self.run, &mut self.watch, self.phases, to)? {
            PhaseEnd::Going => {
                self.phases = to;
                Ok(if to == last {
                    Some(SimVerdict::Hang)
                } else {
                    None
                })
            }
            PhaseEnd::Finished => Ok(Some(finished(&self.watch))),
            PhaseEnd::TooLong => Ok(Some(SimVerdict::Hang)),
        }
    }
}
