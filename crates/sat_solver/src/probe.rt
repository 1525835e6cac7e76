//! A trail over the clauses that a search looks at.
//!
//! The trail's literals have reasons among these clauses and the lemmas, and none of them was false or unit when a level began.
//! What always holds is `IsProbing` of `specs/Parts`.
ghost use Rattle.std.specs.Prelude.{◌≡◌, ◌+◌, ◌<◌, ◌≤◌, ◌^◌, ◌++◌, ℕ, [], length, IfOk, OnOk, MatchOption};
ghost use Rattle.clause_store.specs.Clauses.{AreOver};
ghost use Rattle.lrat_checker.specs.Tables.{known_of};
ghost use Rattle.lrat_checker.specs.LegalLogs.{Log};
ghost use Rattle.sat_solver.specs.Trails.{IsDone, IsDecided, IsConflict};
ghost use Rattle.sat_solver.specs.Parts.{IsFocus, IsProbing, in_use};

use crate::decide::next_conflict;
use crate::focus::Focus;
use crate::part::Part;
use crate::propagator::Propagator;
use lrat_checker::Checker;
use std::alloc::{AllocError, Global};

/// What a search looks at, and its trail.
pub struct Probe {
    pub focus: Focus,
    pub part: Part,
    pub propagator: Propagator,
}

impl Drop for Probe {
    fn drop(self) {
        let Probe {
            focus: _focus,
            part: _part,
            propagator: _propagator,
        } = self;
    }
}

impl Probe {
    /// All variables open, from 0 up to this one.
    pub fn new(alloc: Global, focus: Focus, greatest: u32) -> Result<Probe, AllocError>
        ensures probing { IfOk result (λ p. (log : Log) → IsFocus (length log.clauses) log.free focus → IsProbing log p) }
        ensures focus { IfOk result (λ p. p.focus ≡ focus) }
        ensures len { IfOk result (λ p. length p.propagator.trail.values.items ≡ greatest + 1) }
    {
        Ok(Probe {
            focus,
            part: Part::new(alloc),
            propagator: Propagator::new(alloc, greatest)?,
        })
    }

    /// Decides and propagates until a clause is false, whose number among those looked at it answers, or until no free bit is open
    /// and no clause is false or unit, looked at or not.
    pub fn conflict(
        &mut self,
        alloc: Global,
        checker: &Checker,
        variables: u32,
        free: u32,
    ) -> Result<Option<u32>, AllocError>
        requires variables { variables ≡ checker.now.variables }
        requires free { free ≡ checker.now.free }
        requires within { free ≤ variables }
        requires short { variables < 2 ^ 25 }
        requires len { length self.old.propagator.trail.values.items ≡ variables + 1 }
        requires probing { IsProbing checker.now self.old }
        ensures probing { IsProbing checker.now self.new }
        ensures len { length self.new.propagator.trail.values.items ≡ variables + 1 }
        ensures store { OnOk result (self.new.part.store ≡ in_use checker.now self.new) }
        ensures end { IfOk result (λ found. MatchOption found (IsDone (checker.now.clauses ++ checker.now.lemmas) free self.new.propagator.trail.values.items) (IsConflict (in_use checker.now self.new) (known_of self.new.propagator.trail.values.items))) }
    {
        if let Some(conflict) = self.conflict_in_focus(checker, free)? {
            return Ok(Some(conflict));
        }
        if self.focus.whole {
            return Ok(None);
        }
        let focus = Focus::on_all(alloc, &self.focus.bits, free)?;
        *self = Probe::new(alloc, focus, variables)?;
        self.conflict_in_focus(checker, free)
    }

    /// The same of what is looked at.
    fn conflict_in_focus(&mut self, checker: &Checker, free: u32) -> Result<Option<u32>, AllocError>
        requires free { free ≡ checker.now.free }
        requires within { free ≤ checker.now.variables }
        requires short { checker.now.variables < 2 ^ 25 }
        requires len { length self.old.propagator.trail.values.items ≡ checker.now.variables + 1 }
        requires probing { IsProbing checker.now self.old }
        ensures probing { IsProbing checker.now self.new }
        ensures len { length self.new.propagator.trail.values.items ≡ checker.now.variables + 1 }
        ensures focus { self.new.focus ≡ self.old.focus }
        ensures store { OnOk result (self.new.part.store ≡ in_use checker.now self.new) }
        ensures end { IfOk result (λ found. MatchOption found (IsDecided (in_use checker.now self.new) self.new.focus.bits.items self.new.propagator.trail.values.items) (IsConflict (in_use checker.now self.new) (known_of self.new.propagator.trail.values.items))) }
    {
        self.part.update(checker.store(), &self.focus.left_out)?;
        next_conflict(
            &self.part.store,
            &mut self.propagator,
            &self.focus.bits,
            free,
        )
    }
}
