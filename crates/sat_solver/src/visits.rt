//! Looks at the clauses that are watched at a literal that has become false.
//!
//! A clause needs a look only where its other literal isn't true. Then it is watched at another one of its literals that isn't
//! false; and where there is none, it is false or unit.
ghost use Rattle.std.specs.Prelude.{◌≡◌, ◌≢◌, ◌+◌, ◌-◌, ◌<◌, ◌≤◌, ◌^◌, ℕ, ℤ, List, length, take, Some, None, false, neg_ℤ, IfOk, MatchOption};
ghost use Rattle.clause_store.specs.Clauses.{AreOver};
ghost use Rattle.clause_store.specs.Propagation.{literal};
ghost use Rattle.lrat_checker.specs.Tables.{known_of};
ghost use Rattle.sat_solver.specs.Trails.{assigned, literal_at, IsGrown, IsConflict};
ghost use Rattle.sat_solver.specs.Occurrences.{list_of};
ghost use Rattle.sat_solver.specs.Propagators.{IsKept};
ghost use Rattle.sat_solver.specs.Watches.{pair_of, AreGuards, KeepsCounted};
ghost use Rattle.sat_solver.specs.Looks.{propagated, IsNext, IsLook, HasMoved};

use crate::choose::{is_true, replacement};
use crate::propagator::Propagator;
use clause_store::{ClauseStore, Lit};
use std::alloc::AllocError;

/// What a look at a clause that may be watched at a literal came to.
#[derive(Drop)]
pub enum Look {
    /// It is false.
    False,
    /// It stays in the list.
    Stays,
    /// It isn't watched at the literal, or no longer.
    Leaves,
}

impl Propagator {
    /// Looks at the clauses that are watched at this literal, the negation of the next one to propagate. Answers the number of one
    /// that is false.
    pub fn visit_watched(&mut self, store: &ClauseStore, l: Lit) -> Result<Option<u32>, AllocError>
        requires over { AreOver (length self.old.trail.values.items - 1) store.now }
        requires kept { IsKept store.now self.old }
        requires next { IsNext l self.old }
        ensures kept { IsKept store.now self.new }
        ensures grown { IsGrown store.now self.old.trail self.new.trail }
        ensures taken { self.new.taken ≡ self.old.taken }
        ensures head { self.new.head ≡ self.old.head }
        ensures counted { KeepsCounted self.old.watches self.new.watches }
        ensures end { IfOk result (λ found. MatchOption found (AreGuards (propagated self.old) (known_of self.new.trail.values.items) self.new.watches) (IsConflict store.now (known_of self.new.trail.values.items))) }
    {
        let mut place = 0;
        'watchers: while place < self.watches.lists.of(l).len() {
            let number = self.watches.lists.of(l)[place];
            match self.look(store, l, number)? {
                Look::False => return Ok(Some(number)),
                Look::Stays => place += 1,
                Look::Leaves => self.watches.lists.remove(l, place),
            }
        }
        Ok(None)
    }

    /// Looks at a clause that may be watched at this literal.
    fn look(&mut self, store: &ClauseStore, l: Lit, number: u32) -> Result<Look, AllocError>
        requires over { AreOver (length self.old.trail.values.items - 1) store.now }
        requires kept { IsKept store.now self.old }
        requires next { IsNext l self.old }
        ensures kept { IsKept store.now self.new }
        ensures moved { HasMoved store.now l number self.old self.new }
        ensures end { IfOk result (IsLook store.now l number self.old self.new) }
    {
        let Some(other) = self.watches.other(number, l) else {
            return Ok(Look::Leaves);
        };
        if is_true(&self.trail.values, other) {
            return Ok(Look::Stays);
        }
        match replacement(&self.trail.values, store.clause(number), other) {
            Some(next) => {
                self.watches.change(number, other, next)?;
                Ok(Look::Leaves)
            }
            None => {
                if self.examine(store, number)? {
                    Ok(Look::False)
                } else {
                    Ok(Look::Stays)
                }
            }
        }
    }
}
