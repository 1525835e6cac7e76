//! The trail: the literals that are true, in the order in which they were assigned, with the reason of each.
//!
//! A reason is the number of a clause that was unit, and 0 for a decision. Levels count from 1; what stands before the
//! first decision is of level 0. What always holds of the four lists hangs on the clauses, and is `IsTrail` of
//! `specs/Trails`: the values are those of the literals, each was open when it was assigned and has a reason, and each
//! level begins with a free bit.
ghost use Rattle.std.specs.Prelude.{◌≡◌, ◌+◌, ◌-◌, ◌<◌, ◌≤◌, ◌^◌, ◌++◌, ◌∷◌, [], ℕ, ℤ, length, take, replicate, List, slice_set, slice_index_or, Some, None, IfOk, OnOk, OnErr};
ghost use Rattle.clause_store.specs.Clauses.{variable};
ghost use Rattle.clause_store.specs.Propagation.{is_positive};
ghost use Rattle.lrat_checker.specs.Tables.{known_of};
ghost use Rattle.sat_solver.specs.Trails.{IsOpened, IsUnchanged, IsUnwound, AreStarts};

use clause_store::Lit;
use std::alloc::{AllocError, Global};

/// A partial assignment with its history.
pub struct Trail {
    /// The value of each variable, by its number.
    pub values: Vec<Option<bool>>,
    /// The literals that are true, in the order in which they were assigned.
    pub literals: Vec<Lit>,
    /// The reason of each literal.
    pub reasons: Vec<u32>,
    /// For each level, from 1, the place of its decision among the literals.
    pub starts: Vec<u32>,
}

impl Drop for Trail {
    fn drop(self) {
        let Trail {
            values: _values,
            literals: _literals,
            reasons: _reasons,
            starts: _starts,
        } = self;
    }
}

impl Trail {
    /// All variables open, from 0 up to this one.
    pub fn new(alloc: Global, greatest: u32) -> Result<Trail, AllocError>
        ensures { IfOk result (λ t. IsOpened (greatest + 1) t) }
    {
        Ok(Trail {
            values: vec![in alloc; None; greatest as usize + 1]?,
            literals: Vec::new(alloc),
            reasons: Vec::new(alloc),
            starts: Vec::new(alloc),
        })
    }

    /// Makes an open literal true.
    pub fn assign(&mut self, l: Lit, reason: u32) -> Result<(), AllocError>
        requires { variable l < length self.old.values.items }
        ensures values { OnOk result (self.new.values.items ≡ slice_set self.old.values.items (variable l) (Some (is_positive l))) }
        ensures literals { OnOk result (self.new.literals.items ≡ self.old.literals.items ++ l ∷ []) }
        ensures reasons { OnOk result (self.new.reasons.items ≡ self.old.reasons.items ++ reason ∷ []) }
        ensures starts { self.new.starts ≡ self.old.starts }
        ensures err { OnErr result (IsUnchanged self.old self.new) }
    {
        self.literals.reserve(1)?;
        self.reasons.push(reason)?;
        self.literals.push(l)?;
        self.values[l.unsigned_abs() as usize] = Some(l >= 0);
        Ok(())
    }

    /// Begins a level with this open literal.
    pub fn decide(&mut self, l: Lit) -> Result<(), AllocError>
        requires within { variable l < length self.old.values.items }
        requires short { length self.old.literals.items < 2 ^ 32 }
        ensures values { OnOk result (self.new.values.items ≡ slice_set self.old.values.items (variable l) (Some (is_positive l))) }
        ensures literals { OnOk result (self.new.literals.items ≡ self.old.literals.items ++ l ∷ []) }
        ensures reasons { OnOk result (self.new.reasons.items ≡ self.old.reasons.items ++ 0 ∷ []) }
        ensures starts { OnOk result (self.new.starts.items ≡ self.old.starts.items ++ length self.old.literals.items ∷ []) }
        ensures err { OnErr result (IsUnchanged self.old self.new) }
        ensures err_starts { OnErr result (self.new.starts.items ≡ self.old.starts.items) }
    {
        self.starts.reserve(1)?;
        let place = self.literals.len() as u32;
        self.assign(l, 0)?;
        self.starts.push(place)?;
        Ok(())
    }

    /// Keeps the levels 0 to `level`, which isn't the last one.
    pub fn undo(&mut self, level: usize)
        requires level { level < length self.old.starts.items }
        requires trail { IsUnwound self.old.values.items self.old.literals.items self.old.literals.items }
        requires starts { AreStarts (length self.old.literals.items) self.old.starts.items }
        ensures unwound { IsUnwound self.new.values.items self.new.literals.items self.old.literals.items }
        ensures literals { length self.new.literals.items ≡ slice_index_or self.old.starts.items level 0 }
        ensures reasons { self.new.reasons.items ≡ take (slice_index_or self.old.starts.items level 0) self.old.reasons.items }
        ensures starts { self.new.starts.items ≡ take level self.old.starts.items }
        ensures len { length self.new.values.items ≡ length self.old.values.items }
    {
        let start = self.starts[level] as usize;
        self.starts.truncate(level);
        self.reasons.truncate(start);
        unwind(&mut self.values, &mut self.literals, start);
    }
}

/// Makes the literals from this place on open.
fn unwind(values: &mut Vec<Option<bool>>, literals: &mut Vec<Lit>, start: usize)
    requires start { start ≤ length literals.old.items }
    requires trail { IsUnwound values.old.items literals.old.items literals.old.items }
    ensures unwound { IsUnwound values.new.items literals.new.items literals.old.items }
    ensures literals { length literals.new.items ≡ start }
    ensures len { length values.new.items ≡ length values.old.items }
{
    'places: while literals.len() > start {
        if let Some(l) = literals.pop() {
            values[l.unsigned_abs() as usize] = None;
        }
    }
}
