//! What a guess learns from a conflict: the clause at the first literal of the last level through which all of the conflict goes.
use crate::clauses::Clauses;
use crate::trail::Trail;
use clause_store::Lit;
use std::alloc::{AllocError, Global};

/// A clause that was learned. Its first literal is of the last level, and its second one of the level that is kept.
#[derive(Drop)]
pub struct Learned {
    pub clause: Vec<Lit>,
    pub level: usize,
}

/// What a walk down the trail has met.
#[derive(Drop)]
pub struct Walk {
    is_met: Vec<bool>,
    /// The literals that were met, in this order.
    pub met: Vec<Lit>,
    /// Those of lesser levels.
    lesser: Vec<Lit>,
    /// How many of the last level are still to be gone through.
    waiting: usize,
}

impl Walk {
    /// Nothing was met. There is room for the variables up to this one.
    pub fn new(alloc: Global, greatest: u32) -> Result<Walk, AllocError> {
        Ok(Walk {
            is_met: vec![in alloc; false; greatest as usize + 1]?,
            met: Vec::new(alloc),
            lesser: Vec::new(alloc),
            waiting: 0,
        })
    }

    /// Forgets what was met.
    pub fn clear(&mut self) {
        for l in &self.met {
            if let Some(flag) = self.is_met.get_mut(l.unsigned_abs() as usize) {
                *flag = false;
            }
        }
        self.met.clear();
        self.lesser.clear();
        self.waiting = 0;
    }

    /// Whether a literal was met.
    fn has_met(&self, l: Lit) -> bool {
        match self.is_met.get(l.unsigned_abs() as usize) {
            Some(flag) => *flag,
            None => false,
        }
    }

    /// Meets the literals of a clause that are above level 0.
    fn meet(&mut self, trail: &Trail, clause: &[Lit]) -> Result<(), AllocError> {
        for l in clause {
            let level = trail.level_of(*l);
            if level == 0 || self.has_met(*l) {
                continue;
            }
            if let Some(flag) = self.is_met.get_mut(l.unsigned_abs() as usize) {
                *flag = true;
            }
            self.met.push(*l)?;
            if level == trail.level() {
                self.waiting = self.waiting.saturating_add(1);
            } else {
                self.lesser.push(*l)?;
            }
        }
        Ok(())
    }

    /// Walks down from a clause that is false to the literal of the last level through which all of the conflict goes.
    fn walk(
        &mut self,
        trail: &Trail,
        clauses: &Clauses,
        conflict: usize,
    ) -> Result<Lit, AllocError> {
        self.meet(trail, clauses.clause(conflict))?;
        for l in trail.literals.iter().rev() {
            if !self.has_met(*l) || trail.level_of(*l) != trail.level() {
                continue;
            }
            self.waiting = self.waiting.saturating_sub(1);
            if self.waiting == 0 {
                return Ok(*l);
            }
            let reason = trail.reason_of(*l);
            if reason > 0 {
                self.meet(trail, clauses.clause(reason - 1))?;
            }
        }
        Ok(0)
    }

    /// Whether all other literals of a literal's reason were met or are of level 0, so that the literal follows from the others.
    fn follows(&self, trail: &Trail, clauses: &Clauses, l: Lit) -> bool {
        let reason = trail.reason_of(l);
        reason > 0
            && clauses
                .clause(reason - 1)
                .iter()
                .all(|k| self.has_met(*k) || trail.level_of(*k) == 0)
    }

    /// The clause of a conflict.
    pub fn learn(
        &mut self,
        alloc: Global,
        trail: &Trail,
        clauses: &Clauses,
        conflict: usize,
    ) -> Result<Learned, AllocError> {
        let first = self.walk(trail, clauses, conflict)?;
        let mut clause = vec![in alloc; first.saturating_neg(); 1]?;
        let mut level = 0;
        for l in &self.lesser {
            if self.follows(trail, clauses, *l) {
                continue;
            }
            clause.push(*l)?;
            if trail.level_of(*l) > level {
                level = trail.level_of(*l);
                put_second(&mut clause);
            }
        }
        Ok(Learned { clause, level })
    }
}

/// Exchanges the last literal of a clause with its second one.
fn put_second(clause: &mut Vec<Lit>) {
    let count = clause.len();
    if count > 2 {
        clause.swap(1, count - 1);
    }
}
