//! The lemma of a conflict.
//!
//! The trail is walked from its end. A literal that the conflict needs is either left in the lemma, negated, or replaced
//! by the other literals of its reason, which is then a hint. A decision and, above level 0, a free bit that isn't of the
//! last level are left in the lemma; so is a free bit of the last level where nothing else of that level is needed.
ghost use Rattle.std.specs.Prelude.{◌≡◌, ◌≢◌, ℕ, ◌+◌, ◌-◌, ◌*◌, ◌<◌, ◌≤◌, ◌^◌, length, take, List, Bool, true, false, ◌||◌, All, IfOk, Some, slice_index_or, slice_get, neg_ℤ};
ghost use Rattle.std.specs.Bool.{OnTrue, OnFalse};
ghost use Rattle.clause_store.specs.Clauses.{variable, AreOver};
ghost use Rattle.lrat_checker.specs.LegalLogs.{is_named};
ghost use Rattle.lrat_checker.specs.Tables.{known_of};
ghost use Rattle.sat_solver.specs.Trails.{literal_at, AreApart, AreStarts, AreDecisions, IsConflict, IsReady};
ghost use Rattle.sat_solver.specs.Needs.{is_needed, NoneNeeded, last_start, IsLearned};

use crate::trail::Trail;
use clause_store::{ClauseStore, Lit};
use smallvec::SmallVec;
use std::alloc::{AllocError, Global};

/// A lemma with its hints.
pub struct Learned {
    pub lemma: Vec<Lit>,
    pub hints: SmallVec<u32, 64>,
    /// How many levels are kept: up to the second highest level of the lemma's literals.
    pub back: usize,
}

impl Drop for Learned {
    fn drop(self) {
        let Learned {
            lemma: _lemma,
            hints: _hints,
            back: _back,
        } = self;
    }
}

/// The lemma of the conflict in which the clause with this number is false.
pub fn analyze(
    alloc: Global,
    store: &ClauseStore,
    trail: &Trail,
    free: u32,
    conflict: u32,
) -> Result<Learned, AllocError>
    requires short { length trail.now.values.items < 2 ^ 31 }
    requires over { AreOver (length trail.now.values.items - 1) store.now }
    requires ready { IsReady store.now free trail.now }
    requires conflict { IsConflict store.now (known_of trail.now.values.items) conflict }
    ensures { IfOk result (λ learned. IsLearned store.now free trail.now.literals.items trail.now.starts.items learned.lemma.items learned.hints.items learned.back) }
{
    let mut needed = vec![in alloc; false; trail.values.len()]?;
    mark(&mut needed, store.clause(conflict));
    let mut lemma = Vec::new(alloc);
    let mut hints = SmallVec::new(alloc);
    hints.push(conflict)?;
    let mut back = 0;
    let mut place = trail.literals.len();
    while place > 0 {
        place -= 1;
        let l = trail.literals[place];
        if !needs(&needed, l) {
            continue;
        }
        if stops(&needed, trail, free, place) {
            if lemma.len() == 1 {
                back = level_of(&trail.starts, place);
            }
            lemma.push(negated(l))?;
        } else {
            let reason = trail.reasons[place];
            mark(&mut needed, store.clause(reason));
            hints.push(reason)?;
        }
    }
    hints.reverse();
    Ok(Learned { lemma, hints, back })
}

/// Whether the variable of a literal is needed.
fn needs(needed: &[bool], l: Lit) -> bool
    requires { variable l < length needed.now }
    ensures { result ≡ is_needed needed.now (variable l) }
{
    needed[l.unsigned_abs() as usize]
}

/// The negation of a literal.
pub fn negated(l: Lit) -> Lit
    requires { variable l < 2 ^ 31 }
    ensures { result ≡ neg_ℤ l }
{
    -l
}

/// Marks the variables of a clause.
fn mark(needed: &mut Vec<bool>, clause: &[Lit])
    requires { All (λ l. variable l < length needed.old.items) clause.now }
    ensures marks { (v : ℕ) → is_needed needed.new.items v ≡ (is_needed needed.old.items v || is_named clause.now v) }
    ensures len { length needed.new.items ≡ length needed.old.items }
{
    for l in clause {
        needed[l.unsigned_abs() as usize] = true;
    }
}

/// Whether the needed literal at this place is left in the lemma.
fn stops(needed: &[bool], trail: &Trail, free: u32, place: usize) -> bool
    requires within { place < length trail.now.literals.items }
    requires apart { AreApart (length needed.now) trail.now.literals.items }
    requires reasoned { AreDecisions free trail.now.literals.items trail.now.reasons.items trail.now.starts.items }
    requires starts { AreStarts (length trail.now.literals.items) trail.now.starts.items }
    ensures yes { OnTrue result ((0 < variable (literal_at trail.now.literals.items place)) × (variable (literal_at trail.now.literals.items place) ≤ free) × (0 < length trail.now.starts.items) × NoneNeeded trail.now.literals.items needed.now (last_start trail.now.starts.items) place) }
    ensures no { OnFalse result (slice_index_or trail.now.reasons.items place 0 ≢ 0) }
{
    if trail.reasons[place] == 0 {
        return true;
    }
    let v = trail.literals[place].unsigned_abs();
    if v == 0 || v > free || trail.starts.is_empty() || place < trail.starts[0] as usize {
        return false;
    }
    let last = trail.starts[trail.starts.len() - 1] as usize;
    place < last || !needs_any(needed, &trail.literals, last, place)
}

/// Whether the variable of a literal at these places is needed.
fn needs_any(needed: &[bool], literals: &[Lit], from: usize, to: usize) -> bool
    requires within { to ≤ length literals.now }
    requires apart { AreApart (length needed.now) literals.now }
    ensures { OnFalse result (NoneNeeded literals.now needed.now from to) }
{
    for place in from..to {
        if needed[literals[place].unsigned_abs() as usize] {
            return true;
        }
    }
    false
}

/// How many levels begin at this place or before it, the first of them.
fn level_of(starts: &[u32], place: usize) -> usize
    ensures within { result ≤ length starts.now }
    ensures begun { (j : ℕ) → j < result → slice_index_or starts.now j 0 ≤ place }
{
    for (level, start) in starts.iter().enumerate() {
        if *start as usize > place {
            return level;
        }
    }
    starts.len()
}
