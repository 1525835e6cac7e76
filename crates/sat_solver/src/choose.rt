//! The literals at which a clause is watched.
//!
//! A clause of more than three literals is watched, where its first two literals are a guard now and were so when each level
//! began. A lemma that was just learned is such a clause: its first literal is true, and the second became false on the last level
//! that was kept. Shorter clauses, as those of gates are, are counted.
ghost use Rattle.std.specs.Prelude.{◌≡◌, ◌≢◌, ℕ, ◌+◌, ◌<◌, ◌≤◌, pos, length, take, slice_index_or, Some, None, true, false, All, Contains, IfNone, IfSome};
ghost use Rattle.std.specs.Bool.{OnTrue, OnFalse};
ghost use Rattle.clause_store.specs.Clauses.{variable};
ghost use Rattle.clause_store.specs.Propagation.{literal};
ghost use Rattle.lrat_checker.specs.Tables.{known_of};
ghost use Rattle.sat_solver.specs.Trails.{assigned, literal_at, IsUnwound, AreStarts};
ghost use Rattle.sat_solver.specs.Watches.{AreDifferent, IsPair, IsSafe};

use crate::trail::Trail;
use crate::watches::Pair;
use clause_store::Lit;
use lrat_checker::{is_false, literal_value};

/// The literals at which a clause can be watched from now on.
pub fn choose(trail: &Trail, clause: &[Lit]) -> Option<Pair>
    requires over { All (λ l. variable l < length trail.now.values.items) clause.now }
    requires unwound { IsUnwound trail.now.values.items trail.now.literals.items trail.now.literals.items }
    requires starts { AreStarts (length trail.now.literals.items) trail.now.starts.items }
    ensures pair { IfSome result (IsPair clause.now) }
    ensures safe { IfSome result (IsSafe trail.now.literals.items trail.now.starts.items) }
{
    if clause.len() <= 3 || !are_different(clause) {
        return None;
    }
    let pair = Pair {
        first: clause[0],
        second: clause[1],
    };
    if is_safe(trail, pair) {
        Some(pair)
    } else {
        None
    }
}

/// Whether no literal stands twice in a clause.
fn are_different(clause: &[Lit]) -> bool
    ensures { OnTrue result (AreDifferent clause.now) }
{
    for place in 0..clause.len() {
        if stands_behind(clause, place) {
            return false;
        }
    }
    true
}

/// Whether the literal at this place stands at a later one too.
fn stands_behind(clause: &[Lit], place: usize) -> bool
    requires { place < length clause.now }
    ensures { OnFalse result ((j : ℕ) → place < j → j < length clause.now → slice_index_or clause.now place (pos 0) ≢ slice_index_or clause.now j (pos 0)) }
{
    for later in place + 1..clause.len() {
        if clause[place] == clause[later] {
            return true;
        }
    }
    false
}

/// Whether a pair is a guard now and was so when each level began.
fn is_safe(trail: &Trail, pair: Pair) -> bool
    requires first { variable pair.first < length trail.now.values.items }
    requires second { variable pair.second < length trail.now.values.items }
    requires unwound { IsUnwound trail.now.values.items trail.now.literals.items trail.now.literals.items }
    requires starts { AreStarts (length trail.now.literals.items) trail.now.starts.items }
    ensures { OnTrue result (IsSafe trail.now.literals.items trail.now.starts.items pair) }
{
    let second_false = is_false(&trail.values, pair.second);
    match literal_value(&trail.values, pair.first) {
        Some(true) => !second_false || is_recent(trail, pair.second),
        Some(false) => false,
        None => !second_false,
    }
}

/// Whether a literal got its value after each level began.
fn is_recent(trail: &Trail, l: Lit) -> bool
    requires unwound { IsUnwound trail.now.values.items trail.now.literals.items trail.now.literals.items }
    requires starts { AreStarts (length trail.now.literals.items) trail.now.starts.items }
    ensures { OnTrue result ((s : ℕ) → Contains trail.now.starts.items s → assigned (take s trail.now.literals.items) (variable l) ≡ None) }
{
    if trail.starts.is_empty() {
        return true;
    }
    let start = trail.starts[trail.starts.len() - 1] as usize;
    is_from(&trail.literals, start, l)
}

/// Whether the variable of a literal stands in a trail from this place on.
fn is_from(literals: &[Lit], start: usize, l: Lit) -> bool
    ensures { OnTrue result ((place : ℕ) × (start ≤ place) × (place < length literals.now) × (variable (literal_at literals.now place) ≡ variable l)) }
{
    for place in start..literals.len() {
        if literals[place].unsigned_abs() == l.unsigned_abs() {
            return true;
        }
    }
    false
}

/// Whether a literal is true.
pub fn is_true(values: &[Option<bool>], l: Lit) -> bool
    requires { variable l < length values.now }
    ensures { OnTrue result (literal (known_of values.now) l ≡ Some true) }
{
    literal_value(values, l) == Some(true)
}

/// A literal of a clause that isn't false and isn't this one, the last one that is so.
pub fn replacement(values: &[Option<bool>], clause: &[Lit], other: Lit) -> Option<Lit>
    requires { All (λ l. variable l < length values.now) clause.now }
    ensures there { IfSome result (Contains clause.now) }
    ensures apart { IfSome result (λ next. next ≢ other) }
    ensures open { IfSome result (λ next. literal (known_of values.now) next ≢ Some false) }
    ensures none { IfNone result (All (λ l. l ≢ other → literal (known_of values.now) l ≡ Some false) clause.now) }
{
    let mut place = clause.len();
    while place > 0 {
        place -= 1;
        let l = clause[place];
        if l != other && !is_false(values, l) {
            return Some(l);
        }
    }
    None
}
