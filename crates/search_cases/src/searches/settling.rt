//! Whether clauses settle a variable, found by trying the values of a few lesser ones.
//!
//! `values` is a table by variable. It is given back as it was.
ghost use Rattle.std.specs.Prelude.{◌≡◌, ◌-◌, ◌<◌, length, None, IfSome, All};
ghost use Rattle.std.specs.Bool.{OnTrue};
ghost use Rattle.clause_store.specs.Clauses.{variable, AreOver};
ghost use Rattle.lrat_checker.specs.Tables.{known_of};
ghost use Rattle.search_cases.specs.Settling.{HasStep, IsSettled};

use clause_store::{ClauseStore, Lit};
use lrat_checker::{Step, examine};

/// Whether the clauses settle a variable, once at most `inputs` lesser ones have values.
pub(crate) fn is_settled(
    clauses: &ClauseStore,
    values: &mut Vec<Option<bool>>,
    v: u32,
    inputs: u32,
) -> bool
    requires over { AreOver (length values.old.items - 1) clauses.now }
    requires within { v < length values.old.items }
    ensures settled { OnTrue result (IsSettled clauses.now (known_of values.old.items) v) }
    ensures same { values.new.items ≡ values.old.items }
{
    if has_step(clauses, values, v) {
        return true;
    }
    if inputs == 0 {
        return false;
    }
    let Some(w) = input_of(clauses, values, v) else {
        return false;
    };
    values[w as usize] = Some(false);
    let where_false = is_settled(clauses, values, v, inputs - 1);
    values[w as usize] = Some(true);
    let where_true = is_settled(clauses, values, v, inputs - 1);
    values[w as usize] = None;
    where_false && where_true
}

/// Whether a clause is false, or unit by a literal of this variable.
fn has_step(clauses: &ClauseStore, values: &[Option<bool>], v: u32) -> bool
    requires { AreOver (length values.now - 1) clauses.now }
    ensures { OnTrue result (HasStep clauses.now (known_of values.now) v) }
{
    for place in 0..clauses.len() {
        match examine(values, clauses.clause(place + 1)) {
            Step::Falsified => return true,
            Step::Unit(l) => {
                if l.unsigned_abs() == v {
                    return true;
                }
            }
            Step::Other => {}
        }
    }
    false
}

/// An open variable below `v`, of a clause that names `v`.
fn input_of(clauses: &ClauseStore, values: &[Option<bool>], v: u32) -> Option<u32>
    requires { v < length values.now }
    ensures { IfSome result (λ w. (0 < w) × (w < v) × (known_of values.now w ≡ None)) }
{
    for place in 0..clauses.len() {
        let clause = clauses.clause(place + 1);
        if names(clause, v)
            && let Some(w) = open_below(clause, values, v)
        {
            return Some(w);
        }
    }
    None
}

/// Whether a clause names a variable.
fn names(clause: &[Lit], v: u32) -> bool {
    clause.iter().any(|l| l.unsigned_abs() == v)
}

/// An open variable below `v` of a clause.
fn open_below(clause: &[Lit], values: &[Option<bool>], v: u32) -> Option<u32>
    requires { v < length values.now }
    ensures { IfSome result (λ w. (0 < w) × (w < v) × (known_of values.now w ≡ None)) }
{
    for l in clause {
        let w = l.unsigned_abs();
        if w != 0 && w < v && values[w as usize].is_none() {
            return Some(w);
        }
    }
    None
}
