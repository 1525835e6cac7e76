//! A miter from clauses, or why they make none.
ghost use Rattle.std.specs.Prelude.{◌≡◌, ◌+◌, ◌<◌, ◌≤◌, ◌^◌, IsTrue, IfOk, IfNone, length, sum_by};
ghost use Rattle.clause_store.specs.Clauses.{AreOver};
ghost use Rattle.clause_encoder.specs.Miters.{Settles};

use crate::literals::{MANY, is_over};
use crate::searches::settling::is_settled;
use clause_encoder::Miter;
use clause_store::ClauseStore;
use std::alloc::{AllocError, Global};

/// How many free bits a miter has at most.
const MAX_FREE: u32 = 2048;

/// How many lesser variables a gate reads at most.
const INPUTS: u32 = 3;

/// Why clauses make no miter.
#[derive(Clone, Copy, Debug, PartialEq, Eq)]
pub(crate) enum NoMiter {
    /// There are more free bits than variables or than 2,048, or too many variables, clauses or literals.
    Size,
    /// The clause with this number has a literal that names none of the variables.
    Literal(u32),
    /// The clauses do not settle this variable, the least one.
    Unsettled(u32),
}

/// The miter of these clauses, over so many variables, of which the first are free bits.
pub(crate) fn miter(
    alloc: Global,
    store: ClauseStore,
    variables: u32,
    free: u32,
) -> Result<Result<Miter, NoMiter>, AllocError> {
    if !is_small(&store, variables, free) {
        return Ok(Err(NoMiter::Size));
    }
    if let Some(number) = stray(&store, variables) {
        return Ok(Err(NoMiter::Literal(number)));
    }
    if let Some(v) = unsettled(alloc, &store, variables, free)? {
        return Ok(Err(NoMiter::Unsettled(v)));
    }
    Ok(Ok(Miter {
        store,
        variables,
        free,
    }))
}

/// Whether clauses and variables keep to the limits.
fn is_small(store: &ClauseStore, variables: u32, free: u32) -> bool
    ensures { IsTrue result → (free ≤ variables) × (free ≤ 2048) × (variables < 2 ^ 20) × (length store.now < 2 ^ 20) × (sum_by length store.now < 2 ^ 20) }
{
    free <= variables
        && free <= MAX_FREE
        && variables < MANY
        && store.len() < MANY
        && store.literals() < MANY
}

/// The number of a clause that names another variable than 1 to this one.
fn stray(store: &ClauseStore, count: u32) -> Option<u32>
    ensures { IfNone result (AreOver count store.now) }
{
    for place in 0..store.len() {
        if !is_over(store.clause(place + 1), count) {
            return Some(place + 1);
        }
    }
    None
}

/// The least variable that is no free bit and is not settled.
fn unsettled(
    alloc: Global,
    store: &ClauseStore,
    variables: u32,
    free: u32,
) -> Result<Option<u32>, AllocError>
    requires over { AreOver variables store.now }
    requires short { variables < 2 ^ 20 }
    ensures { IfOk result (λ found. IfNone found (Settles store.now variables free)) }
{
    let mut values = vec![in alloc; None; variables as usize + 1]?;
    for v in free..variables {
        if !is_settled(store, &mut values, v + 1, INPUTS) {
            return Ok(Some(v + 1));
        }
    }
    Ok(None)
}
