//! Literals and clauses of rows, and how many there may be.
ghost use Rattle.std.specs.Prelude.{◌<◌, ◌≤◌, ◌^◌, IsTrue, All, length, sum_by};
ghost use Rattle.clause_store.specs.Clauses.{variable};

use anyhow::{Context, Result, bail};
use clause_store::{ClauseStore, Lit};
use std::alloc::Global;

/// More clauses, literals, variables, hints or gates than a table has.
pub(crate) const MANY: u32 = 1 << 20;

/// The literals that the words of a text are: a variable's number, or for its negation the negative number.
pub(crate) fn literals(alloc: Global, text: &str) -> Result<Vec<Lit>> {
    let mut list = Vec::new(alloc);
    for word in text.split_ascii_whitespace() {
        list.push(word.parse::<Lit>().ok().context("no literal")?)?;
    }
    Ok(list)
}

/// Whether a literal names a variable from 1 to this one.
fn is_named(literal: Lit, count: u32) -> bool
    ensures { IsTrue result → (0 < variable literal) × (variable literal ≤ count) }
{
    (1..=count).contains(&literal.unsigned_abs())
}

/// Whether all literals name variables from 1 to this one.
pub(crate) fn is_over(clause: &[Lit], count: u32) -> bool
    ensures { IsTrue result → All (λ l. (0 < variable l) × (variable l ≤ count)) clause.now }
{
    clause.iter().all(|literal| is_named(*literal, count))
}

/// Whether there is room for one more clause of so many literals.
pub(crate) fn has_room(clauses: &ClauseStore, literals: usize) -> bool
    ensures { IsTrue result → (length clauses.now < 2 ^ 20) × (sum_by length clauses.now < 2 ^ 20) × (literals < 2 ^ 20) }
{
    clauses.len() < MANY && clauses.literals() < MANY && literals < MANY as usize
}

/// Adds a clause to those that wait.
pub(crate) fn add_clause(clauses: &mut ClauseStore, clause: &[Lit]) -> Result<()> {
    if !has_room(clauses, clause.len()) {
        bail!("too many clauses");
    }
    clauses.push(clause)?;
    Ok(())
}
