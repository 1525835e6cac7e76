//! One turn of the search of a pair's clauses, and what it comes to.
ghost use Rattle.std.specs.Prelude.{◌≡◌, ℕ, ◌<◌, ◌≤◌, ◌^◌, length, All};
ghost use Rattle.clause_store.specs.Clauses.{Values, IsModel};
ghost use Rattle.lrat_checker.specs.LegalLogs.{EndsEmpty, IsRefutation, IsAttempt};
ghost use Rattle.netlist_core.specs.Checked.{IsSound, free_bits};
ghost use Rattle.sat_solver.specs.Found.{IsRunning};
ghost use Rattle.pair_gates.specs.Matching.{AreAlike};
ghost use Rattle.pair_gates.specs.Copies.{pair_clauses};
ghost use Rattle.pair_gates.specs.Differences.{TellDifferences};
ghost use Rattle.equiv_test.specs.Jobs.{IsPairSearch};
ghost use Rattle.equiv_test.specs.Turns.{Turns};

use crate::place::difference_at;
use crate::verdict::EqVerdict;
use cycle_sim::Sim;
use sat_solver::{Attempt, Found, Refutation, Search};
use std::alloc::Global;

/// What a turn came to.
#[derive(Drop)]
pub(crate) enum Turned {
    /// Nothing was found, and as many lemmas were added as the turn allows.
    Unfinished(Search),
    Finished(EqVerdict),
    /// There was no memory; the search can go on.
    OutOfMemory(Search),
}

/// Searches on until there is a verdict, or so many lemmas were added.
pub(crate) fn take_turn(
    alloc: Global,
    original: &mut Sim,
    mutant: &mut Sim,
    search: Search,
    limit: u32,
    conflicts: u32,
) -> Turned
    requires positive { 0 < conflicts }
    requires running { IsRunning search }
    requires pair { IsPairSearch original.old.plan mutant.old.plan limit search }
    requires original { IsSound original.old.plan }
    requires mutant { IsSound mutant.old.plan }
    requires alike { AreAlike original.old.plan.raw mutant.old.plan.raw }
    requires few { free_bits original.old.plan.raw ≤ 2048 }
    requires tell { TellDifferences original.old.plan.raw mutant.old.plan.raw (pair_clauses original.old.plan mutant.old.plan) }
    ensures turns { Turns original.old.plan mutant.old.plan limit search conflicts result }
    ensures original { original.new.plan ≡ original.old.plan }
    ensures mutant { mutant.new.plan ≡ mutant.old.plan }
{
    let mut search = search;
    match search.turn(conflicts) {
        Ok(None) => Turned::Unfinished(search),
        Ok(Some(Found::Model(assignment))) => {
            match difference_at(alloc, original, mutant, &assignment) {
                Ok(found) => Turned::Finished(EqVerdict::Change(found.unwrap())),
                Err(_) => Turned::OutOfMemory(search),
            }
        }
        Ok(Some(Found::Refuted)) => Turned::Finished(EqVerdict::NoChange(refutation(search))),
        Ok(Some(Found::Spent)) => Turned::Finished(EqVerdict::Unknown(attempt(search, limit))),
        Err(_) => Turned::OutOfMemory(search),
    }
}

/// The refutation of a search whose last lemma is empty.
fn refutation(search: Search) -> Refutation
    requires { EndsEmpty search.log.lemmas }
    ensures log { result ≡ search.log }
    ensures refutation { IsRefutation search.log.clauses search.log.free search.log.lemmas }
    ensures unsatisfiable { (values : Values) → ¬ IsModel values search.log.clauses }
{
    let checker = search.into_checker();
    // By its clause the clauses have no model.
    let _refuted = checker.refuted();
    let refutation = Refutation::new(checker);
    let _lemmas = refutation.len();
    refutation
}

/// The attempt of a search with as many lemmas as the limit says.
fn attempt(search: Search, limit: u32) -> Attempt
    requires count { length search.log.lemmas ≡ limit }
    requires none_empty { All (λ lemma. 0 < length lemma) search.log.lemmas }
    ensures log { result ≡ search.log }
    ensures attempt { IsAttempt search.log.clauses search.log.free limit search.log.lemmas }
    ensures short { limit < 3 ^ search.log.free }
{
    let attempt = Attempt::new(search.into_checker(), limit);
    // By its clauses there are fewer lemmas than 3 to the power of the number of free bits.
    let _lemmas = attempt.len();
    attempt
}
