//! The search: it decides free bits alone, and propagates before each decision.
//!
//! It looks at the cone of the last clause alone until nothing in it is open, and then at all clauses.
//! Invariant: the trail's literals have reasons among the clauses that it looks at and the lemmas, and none of these was false or
//! unit when a level began, so that the checker never refuses a lemma. The lists, counts and pairs of propagation are those of the
//! clauses and lemmas that it has taken in. Contracts see the log and the limit.
ghost use Rattle.std.specs.Prelude.{◌≡◌, ℕ, ◌+◌, ◌<◌, ◌≤◌, [], length, All, IfOk, OnOk, OnErr, IfSome, MatchOption, ⊤};
ghost use Rattle.clause_store.specs.Clauses.{IsModel};
ghost use Rattle.lrat_checker.specs.Tables.{known_of};
ghost use Rattle.sat_solver.specs.Trails.{IsDone};
ghost use Rattle.sat_solver.specs.Found.{Hunt, IsRunning, IsContinued, Finds, IsEnd, listed_values, values_of};

use crate::focus::Focus;
use crate::found::{Assignment, Found};
use crate::learn::learn;
use crate::probe::Probe;
use clause_encoder::Miter;
use lrat_checker::Checker;
use std::alloc::{AllocError, Global};
use std::marker::Model;

/// A search for a model of a miter's clauses.
#[derive(Drop)]
pub struct Search {
    alloc: Global,
    checker: Checker,
    probe: Probe,
    variables: u32,
    free: u32,
    limit: u32,
}

impl Model for Search {
    ghost use Rattle.sat_solver.specs.Found.{Hunt};

    ghost Value = { Hunt };

    ghost use Rattle.sat_solver.specs.Searches.{hunt_of, IsSearching};

    ghost view = { hunt_of };

    ghost invariant = { IsSearching };
}

impl Search {
    /// A search that adds at most `limit` lemmas.
    pub fn new(alloc: Global, miter: Miter, limit: u32) -> Result<Search, AllocError>
        requires { (1 ≤ limit) × (limit ≤ 100000) }
        ensures new { IfOk result (λ s. s ≡ record { log = record { clauses = miter.store; variables = miter.variables; free = miter.free; lemmas = [] }; limit = limit }) }
        ensures running { IfOk result IsRunning }
    {
        let (variables, free) = (miter.variables, miter.free);
        let focus = Focus::on_cone(alloc, &miter.store, variables, free)?;
        let checker = Checker::new(alloc, miter.store, variables, free)?;
        let probe = Probe::new(alloc, focus, variables)?;
        Ok(Search {
            alloc,
            checker,
            probe,
            variables,
            free,
            limit,
        })
    }

    /// Searches on until something is found or so many lemmas were added in this call. Where there is no memory, what was
    /// added stands, and the search can go on.
    pub fn turn(&mut self, conflicts: u32) -> Result<Option<Found>, AllocError>
        requires positive { 0 < conflicts }
        requires running { IsRunning self.old }
        ensures continued { IsContinued self.old self.new conflicts }
        ensures found { IfOk result (λ o. IfSome o (Finds self.new)) }
        ensures none { IfOk result (λ o. MatchOption o ((length self.new.log.lemmas ≡ length self.old.log.lemmas + conflicts) × IsRunning self.new) (λ _. ⊤)) }
        ensures err { OnErr result (IsRunning self.new) }
    {
        for _added in 0..conflicts {
            if let Some(found) = self.step()? {
                return Ok(Some(found));
            }
        }
        Ok(None)
    }

    /// Searches on until a model is found or one lemma was added.
    fn step(&mut self) -> Result<Option<Found>, AllocError>
        requires { IsRunning self.old }
        ensures continued { IsContinued self.old self.new 1 }
        ensures found { IfOk result (λ o. IfSome o (Finds self.new)) }
        ensures none { IfOk result (λ o. MatchOption o ((length self.new.log.lemmas ≡ length self.old.log.lemmas + 1) × IsRunning self.new) (λ _. ⊤)) }
        ensures err { OnErr result (IsRunning self.new) }
    {
        match self
            .probe
            .conflict(self.alloc, &self.checker, self.variables, self.free)?
        {
            None => Ok(Some(Found::Model(model(self.alloc, &self.probe.propagator.trail.values)?))),
            Some(conflict) => {
                learn(
                    self.alloc,
                    &mut self.checker,
                    &mut self.probe,
                    self.free,
                    conflict,
                )?;
                Ok(end(&self.checker, self.limit))
            }
        }
    }

    /// The checker with all lemmas.
    pub fn into_checker(self) -> Checker
        ensures { result ≡ self.log }
    {
        self.checker
    }
}

/// What the log says, after a lemma was added to a log without the empty lemma.
fn end(checker: &Checker, limit: u32) -> Option<Found>
    ensures { IsEnd checker.now.lemmas limit result }
{
    if checker.refuted() {
        Some(Found::Refuted)
    } else if checker.lemmas() == limit {
        Some(Found::Spent)
    } else {
        None
    }
}

/// The values of all variables.
fn model(alloc: Global, values: &[Option<bool>]) -> Result<Assignment, AllocError>
    ensures { IfOk result (λ a. (v : ℕ) → listed_values a v ≡ values_of (known_of values.now) v) }
{
    let mut listed = Vec::new(alloc);
    for value in values {
        listed.push(*value == Some(true))?;
    }
    Ok(Assignment::from_values(listed))
}
