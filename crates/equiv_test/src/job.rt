//! The job of an equivalence test: a search of the clauses of a pair of netlists, and simulators of both for the place of a
//! difference.
//!
//! Patterns are simulated before the search begins, and what they have shown is kept in `seen` until the first turn.
//! Invariant: the netlists have the same ports and registers and at most 2,048 free bits, the search is one of their
//! clauses, and `seen` is a difference of theirs. There is a search until something is found. Contracts see the netlists,
//! the limit and the search.
ghost use Rattle.std.specs.Prelude.{◌≡◌, ℕ, ◌+◌, ◌<◌, ◌≤◌, length, IfOk, IfErr, OnOk, OnErr, IfSome, MatchOption, ⊤};
ghost use Rattle.pair_gates.specs.Refusals.{IsRefused, IsAccepted};
ghost use Rattle.equiv_test.specs.Jobs.{IsNew, IsGoing, IsSameTest, GoesOn, lemmas_of};
ghost use Rattle.equiv_test.specs.Verdicts.{Tells};

use crate::patterns::seen_difference;
use crate::turning::{Turned, take_turn};
use crate::verdict::{Difference, EqVerdict};
use cycle_sim::Sim;
use netlist_core::Netlist;
use pair_gates::{EncodeError, encode};
use sat_solver::Search;
use std::alloc::{AllocError, Global};
use std::marker::Model;

/// A test of two netlists.
pub struct EqJob {
    alloc: Global,
    original: Sim,
    mutant: Sim,
    limit: u32,
    seen: Option<Difference>,
    search: Option<Search>,
}

impl Drop for EqJob {
    fn drop(self) {
        let EqJob {
            alloc: _alloc,
            original: _original,
            mutant: _mutant,
            limit: _limit,
            seen: _seen,
            search: _search,
        } = self;
    }
}

impl Model for EqJob {
    ghost use Rattle.equiv_test.specs.Jobs.{Job, IsJob};

    ghost Value = { Job };

    ghost view = { λ j. record { original = j.original.plan; mutant = j.mutant.plan; limit = j.limit; search = j.search } };

    ghost invariant = { λ j. IsJob (record { original = j.original.plan; mutant = j.mutant.plan; limit = j.limit; search = j.search }) j.seen };
}

impl EqJob {
    /// A test that adds at most `limit` lemmas.
    pub fn new(
        alloc: Global,
        original: &Netlist,
        mutant: &Netlist,
        limit: u32,
    ) -> Result<EqJob, EncodeError>
        requires { (1 ≤ limit) × (limit ≤ 100000) }
        ensures accepted { OnOk result (IsAccepted original.now mutant.now) }
        ensures refused { IfErr result (IsRefused original.now mutant.now) }
        ensures new { IfOk result (IsNew original.now mutant.now limit) }
    {
        // By their clauses both netlists are sound.
        let _parts = original.raw();
        let _others = mutant.raw();
        let miter = encode(alloc, original, mutant)?;
        let mut first = simulator(alloc, original)?;
        let mut second = simulator(alloc, mutant)?;
        let seen = seen_difference(alloc, &mut first, &mut second, &miter)?;
        let search = Search::new(alloc, miter, limit)?;
        Ok(EqJob {
            alloc,
            original: first,
            mutant: second,
            limit,
            seen,
            search: Some(search),
        })
    }

    /// Searches on until there is a verdict, or so many lemmas were added in this call. Where there is no memory, what was
    /// added stands, and the test can go on. By `none` and `fewer` the room that is left up to the limit falls with each turn
    /// without a verdict.
    pub fn turn(&mut self, conflicts: u32) -> Result<Option<EqVerdict>, AllocError>
        requires positive { 0 < conflicts }
        requires going { IsGoing self.old }
        ensures same { IsSameTest self.old self.new }
        ensures told { IfOk result (λ o. IfSome o (Tells self.old.original self.old.mutant self.old.limit)) }
        ensures none { IfOk result (λ o. MatchOption o (GoesOn self.old self.new conflicts × (length (lemmas_of self.new) ≡ length (lemmas_of self.old) + conflicts)) (λ _. ⊤)) }
        ensures fewer { IfOk result (λ o. MatchOption o (length (lemmas_of self.new) < self.old.limit) (λ _. ⊤)) }
        ensures err { OnErr result (GoesOn self.old self.new conflicts) }
    {
        let search = self.search.take().unwrap();
        if let Some(difference) = self.seen.take() {
            return Ok(Some(EqVerdict::Change(difference)));
        }
        match take_turn(
            self.alloc,
            &mut self.original,
            &mut self.mutant,
            search,
            self.limit,
            conflicts,
        ) {
            Turned::Unfinished(search) => {
                self.search = Some(search);
                Ok(None)
            }
            Turned::Finished(verdict) => Ok(Some(verdict)),
            Turned::OutOfMemory(search) => {
                self.search = Some(search);
                Err(AllocError)
            }
        }
    }
}

/// A simulator of the netlist.
fn simulator(alloc: Global, netlist: &Netlist) -> Result<Sim, AllocError>
    ensures { IfOk result (λ s. s.plan ≡ netlist.now) }
{
    let netlist = netlist.copy(alloc)?;
    Sim::new(alloc, netlist)
}
