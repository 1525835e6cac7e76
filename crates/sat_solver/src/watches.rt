//! The clauses that are watched, each at two of its literals.
//!
//! `pairs` has for each clause the two literals, or none where the clause is counted; number 0 is no clause's. `lists` has for
//! each literal the numbers of the clauses that are watched there, and maybe others. While a pair is a guard, its clause needs no
//! look: it is neither false nor unit as long as neither of the two literals becomes false. What always holds is `AreWatched` of
//! `specs/Watches`.
ghost use Rattle.std.specs.Prelude.{◌≡◌, ◌≢◌, ◌+◌, ◌*◌, ◌<◌, ◌++◌, ◌∷◌, [], length, replicate, slice_set, Some, None, IfOk, OnOk, OnErr, IfNone, IfSome};
ghost use Rattle.sat_solver.specs.Occurrences.{place_of, IsAdded};
ghost use Rattle.sat_solver.specs.Watches.{pair_of, IsOther};

use crate::occurrences::Occurrences;
use clause_store::Lit;
use std::alloc::{AllocError, Global};

/// Two literals of a clause.
#[derive(Clone, Copy)]
pub struct Pair {
    pub first: Lit,
    pub second: Lit,
}

/// The pairs of the clauses that are watched.
pub struct Watches {
    pub pairs: Vec<Option<Pair>>,
    pub lists: Occurrences,
}

impl Drop for Watches {
    fn drop(self) {
        let Watches {
            pairs: _pairs,
            lists: _lists,
        } = self;
    }
}

impl Watches {
    /// No clauses, over the variables from 0 up to this one.
    pub fn new(alloc: Global, greatest: u32) -> Result<Watches, AllocError>
        ensures pairs { IfOk result (λ w. w.pairs.items ≡ None ∷ []) }
        ensures lists { IfOk result (λ w. w.lists ≡ replicate (2 * greatest + 1) []) }
    {
        Ok(Watches {
            pairs: vec![in alloc; None; 1]?,
            lists: Occurrences::new(alloc, greatest)?,
        })
    }

    /// The other literal at which a clause is watched, where it is watched at this one.
    pub fn other(&self, number: u32, l: Lit) -> Option<Lit>
        ensures none { IfNone result ((pair : Pair) → pair_of self.now number ≡ Some pair → (pair.first ≢ l) × (pair.second ≢ l)) }
        ensures some { IfSome result (λ other. (pair : Pair) × (pair_of self.now number ≡ Some pair) × IsOther pair l other) }
    {
        match self.pairs.get(number as usize) {
            Some(Some(pair)) => other_of(*pair, l),
            _ => None,
        }
    }

    /// Watches a clause at this literal and another one in place of those before.
    pub fn change(&mut self, number: u32, kept: Lit, next: Lit) -> Result<(), AllocError>
        requires number { number < length self.old.pairs.items }
        requires place { place_of next < length self.old.lists }
        ensures lists { OnOk result (IsAdded number (next ∷ []) self.old.lists self.new.lists) }
        ensures pairs { OnOk result (self.new.pairs.items ≡ slice_set self.old.pairs.items number (Some (record { first = kept; second = next }))) }
        ensures err { OnErr result (IsAdded number [] self.old.lists self.new.lists) }
        ensures err_pairs { OnErr result (self.new.pairs.items ≡ self.old.pairs.items) }
    {
        self.lists.add(number, &[next])?;
        self.pairs[number as usize] = Some(Pair {
            first: kept,
            second: next,
        });
        Ok(())
    }
}

/// The other literal of a pair, where this one is in it.
fn other_of(pair: Pair, l: Lit) -> Option<Lit>
    ensures none { IfNone result ((pair.first ≢ l) × (pair.second ≢ l)) }
    ensures some { IfSome result (IsOther pair l) }
{
    if pair.first == l {
        Some(pair.second)
    } else if pair.second == l {
        Some(pair.first)
    } else {
        None
    }
}
