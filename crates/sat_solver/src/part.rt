//! The clauses that a search propagates through: those of a checker's store that aren't left out, with their numbers there.
//!
//! `seen` clauses of the store, the first ones, were gone through. What always holds is `IsPart` of `specs/Parts`.
ghost use Rattle.std.specs.Prelude.{◌≡◌, ◌+◌, ◌≤◌, ◌<◌, [], ℕ, length, map, All, OnOk, OnErr, IfOk, false, slice_index_or};
ghost use Rattle.sat_solver.specs.Parts.{IsPart, number_of};

use clause_store::ClauseStore;
use std::alloc::{AllocError, Global};

/// Some clauses of a store.
pub struct Part {
    pub store: ClauseStore,
    pub numbers: Vec<u32>,
    pub seen: u32,
}

impl Drop for Part {
    fn drop(self) {
        let Part {
            store: _store,
            numbers: _numbers,
            seen: _seen,
        } = self;
    }
}

impl Part {
    /// No clauses.
    pub fn new(alloc: Global) -> Part
        ensures store { result.store ≡ [] }
        ensures numbers { result.numbers.items ≡ [] }
        ensures seen { result.seen ≡ 0 }
    {
        Part {
            store: ClauseStore::new(alloc),
            numbers: Vec::new(alloc),
            seen: 0,
        }
    }

    /// Goes through the clauses that weren't seen yet.
    pub fn update(&mut self, all: &ClauseStore, left_out: &[bool]) -> Result<(), AllocError>
        requires part { IsPart left_out.now all.now self.old }
        ensures part { IsPart left_out.now all.now self.new }
        ensures whole { OnOk result (self.new.seen ≡ length all.now) }
    {
        while self.seen < all.len() {
            self.see(all, left_out)?;
        }
        Ok(())
    }

    /// Takes the next clause unless it is left out.
    fn see(&mut self, all: &ClauseStore, left_out: &[bool]) -> Result<(), AllocError>
        requires part { IsPart left_out.now all.now self.old }
        requires next { self.old.seen < length all.now }
        ensures part { IsPart left_out.now all.now self.new }
        ensures seen { OnOk result (self.new.seen ≡ self.old.seen + 1) }
        ensures err { OnErr result (self.new.seen ≡ self.old.seen) }
    {
        // There are no more clauses and literals here than in the whole store.
        let _clauses = all.len();
        let _literals = all.literals();
        if is_left_out(left_out, self.seen as usize) {
            self.seen += 1;
            return Ok(());
        }
        self.numbers.reserve(1)?;
        self.store.push(all.clause(self.seen + 1))?;
        self.numbers.push(self.seen + 1)?;
        self.seen += 1;
        Ok(())
    }
}

/// Whether the clause at this place is left out.
fn is_left_out(left_out: &[bool], place: usize) -> bool
    ensures { result ≡ slice_index_or left_out.now place false }
{
    match left_out.get(place) {
        Some(flag) => *flag,
        None => false,
    }
}

/// The numbers, in the whole store, of the clauses with these numbers.
pub fn numbers_of(alloc: Global, numbers: &[u32], hints: &[u32]) -> Result<Vec<u32>, AllocError>
    requires { All (λ hint. (1 ≤ hint) × (hint ≤ length numbers.now)) hints.now }
    ensures { IfOk result (λ v. v.items ≡ map (number_of numbers.now) hints.now) }
{
    let mut named = Vec::new(alloc);
    for hint in hints {
        named.push(numbers[*hint as usize - 1])?;
    }
    Ok(named)
}
