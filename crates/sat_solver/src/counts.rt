//! How many literals of each clause are false and how many are true.
//!
//! Both tables are by clause number; number 0 is no clause's, and its counts are 0. What the counts are of is
//! `AreCounted` of `specs/Occurrences`. A clause of which two literals aren't false, or one is true, is quiet.
ghost use Rattle.std.specs.Prelude.{◌≡◌, ◌+◌, ◌≤◌, ◌<◌, ◌^◌, ◌∷◌, [], ℕ, length, count_by, nat_eq, All, slice_index_or, IfOk};
ghost use Rattle.std.specs.Bool.{OnTrue};
ghost use Rattle.lrat_checker.specs.Tables.{known_of};
ghost use Rattle.clause_store.specs.Clauses.{variable};
ghost use Rattle.sat_solver.specs.Occurrences.{valued, ShowQuiet};

use clause_store::Lit;
use lrat_checker::literal_value;
use std::alloc::{AllocError, Global};

/// The counts of each clause.
pub struct Counts {
    /// How many literals are false.
    pub falses: Vec<u32>,
    /// How many literals are true.
    pub trues: Vec<u32>,
}

impl Drop for Counts {
    fn drop(self) {
        let Counts {
            falses: _falses,
            trues: _trues,
        } = self;
    }
}

impl Counts {
    /// No clauses.
    pub fn new(alloc: Global) -> Result<Counts, AllocError>
        ensures falses { IfOk result (λ c. c.falses.items ≡ 0 ∷ []) }
        ensures trues { IfOk result (λ c. c.trues.items ≡ 0 ∷ []) }
    {
        Ok(Counts {
            falses: vec![in alloc; 0; 1]?,
            trues: vec![in alloc; 0; 1]?,
        })
    }

    /// Whether the counts of a clause of so many literals show that it is neither false nor unit.
    pub fn is_quiet(&self, number: u32, literals: usize) -> bool
        requires falses { number < length self.now.falses.items }
        requires trues { number < length self.now.trues.items }
        ensures { OnTrue result (ShowQuiet literals (slice_index_or self.now.falses.items number 0) (slice_index_or self.now.trues.items number 0)) }
    {
        let falses = self.falses[number as usize] as usize;
        falses + 1 < literals || self.trues[number as usize] > 0
    }
}

/// Adds 1 to the entry of each number of a list.
pub fn raise(table: &mut Vec<u32>, list: &[u32])
    requires within { All (λ n. n < length table.old.items) list.now }
    requires room { (n : ℕ) → slice_index_or table.old.items n 0 + count_by (nat_eq n) list.now < 2 ^ 32 }
    ensures len { length table.new.items ≡ length table.old.items }
    ensures entries { (n : ℕ) → slice_index_or table.new.items n 0 ≡ slice_index_or table.old.items n 0 + count_by (nat_eq n) list.now }
{
    for number in list {
        table[*number as usize] += 1;
    }
}

/// Takes 1 from the entry of each number of a list.
pub fn lower(table: &mut Vec<u32>, list: &[u32])
    requires { (n : ℕ) → count_by (nat_eq n) list.now ≤ slice_index_or table.old.items n 0 }
    ensures len { length table.new.items ≡ length table.old.items }
    ensures entries { (n : ℕ) → slice_index_or table.new.items n 0 + count_by (nat_eq n) list.now ≡ slice_index_or table.old.items n 0 }
{
    for number in list {
        table[*number as usize] -= 1;
    }
}

/// How many literals of a clause have this value.
pub fn count(values: &[Option<bool>], clause: &[Lit], value: bool) -> u32
    requires over { All (λ l. variable l < length values.now) clause.now }
    requires short { length clause.now < 2 ^ 32 }
    ensures { result ≡ valued (known_of values.now) value clause.now }
{
    let mut counted = 0;
    for l in clause {
        if literal_value(values, *l) == Some(value) {
            counted += 1;
        }
    }
    counted
}
