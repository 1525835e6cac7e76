//! Which clauses hold a literal.
//!
//! For each literal there is a list of clause numbers. A clause's number stands in the list of a literal as often as the
//! clause holds the literal, and nowhere else. The list of a variable v is at place 2v, and that of its negation at
//! 2v - 1. Contracts see the lists; that they are those of some clauses is `AreHolders` of `specs/Occurrences`.
ghost use Rattle.std.specs.Prelude.{◌≡◌, ◌≢◌, ◌+◌, ◌-◌, ◌*◌, ◌<◌, [], ℕ, ℤ, length, replicate, take, map, swap_remove, All, neg_ℤ, IfOk, OnOk, OnErr};
ghost use Rattle.sat_solver.specs.Occurrences.{place_of, list_of, times, IsAdded};

use clause_store::Lit;
use std::alloc::{AllocError, Global};
use std::marker::Model;

/// For each literal the clauses that hold it.
pub struct Occurrences {
    lists: Vec<Vec<u32>>,
}

impl Drop for Occurrences {
    fn drop(self) {
        let Occurrences { lists: _lists } = self;
    }
}

impl Model for Occurrences {
    ghost use Rattle.std.specs.Prelude.{List, ℕ, map};

    ghost Value = { List (List ℕ) };

    ghost view = { λ o. map (λ list. list.items) o.lists.items };
}

impl Occurrences {
    /// No clauses, over the variables from 0 up to this one.
    pub fn new(alloc: Global, greatest: u32) -> Result<Occurrences, AllocError>
        ensures { IfOk result (λ o. o ≡ replicate (2 * greatest + 1) []) }
    {
        let count = 2 * greatest as usize + 1;
        let mut lists = Vec::new(alloc);
        while lists.len() < count {
            lists.push(Vec::new(alloc))?;
        }
        Ok(Occurrences { lists })
    }

    /// The numbers of the clauses that hold a literal.
    pub fn of(&self, l: Lit) -> &[u32]
        requires { place_of l < length self.now }
        ensures { result.now ≡ list_of self.now l }
    {
        &self.lists[place_of(l)]
    }

    /// The numbers of the clauses that hold the negation of a literal.
    pub fn against(&self, l: Lit) -> &[u32]
        requires { place_of (neg_ℤ l) < length self.now }
        ensures { result.now ≡ list_of self.now (neg_ℤ l) }
    {
        &self.lists[place_of_negation(l)]
    }

    /// Adds a clause with its number. Where there is no memory for it, the lists stay as they were.
    pub fn add(&mut self, number: u32, clause: &[Lit]) -> Result<(), AllocError>
        requires { All (λ l. place_of l < length self.old) clause.now }
        ensures ok { OnOk result (IsAdded number clause.now self.old self.new) }
        ensures err { OnErr result (IsAdded number [] self.old self.new) }
    {
        for (place, l) in clause.iter().enumerate() {
            match self.lists[place_of(*l)].push(number) {
                Ok(()) => {}
                Err(_) => {
                    drop_last(&mut self.lists, &clause[..place]);
                    return Err(AllocError);
                }
            }
        }
        Ok(())
    }

    /// Takes the number at this place out of the list of a literal. The last one of the list comes into its place.
    pub fn remove(&mut self, l: Lit, place: usize)
        requires literal { place_of l < length self.old }
        requires place { place < length (list_of self.old l) }
        ensures len { length self.new ≡ length self.old }
        ensures list { list_of self.new l ≡ swap_remove (list_of self.old l) place 0 }
        ensures others { (m : ℤ) → place_of m ≢ place_of l → list_of self.new m ≡ list_of self.old m }
    {
        self.lists[place_of(l)].swap_remove(place);
    }
}

/// Takes the last number from the list of each literal of a clause.
fn drop_last(lists: &mut Vec<Vec<u32>>, clause: &[Lit])
    requires { All (λ l. place_of l < length lists.old.items) clause.now }
    ensures len { length lists.new.items ≡ length lists.old.items }
    ensures lists { (l : ℤ) → list_of (map (λ list. list.items) lists.new.items) l ≡ take (length (list_of (map (λ list. list.items) lists.old.items) l) - times l clause.now) (list_of (map (λ list. list.items) lists.old.items) l) }
{
    for l in clause {
        lists[place_of(*l)].pop();
    }
}

/// The place of a literal's list.
fn place_of(l: Lit) -> usize
    ensures { result ≡ place_of l }
{
    let twice = 2 * l.unsigned_abs() as usize;
    if l < 0 { twice - 1 } else { twice }
}

/// The place of the list of a literal's negation.
fn place_of_negation(l: Lit) -> usize
    ensures { result ≡ place_of (neg_ℤ l) }
{
    let twice = 2 * l.unsigned_abs() as usize;
    if l > 0 { twice - 1 } else { twice }
}
