//! For each literal a list of lemmas, so that a lemma all of whose literals are false is found without a look at all.
//!
//! Lemmas count from 0. Each stands in the list of one of its literals, its guard. Where a literal is false, the lemmas in its list are
//! moved to the lists of literals that aren't. What always holds is `AreGuarded` of `specs/Guards`; an empty lemma has no guard, and
//! then `all` is false.
ghost use Rattle.std.specs.Prelude.{◌≡◌, ◌≢◌, ℕ, ℤ, List, ◌-◌, ◌<◌, ◌≤◌, ◌++◌, ◌∷◌, [], length, map, drop, All, Contains, true, slice_get, slice_index_or, IfOk, OnOk, OnErr, IfSome};
ghost use Rattle.clause_store.specs.Clauses.{variable, AreOver};
ghost use Rattle.lrat_checker.specs.Guards.{place_of, list_at, lists_of, moved, AreGuarded, IsLast};

use crate::trail::Trail;
use clause_store::{ClauseStore, Lit};
use std::alloc::{AllocError, Global};

/// For each literal some lemmas.
pub(crate) struct Guards {
    lists: Vec<Vec<u32>>,
    /// Each lemma has a guard.
    all: bool,
}

impl Drop for Guards {
    fn drop(self) {
        let Guards {
            lists: _lists,
            all: _all,
        } = self;
    }
}

impl Guards {
    /// No lemmas, over the variables from 0 up to this one.
    pub(crate) fn new(alloc: Global, greatest: u32) -> Result<Guards, AllocError>
        ensures { IfOk result (AreGuarded []) }
    {
        let count = 2 * greatest as usize + 2;
        let mut lists = Vec::new(alloc);
        for _literal in 0..count {
            lists.push(Vec::new(alloc))?;
        }
        Ok(Guards { lists, all: true })
    }

    /// Adds the next lemma. Its first literal is its guard.
    pub(crate) fn add(&mut self, number: u32, lemma: &[Lit]) -> Result<(), AllocError>
        ensures ok { (lemmas : List (List ℤ)) → length lemmas ≡ number → AreGuarded lemmas self.old → OnOk result (AreGuarded (lemmas ++ lemma.now ∷ []) self.new) }
        ensures kept { (lemmas : List (List ℤ)) → AreGuarded lemmas self.old → AreGuarded lemmas self.new }
    {
        if lemma.is_empty() {
            self.all = false;
            return Ok(());
        }
        self.put(number, lemma[0])
    }

    /// Adds the next lemma to the list of one of its literals.
    fn put(&mut self, number: u32, l: Lit) -> Result<(), AllocError>
        ensures ok { (lemmas : List (List ℤ)) (lemma : List ℤ) → length lemmas ≡ number → Contains lemma l → AreGuarded lemmas self.old → OnOk result (AreGuarded (lemmas ++ lemma ∷ []) self.new) }
        ensures kept { (lemmas : List (List ℤ)) → AreGuarded lemmas self.old → AreGuarded lemmas self.new }
    {
        let place = place_of(l);
        if place >= self.lists.len() {
            self.all = false;
            return Ok(());
        }
        self.lists[place].push(number)?;
        Ok(())
    }

    /// Moves all lemmas out of the lists of literals that are false, as far as each has one that isn't.
    pub(crate) fn clear(
        &mut self,
        store: &ClauseStore,
        clauses: u32,
        trail: &Trail,
        lits: &[Lit],
    ) -> Result<(), AllocError>
        requires over { AreOver (length trail.now - 1) store.now }
        requires split { clauses ≤ length store.now }
        requires guarded { AreGuarded (drop clauses store.now) self.old }
        ensures { AreGuarded (drop clauses store.now) self.new }
    {
        for l in lits {
            self.clear_list(store, clauses, trail, place_of(*l))?;
        }
        Ok(())
    }

    /// Whether the lists of these literals are empty and each lemma has a guard.
    pub(crate) fn are_clear(&self, lits: &[Lit]) -> bool
        ensures { result ≡ true → (self.now.all ≡ true) × All (λ l. list_at (lists_of self.now) (place_of l) ≡ []) lits.now }
    {
        if !self.all {
            return false;
        }
        self.are_empty(lits)
    }

    /// Whether the lists of these literals are empty.
    fn are_empty(&self, lits: &[Lit]) -> bool
        ensures { result ≡ true → All (λ l. list_at (lists_of self.now) (place_of l) ≡ []) lits.now }
    {
        for l in lits {
            if !self.is_empty(*l) {
                return false;
            }
        }
        true
    }

    /// Whether the list of a literal is empty.
    fn is_empty(&self, l: Lit) -> bool
        ensures { result ≡ true → list_at (lists_of self.now) (place_of l) ≡ [] }
    {
        let place = place_of(l);
        if place >= self.lists.len() {
            return false;
        }
        self.lists[place].is_empty()
    }

    /// Moves the lemmas out of a list, from its end, up to one all of whose literals are false or in this list.
    fn clear_list(
        &mut self,
        store: &ClauseStore,
        clauses: u32,
        trail: &Trail,
        place: usize,
    ) -> Result<(), AllocError>
        requires over { AreOver (length trail.now - 1) store.now }
        requires split { clauses ≤ length store.now }
        requires guarded { AreGuarded (drop clauses store.now) self.old }
        ensures { AreGuarded (drop clauses store.now) self.new }
    {
        if place >= self.lists.len() {
            return Ok(());
        }
        for _turn in 0..self.lists[place].len() {
            if !self.move_last(store, clauses, trail, place)? {
                return Ok(());
            }
        }
        Ok(())
    }

    /// Moves the last lemma of a list to that of a literal that isn't false, and tells whether it has one.
    fn move_last(
        &mut self,
        store: &ClauseStore,
        clauses: u32,
        trail: &Trail,
        from: usize,
    ) -> Result<bool, AllocError>
        requires over { AreOver (length trail.now - 1) store.now }
        requires split { clauses ≤ length store.now }
        requires from { from < length self.old.lists.items }
        requires guarded { AreGuarded (drop clauses store.now) self.old }
        ensures guarded { AreGuarded (drop clauses store.now) self.new }
        ensures len { length self.new.lists.items ≡ length self.old.lists.items }
    {
        match last_of(&self.lists[from]) {
            Some(number) => self.move_out(store, clauses, trail, from, number),
            None => Ok(false),
        }
    }

    /// Moves this lemma, the last of a list, to the list of a literal that isn't false, and tells whether it has one.
    fn move_out(
        &mut self,
        store: &ClauseStore,
        clauses: u32,
        trail: &Trail,
        from: usize,
        number: u32,
    ) -> Result<bool, AllocError>
        requires over { AreOver (length trail.now - 1) store.now }
        requires split { clauses ≤ length store.now }
        requires from { from < length self.old.lists.items }
        requires last { IsLast (lists_of self.old) from number }
        requires guarded { AreGuarded (drop clauses store.now) self.old }
        ensures guarded { AreGuarded (drop clauses store.now) self.new }
        ensures len { length self.new.lists.items ≡ length self.old.lists.items }
    {
        if number >= store.len() - clauses {
            return Ok(false);
        }
        match standing_literal(trail, store.clause(clauses + number + 1)) {
            Some(l) => self.move_to(from, number, l),
            None => Ok(false),
        }
    }

    /// Moves this lemma, the last of a list, to the list of one of its literals, if that is another one.
    fn move_to(&mut self, from: usize, number: u32, l: Lit) -> Result<bool, AllocError>
        requires from { from < length self.old.lists.items }
        requires last { IsLast (lists_of self.old) from number }
        ensures guarded { (lemmas : List (List ℤ)) → Contains (slice_index_or lemmas number []) l → AreGuarded lemmas self.old → AreGuarded lemmas self.new }
        ensures len { length self.new.lists.items ≡ length self.old.lists.items }
    {
        let to = place_of(l);
        if to == from {
            return Ok(false);
        }
        if to >= self.lists.len() {
            return Ok(false);
        }
        move_number(&mut self.lists, from, to, number)?;
        Ok(true)
    }
}

/// Moves the last number of a list to the end of another one.
fn move_number(
    lists: &mut Vec<Vec<u32>>,
    from: usize,
    to: usize,
    number: u32,
) -> Result<(), AllocError>
    requires from { from < length lists.old.items }
    requires to { to < length lists.old.items }
    requires apart { from ≢ to }
    ensures ok { OnOk result (map (λ list. list.items) lists.new.items ≡ moved (map (λ list. list.items) lists.old.items) from to number) }
    ensures err { OnErr result (map (λ list. list.items) lists.new.items ≡ map (λ list. list.items) lists.old.items) }
    ensures len { length lists.new.items ≡ length lists.old.items }
{
    lists[to].push(number)?;
    lists[from].pop();
    Ok(())
}

/// The last number of a list.
fn last_of(list: &[u32]) -> Option<u32>
    ensures { result ≡ slice_get list.now (length list.now - 1) }
{
    list.last().copied()
}

/// The last literal of a clause that isn't false. The last ones of a lemma were assigned first, and stay longest.
fn standing_literal(trail: &Trail, clause: &[Lit]) -> Option<Lit>
    requires { All (λ l. variable l < length trail.now) clause.now }
    ensures { IfSome result (Contains clause.now) }
{
    let mut left = clause.len();
    while left > 0 {
        left -= 1;
        let l = clause[left];
        if !trail.is_false(l) {
            return Some(l);
        }
    }
    None
}

/// The place of a literal's list.
fn place_of(l: Lit) -> usize
    ensures { result ≡ place_of l }
{
    let twice = 2 * l.unsigned_abs() as usize;
    if l < 0 { twice - 1 } else { twice }
}
