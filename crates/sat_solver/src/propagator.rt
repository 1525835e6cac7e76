//! Unit propagation that costs by what is assigned.
//!
//! `taken` clauses, the first ones, are taken in. Each is counted or watched: `occurrences` has for each literal the counted ones
//! that hold it, and `counts` how many of their literals are false and true; the others are in `watches`. The literals before
//! `head` are propagated: a clause that is taken in and is unit under them has its literal made true. What always holds is
//! `IsKept` of `specs/Propagators`.
ghost use Rattle.std.specs.Prelude.{◌≡◌, ◌+◌, ◌-◌, ◌*◌, ◌<◌, ◌≤◌, ◌^◌, ◌++◌, ◌∷◌, [], ℕ, ℤ, List, length, take, All, None, Some, sum_by, slice_index_or, neg_ℤ, IfOk, IfNone, OnOk, OnErr, MatchOption};
ghost use Rattle.clause_store.specs.Clauses.{AreOver, variable};
ghost use Rattle.clause_store.specs.Propagation.{IsQuiet};
ghost use Rattle.lrat_checker.specs.Tables.{known_of};
ghost use Rattle.sat_solver.specs.Trails.{assigned, literal_at, IsOpened, IsUnchanged, IsGrown, IsConflict, IsUnwound, AreStarts};
ghost use Rattle.sat_solver.specs.Occurrences.{place_of, list_of, numbered, IsSettled};
ghost use Rattle.sat_solver.specs.Watches.{pair_of, IsPair, IsSafe, AreSettled};
ghost use Rattle.sat_solver.specs.Propagators.{IsKept, IsIndexed, IsSteady, IsAssigned, IsExamined, CanCount, AreRaised};

use crate::analyze::negated;
use crate::choose::choose;
use crate::counts::{Counts, count, lower, raise};
use crate::occurrences::Occurrences;
use crate::trail::Trail;
use crate::watches::{Pair, Watches};
use clause_store::{ClauseStore, Lit};
use lrat_checker::{Step, examine};
use std::alloc::{AllocError, Global};

/// A trail with what its propagation needs.
pub struct Propagator {
    pub trail: Trail,
    pub occurrences: Occurrences,
    pub counts: Counts,
    pub watches: Watches,
    pub taken: u32,
    pub head: usize,
}

impl Drop for Propagator {
    fn drop(self) {
        let Propagator {
            trail: _trail,
            occurrences: _occurrences,
            counts: _counts,
            watches: _watches,
            taken: _taken,
            head: _head,
        } = self;
    }
}

impl Propagator {
    /// All variables open, from 0 up to this one, and no clause taken in.
    pub fn new(alloc: Global, greatest: u32) -> Result<Propagator, AllocError>
        ensures opened { IfOk result (λ p. IsOpened (greatest + 1) p.trail) }
        ensures kept { IfOk result (λ p. (clauses : List (List ℤ)) → IsKept clauses p) }
    {
        Ok(Propagator {
            trail: Trail::new(alloc, greatest)?,
            occurrences: Occurrences::new(alloc, greatest)?,
            counts: Counts::new(alloc)?,
            watches: Watches::new(alloc, greatest)?,
            taken: 0,
            head: 0,
        })
    }

    /// Makes literals true until no clause is unit. Answers the number of a clause that is false, if there is one.
    pub fn propagate(&mut self, store: &ClauseStore) -> Result<Option<u32>, AllocError>
        requires over { AreOver (length self.old.trail.values.items - 1) store.now }
        requires short { length self.old.trail.values.items < 2 ^ 31 }
        requires kept { IsKept store.now self.old }
        ensures kept { IsKept store.now self.new }
        ensures grown { IsGrown store.now self.old.trail self.new.trail }
        ensures end { IfOk result (λ found. MatchOption found (All (IsQuiet (known_of self.new.trail.values.items)) store.now) (IsConflict store.now (known_of self.new.trail.values.items))) }
        ensures whole { IfOk result (λ found. IfNone found (self.new.head ≡ length self.new.trail.literals.items)) }
    {
        if let Some(conflict) = self.take_in(store)? {
            return Ok(Some(conflict));
        }
        'literals: while self.head < self.trail.literals.len() {
            if let Some(conflict) = self.propagate_next(store)? {
                return Ok(Some(conflict));
            }
        }
        Ok(None)
    }

    /// Begins a level with this open literal.
    pub fn decide(&mut self, l: Lit) -> Result<(), AllocError>
        requires within { variable l < length self.old.trail.values.items }
        requires short { length self.old.trail.literals.items < 2 ^ 32 }
        requires open { known_of self.old.trail.values.items (variable l) ≡ None }
        requires whole { self.old.head ≡ length self.old.trail.literals.items }
        requires kept { (clauses : List (List ℤ)) × IsKept clauses self.old }
        ensures decided { OnOk result (IsAssigned l 0 self.old.trail self.new.trail) }
        ensures starts { OnOk result (self.new.trail.starts.items ≡ self.old.trail.starts.items ++ length self.old.trail.literals.items ∷ []) }
        ensures err { OnErr result (IsUnchanged self.old.trail self.new.trail) }
        ensures err_starts { OnErr result (self.new.trail.starts.items ≡ self.old.trail.starts.items) }
        ensures kept { (clauses : List (List ℤ)) → IsKept clauses self.old → IsKept clauses self.new }
    {
        self.trail.decide(l)?;
        self.count(l);
        Ok(())
    }

    /// Keeps the levels 0 to `level`, which isn't the last one and began where all clauses were quiet.
    pub fn undo(&mut self, level: usize)
        requires level { level < length self.old.trail.starts.items }
        requires starts { AreStarts (length self.old.trail.literals.items) self.old.trail.starts.items }
        requires kept { (clauses : List (List ℤ)) × IsKept clauses self.old }
        ensures unwound { IsUnwound self.new.trail.values.items self.new.trail.literals.items self.old.trail.literals.items }
        ensures literals { length self.new.trail.literals.items ≡ slice_index_or self.old.trail.starts.items level 0 }
        ensures reasons { self.new.trail.reasons.items ≡ take (slice_index_or self.old.trail.starts.items level 0) self.old.trail.reasons.items }
        ensures starts { self.new.trail.starts.items ≡ take level self.old.trail.starts.items }
        ensures len { length self.new.trail.values.items ≡ length self.old.trail.values.items }
        ensures kept { (clauses : List (List ℤ)) → IsKept clauses self.old → All (IsQuiet (assigned (take (slice_index_or self.old.trail.starts.items level 0) self.old.trail.literals.items))) clauses → IsKept clauses self.new }
    {
        let start = self.trail.starts[level] as usize;
        self.uncount(start);
        self.trail.undo(level);
        if self.head > start {
            self.head = start;
        }
    }

    /// Examines each clause that isn't taken in yet, and takes it in where it isn't false. Answers the number of one that is.
    fn take_in(&mut self, store: &ClauseStore) -> Result<Option<u32>, AllocError>
        requires over { AreOver (length self.old.trail.values.items - 1) store.now }
        requires kept { IsKept store.now self.old }
        ensures kept { IsKept store.now self.new }
        ensures grown { IsGrown store.now self.old.trail self.new.trail }
        ensures end { IfOk result (λ found. MatchOption found (self.new.taken ≡ length store.now) (IsConflict store.now (known_of self.new.trail.values.items))) }
    {
        'fresh: while self.taken < store.len() {
            let number = self.taken + 1;
            if self.examine(store, number)? {
                return Ok(Some(number));
            }
            self.take(store, number)?;
        }
        Ok(None)
    }

    /// Takes in the next clause, which is quiet.
    fn take(&mut self, store: &ClauseStore, number: u32) -> Result<(), AllocError>
        requires over { AreOver (length self.old.trail.values.items - 1) store.now }
        requires number { (number ≡ self.old.taken + 1) × (number ≤ length store.now) }
        requires quiet { IsQuiet (known_of self.old.trail.values.items) (numbered store.now number) }
        requires kept { IsKept store.now self.old }
        ensures kept { IsKept store.now self.new }
        ensures trail { self.new.trail ≡ self.old.trail }
        ensures taken { OnOk result (self.new.taken ≡ number) }
    {
        match choose(&self.trail, store.clause(number)) {
            Some(pair) => self.take_watched(store, number, pair),
            None => self.take_counted(store, number),
        }
    }

    /// Takes in the next clause, which is quiet, and counts its literals.
    fn take_counted(&mut self, store: &ClauseStore, number: u32) -> Result<(), AllocError>
        requires over { AreOver (length self.old.trail.values.items - 1) store.now }
        requires number { (number ≡ self.old.taken + 1) × (number ≤ length store.now) }
        requires quiet { IsQuiet (known_of self.old.trail.values.items) (numbered store.now number) }
        requires kept { IsKept store.now self.old }
        ensures kept { IsKept store.now self.new }
        ensures trail { self.new.trail ≡ self.old.trail }
        ensures taken { OnOk result (self.new.taken ≡ number) }
    {
        // A clause has no more literals than the store.
        let _literals = store.literals();
        let clause = store.clause(number);
        self.counts.falses.reserve(1)?;
        self.counts.trues.reserve(1)?;
        self.watches.pairs.reserve(1)?;
        self.occurrences.add(number, clause)?;
        let falses = count(&self.trail.values, clause, false);
        let trues = count(&self.trail.values, clause, true);
        self.counts.falses.push(falses)?;
        self.counts.trues.push(trues)?;
        self.watches.pairs.push(None)?;
        self.taken = number;
        Ok(())
    }

    /// Takes in the next clause, which is quiet, and watches it at a pair.
    fn take_watched(
        &mut self,
        store: &ClauseStore,
        number: u32,
        pair: Pair,
    ) -> Result<(), AllocError>
        requires over { AreOver (length self.old.trail.values.items - 1) store.now }
        requires number { (number ≡ self.old.taken + 1) × (number ≤ length store.now) }
        requires quiet { IsQuiet (known_of self.old.trail.values.items) (numbered store.now number) }
        requires pair { IsPair (numbered store.now number) pair }
        requires safe { IsSafe self.old.trail.literals.items self.old.trail.starts.items pair }
        requires kept { IsKept store.now self.old }
        ensures kept { IsKept store.now self.new }
        ensures trail { self.new.trail ≡ self.old.trail }
        ensures taken { OnOk result (self.new.taken ≡ number) }
    {
        self.counts.falses.reserve(1)?;
        self.counts.trues.reserve(1)?;
        self.watches.pairs.reserve(1)?;
        self.watches.lists.add(number, &[pair.first, pair.second])?;
        self.counts.falses.push(0)?;
        self.counts.trues.push(0)?;
        self.watches.pairs.push(Some(pair))?;
        self.taken = number;
        Ok(())
    }

    /// Propagates the next literal. Answers the number of a clause that is false, if there is one.
    fn propagate_next(&mut self, store: &ClauseStore) -> Result<Option<u32>, AllocError>
        requires over { AreOver (length self.old.trail.values.items - 1) store.now }
        requires short { length self.old.trail.values.items < 2 ^ 31 }
        requires kept { IsKept store.now self.old }
        requires next { self.old.head < length self.old.trail.literals.items }
        ensures kept { IsKept store.now self.new }
        ensures grown { IsGrown store.now self.old.trail self.new.trail }
        ensures taken { self.new.taken ≡ self.old.taken }
        ensures end { IfOk result (λ found. MatchOption found (self.new.head ≡ self.old.head + 1) (IsConflict store.now (known_of self.new.trail.values.items))) }
    {
        let l = self.trail.literals[self.head];
        if let Some(conflict) = self.visit(store, l)? {
            return Ok(Some(conflict));
        }
        if let Some(conflict) = self.visit_watched(store, negated(l))? {
            return Ok(Some(conflict));
        }
        self.head += 1;
        Ok(None)
    }

    /// Examines the counted clauses in which this literal, the next one to propagate, is false. Answers the number of one that is false.
    fn visit(&mut self, store: &ClauseStore, l: Lit) -> Result<Option<u32>, AllocError>
        requires over { AreOver (length self.old.trail.values.items - 1) store.now }
        requires kept { IsKept store.now self.old }
        requires next { (self.old.head < length self.old.trail.literals.items) × (literal_at self.old.trail.literals.items self.old.head ≡ l) }
        ensures kept { IsKept store.now self.new }
        ensures grown { IsGrown store.now self.old.trail self.new.trail }
        ensures steady { IsSteady self.old self.new }
        ensures end { IfOk result (λ found. MatchOption found (AreSettled (assigned (take (self.old.head + 1) self.old.trail.literals.items)) (known_of self.new.trail.values.items) (take self.old.taken store.now) self.old.watches) (IsConflict store.now (known_of self.new.trail.values.items))) }
    {
        for place in 0..self.occurrences.against(l).len() {
            let number = self.occurrences.against(l)[place];
            if self.examine_counted(store, number)? {
                return Ok(Some(number));
            }
        }
        Ok(None)
    }

    /// Examines a clause that is counted, unless its counts show that it is quiet.
    fn examine_counted(&mut self, store: &ClauseStore, number: u32) -> Result<bool, AllocError>
        requires over { AreOver (length self.old.trail.values.items - 1) store.now }
        requires number { (1 ≤ number) × (number ≤ self.old.taken) }
        requires counted { pair_of self.old.watches number ≡ None }
        requires kept { IsKept store.now self.old }
        ensures kept { IsKept store.now self.new }
        ensures grown { IsGrown store.now self.old.trail self.new.trail }
        ensures steady { IsSteady self.old self.new }
        ensures end { IfOk result (IsExamined store.now (known_of self.new.trail.values.items) number) }
    {
        if self.counts.is_quiet(number, store.clause(number).len()) {
            return Ok(false);
        }
        self.examine(store, number)
    }

    /// Examines a clause, and makes its literal true where it is unit. Answers whether it is false.
    pub fn examine(&mut self, store: &ClauseStore, number: u32) -> Result<bool, AllocError>
        requires over { AreOver (length self.old.trail.values.items - 1) store.now }
        requires number { (1 ≤ number) × (number ≤ length store.now) }
        requires kept { IsKept store.now self.old }
        ensures kept { IsKept store.now self.new }
        ensures grown { IsGrown store.now self.old.trail self.new.trail }
        ensures steady { IsSteady self.old self.new }
        ensures end { IfOk result (IsExamined store.now (known_of self.new.trail.values.items) number) }
    {
        match examine(&self.trail.values, store.clause(number)) {
            Step::Falsified => return Ok(true),
            Step::Unit(l) => self.assign(l, number)?,
            Step::Other => {}
        }
        Ok(false)
    }

    /// Makes an open literal true.
    fn assign(&mut self, l: Lit, reason: u32) -> Result<(), AllocError>
        requires within { variable l < length self.old.trail.values.items }
        requires open { known_of self.old.trail.values.items (variable l) ≡ None }
        requires kept { (clauses : List (List ℤ)) × IsKept clauses self.old }
        ensures assigned { OnOk result (IsAssigned l reason self.old.trail self.new.trail) }
        ensures starts { self.new.trail.starts ≡ self.old.trail.starts }
        ensures err { OnErr result (IsUnchanged self.old.trail self.new.trail) }
        ensures steady { IsSteady self.old self.new }
        ensures kept { (clauses : List (List ℤ)) → IsKept clauses self.old → IsKept clauses self.new }
    {
        self.trail.assign(l, reason)?;
        self.count(l);
        Ok(())
    }

    /// Counts a literal that was made true.
    fn count(&mut self, l: Lit)
        requires { CanCount l self.old.occurrences self.old.counts }
        ensures trail { self.new.trail ≡ self.old.trail }
        ensures steady { IsSteady self.old self.new }
        ensures counted { AreRaised l self.old.occurrences self.old.counts self.new.counts }
    {
        raise(&mut self.counts.falses, self.occurrences.against(l));
        raise(&mut self.counts.trues, self.occurrences.of(l));
    }

    /// Takes the literals from this place on out of the counts.
    fn uncount(&mut self, start: usize)
        requires start { start ≤ length self.old.trail.literals.items }
        requires kept { (clauses : List (List ℤ)) × IsKept clauses self.old }
        ensures trail { self.new.trail ≡ self.old.trail }
        ensures steady { IsSteady self.old self.new }
        ensures indexed { (clauses : List (List ℤ)) (kept : IsKept clauses self.old) → IsIndexed kept.counted (assigned (take start self.old.trail.literals.items)) self.new.occurrences self.new.counts.falses.items self.new.counts.trues.items }
    {
        let mut place = self.trail.literals.len();
        'places: while place > start {
            place -= 1;
            let l = self.trail.literals[place];
            lower(&mut self.counts.falses, self.occurrences.against(l));
            lower(&mut self.counts.trues, self.occurrences.of(l));
        }
    }
}
