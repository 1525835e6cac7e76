//! The clauses of a guess, each of which is watched at its first two literals.
//!
//! All literals stand in one buffer, and the clause with a number, from 0, begins at the place that `starts` has for it. `watchers` has for
//! each literal the clauses that watch it. A clause is looked at only where a literal that it watches has become false.
use crate::trail::value_of;
use clause_store::Lit;
use std::alloc::{AllocError, Global};

/// Clauses that are watched.
#[derive(Drop)]
pub struct Clauses {
    literals: Vec<Lit>,
    starts: Vec<usize>,
    watchers: Vec<Vec<usize>>,
}

/// What a clause has come to, one of whose watched literals is false.
pub enum Watch {
    /// Nothing follows.
    Kept,
    /// It watches another literal now.
    Moved,
    /// All literals but this one are false.
    Unit(Lit),
    /// All literals are false.
    Falsified,
}

/// The place of a literal's list.
fn place_of(l: Lit) -> usize {
    let twice = 2 * l.unsigned_abs() as usize;
    if l < 0 { twice + 1 } else { twice }
}

impl Clauses {
    /// No clauses, over the variables from 0 up to this one.
    pub fn new(alloc: Global, greatest: u32) -> Result<Clauses, AllocError> {
        let count = 2 * greatest as usize + 2;
        let mut watchers = Vec::new(alloc);
        for _ in 0..count {
            watchers.push(Vec::new(alloc))?;
        }
        Ok(Clauses {
            literals: Vec::new(alloc),
            starts: Vec::new(alloc),
            watchers,
        })
    }

    /// Adds a clause of at least two literals, and answers its number.
    pub fn add(&mut self, clause: &[Lit]) -> Result<usize, AllocError> {
        let number = self.starts.len();
        self.starts.push(self.literals.len())?;
        self.literals.extend_from_slice(clause)?;
        for l in clause.iter().take(2) {
            self.watch(*l, number)?;
        }
        Ok(number)
    }

    /// The clause with this number, or no literals where there is none.
    pub fn clause(&self, number: usize) -> &[Lit] {
        let (start, end) = self.span(number);
        if start <= end && end <= self.literals.len() {
            &self.literals[start..end]
        } else {
            &[]
        }
    }

    /// How many clauses watch a literal.
    pub fn watching(&self, l: Lit) -> usize {
        match self.watchers.get(place_of(l)) {
            Some(list) => list.len(),
            None => 0,
        }
    }

    /// The clause at this place of the list of a literal.
    pub fn watcher(&self, l: Lit, place: usize) -> Option<usize> {
        let list = self.watchers.get(place_of(l))?;
        let number = list.get(place)?;
        Some(*number)
    }

    /// Takes the clause at this place out of the list of a literal.
    pub fn drop_watcher(&mut self, l: Lit, place: usize) {
        if let Some(list) = self.watchers.get_mut(place_of(l)) {
            if place < list.len() {
                list.swap_remove(place);
            }
        }
    }

    /// Looks at a clause of which this watched literal is false.
    pub fn look(
        &mut self,
        values: &[Option<bool>],
        number: usize,
        l: Lit,
    ) -> Result<Watch, AllocError> {
        let (start, end) = self.span(number);
        if self.literal(start) == l {
            self.exchange(start, start.saturating_add(1));
        }
        let other = self.literal(start);
        if value_of(values, other) == Some(true) {
            return Ok(Watch::Kept);
        }
        if let Some(place) = self.open_place(values, start.saturating_add(2), end) {
            let opened = self.literal(place);
            self.exchange(start.saturating_add(1), place);
            self.watch(opened, number)?;
            return Ok(Watch::Moved);
        }
        if value_of(values, other) == Some(false) {
            Ok(Watch::Falsified)
        } else {
            Ok(Watch::Unit(other))
        }
    }

    /// Where a clause begins and ends.
    fn span(&self, number: usize) -> (usize, usize) {
        let start = match self.starts.get(number) {
            Some(start) => *start,
            None => self.literals.len(),
        };
        let end = match self.starts.get(number.saturating_add(1)) {
            Some(end) => *end,
            None => self.literals.len(),
        };
        (start, end)
    }

    /// The literal at a place of the buffer, or 0 where there is none.
    fn literal(&self, place: usize) -> Lit {
        match self.literals.get(place) {
            Some(l) => *l,
            None => 0,
        }
    }

    /// Exchanges two literals of the buffer.
    fn exchange(&mut self, one: usize, other: usize) {
        if one < self.literals.len() && other < self.literals.len() {
            self.literals.swap(one, other);
        }
    }

    /// The first of these places whose literal is not false.
    fn open_place(&self, values: &[Option<bool>], from: usize, to: usize) -> Option<usize> {
        for place in from..to {
            if value_of(values, self.literal(place)) != Some(false) {
                return Some(place);
            }
        }
        None
    }

    /// Adds a clause to the list of a literal.
    fn watch(&mut self, l: Lit, number: usize) -> Result<(), AllocError> {
        if let Some(list) = self.watchers.get_mut(place_of(l)) {
            list.push(number)?;
        }
        Ok(())
    }
}
