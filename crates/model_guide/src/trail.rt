//! The trail of a guess: the literals that are true, in the order in which they were made true, with their levels and reasons.
//!
//! The literals before `head` are propagated. A reason is a clause's number plus one, and 0 where there is none. Of each variable the
//! last value is kept, with which it is decided again.
use clause_store::Lit;
use std::alloc::{AllocError, Global};

/// A partial assignment with its history.
#[derive(Drop)]
pub struct Trail {
    pub values: Vec<Option<bool>>,
    pub literals: Vec<Lit>,
    pub head: usize,
    saved: Vec<bool>,
    levels: Vec<usize>,
    reasons: Vec<usize>,
    /// For each level, from 1, how many literals stood before its decision.
    starts: Vec<usize>,
}

/// The value of a literal.
pub fn value_of(values: &[Option<bool>], l: Lit) -> Option<bool> {
    match values.get(l.unsigned_abs() as usize) {
        Some(Some(value)) => Some(*value == (l > 0)),
        _ => None,
    }
}

impl Trail {
    /// All variables open, from 0 up to this one.
    pub fn new(alloc: Global, greatest: u32) -> Result<Trail, AllocError> {
        let count = greatest as usize + 1;
        Ok(Trail {
            values: vec![in alloc; None; count]?,
            literals: Vec::new(alloc),
            head: 0,
            saved: vec![in alloc; false; count]?,
            levels: vec![in alloc; 0usize; count]?,
            reasons: vec![in alloc; 0usize; count]?,
            starts: Vec::new(alloc),
        })
    }

    /// The level that was begun last, or 0.
    pub fn level(&self) -> usize {
        self.starts.len()
    }

    /// The level at which a literal got its value.
    pub fn level_of(&self, l: Lit) -> usize {
        match self.levels.get(l.unsigned_abs() as usize) {
            Some(level) => *level,
            None => 0,
        }
    }

    /// The reason of a literal.
    pub fn reason_of(&self, l: Lit) -> usize {
        match self.reasons.get(l.unsigned_abs() as usize) {
            Some(reason) => *reason,
            None => 0,
        }
    }

    /// Makes a literal true.
    pub fn assign(&mut self, l: Lit, reason: usize) -> Result<(), AllocError> {
        self.literals.push(l)?;
        let v = l.unsigned_abs() as usize;
        if let Some(value) = self.values.get_mut(v) {
            *value = Some(l > 0);
        }
        if let Some(level) = self.levels.get_mut(v) {
            *level = self.starts.len();
        }
        if let Some(old) = self.reasons.get_mut(v) {
            *old = reason;
        }
        Ok(())
    }

    /// Begins a level with the value that this variable had last, false at first.
    pub fn decide(&mut self, v: u32) -> Result<(), AllocError> {
        self.starts.push(self.literals.len())?;
        let positive = match Lit::try_from(v) {
            Ok(l) => l,
            Err(_) => 0,
        };
        match self.saved.get(v as usize) {
            Some(true) => self.assign(positive, 0),
            _ => self.assign(positive.saturating_neg(), 0),
        }
    }

    /// Takes back the last literal, and answers it.
    pub fn take_back(&mut self) -> Option<Lit> {
        let l = self.literals.pop()?;
        let v = l.unsigned_abs() as usize;
        if let Some(value) = self.values.get_mut(v) {
            *value = None;
        }
        if let Some(saved) = self.saved.get_mut(v) {
            *saved = l > 0;
        }
        Some(l)
    }

    /// Keeps only so many levels, and answers how many literals these have.
    pub fn keep_levels(&mut self, level: usize) -> usize {
        let start = match self.starts.get(level) {
            Some(start) => *start,
            None => self.literals.len(),
        };
        self.starts.truncate(level);
        self.head = self.head.min(start);
        start
    }
}
