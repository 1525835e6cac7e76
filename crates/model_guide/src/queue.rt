//! The order in which a guess decides variables: the one that a conflict touched last comes first.
//!
//! The variables stand in a list that is linked both ways, each later one with a greater stamp. No open variable comes after `open`.
//! The number 0 is no variable.
use std::alloc::{AllocError, Global};

/// A queue of variables.
#[derive(Drop)]
pub struct Queue {
    next: Vec<u32>,
    previous: Vec<u32>,
    stamps: Vec<u64>,
    clock: u64,
    last: u32,
    open: u32,
}

/// The entry at a place, or 0 where there is none.
fn entry(table: &[u32], place: u32) -> u32 {
    match table.get(place as usize) {
        Some(entry) => *entry,
        None => 0,
    }
}

/// Writes an entry, where there is one.
fn write(table: &mut Vec<u32>, place: u32, entry: u32) {
    if let Some(old) = table.get_mut(place as usize) {
        *old = entry;
    }
}

impl Queue {
    /// No variables, with room for those up to this one.
    pub fn new(alloc: Global, greatest: u32) -> Result<Queue, AllocError> {
        let count = greatest as usize + 1;
        Ok(Queue {
            next: vec![in alloc; 0u32; count]?,
            previous: vec![in alloc; 0u32; count]?,
            stamps: vec![in alloc; 0u64; count]?,
            clock: 0,
            last: 0,
            open: 0,
        })
    }

    /// The stamp of a variable.
    fn stamp(&self, v: u32) -> u64 {
        match self.stamps.get(v as usize) {
            Some(stamp) => *stamp,
            None => 0,
        }
    }

    /// Puts a variable at the end.
    pub fn add(&mut self, v: u32, is_open: bool) {
        write(&mut self.previous, v, self.last);
        write(&mut self.next, v, 0);
        write(&mut self.next, self.last, v);
        self.last = v;
        self.clock = self.clock.saturating_add(1);
        if let Some(stamp) = self.stamps.get_mut(v as usize) {
            *stamp = self.clock;
        }
        if is_open {
            self.open = v;
        }
    }

    /// Moves a variable to the end.
    pub fn touch(&mut self, v: u32, is_open: bool) {
        let (before, after) = (entry(&self.previous, v), entry(&self.next, v));
        if after == 0 {
            return;
        }
        if self.open == v {
            self.open = before;
        }
        write(&mut self.next, before, after);
        write(&mut self.previous, after, before);
        self.add(v, is_open);
    }

    /// Notes that a variable has become open.
    pub fn reopen(&mut self, v: u32) {
        if self.stamp(v) > self.stamp(self.open) {
            self.open = v;
        }
    }

    /// The open variable that stands last.
    pub fn next_open(&mut self, values: &[Option<bool>]) -> Option<u32> {
        for _ in 0..self.next.len() {
            if self.open == 0 {
                return None;
            }
            if let Some(None) = values.get(self.open as usize) {
                return Some(self.open);
            }
            self.open = entry(&self.previous, self.open);
        }
        None
    }
}
