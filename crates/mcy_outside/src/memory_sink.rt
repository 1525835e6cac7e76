//! A sink in memory whose calls fail by a list, so that tests can make each write fail in turn.
//!
//! `failing` has the numbers of the calls that fail, each with how many bytes that call still takes; `next`
//! is the number of the next call, `None` once no `u64` numbers it; `seen` is what was written; `faults` is
//! how many calls have failed. `room` is for how many bytes there is room: `seen` has that capacity from
//! the start, so no write takes memory, and `seen` is never longer.
ghost use Rattle.std.specs.Prelude.{◌≡◌, ◌++◌, if◌then◌else◌, Some, is_ok, vec_capacity};
ghost use Rattle.mcy_outside.specs.MemorySink.{Records, has_room, taken};

use crate::sink::{Sink, SinkFailed};
use mcy_base::{at_call, call_after};
use std::marker::Model;

/// A sink in memory whose calls fail by a list.
#[derive(Drop)]
pub struct MemorySink {
    failing: Vec<(u64, u32)>,
    next: Option<u64>,
    seen: Vec<u8>,
    room: usize,
    faults: u64,
}

impl Model for MemorySink {
    ghost use Rattle.std.specs.Prelude.{◌≤◌, vec_len, vec_capacity};
    ghost use Rattle.mcy_outside.specs.MemorySink.{ScriptedSink};

    ghost Value = { ScriptedSink };

    ghost view = { λ s. record { failing = s.failing.items; next = s.next; seen = s.seen.items; room = s.room; faults = s.faults } };

    ghost invariant = { λ s. (vec_len s.seen ≤ s.room) × (s.room ≤ vec_capacity s.seen) };
}

impl MemorySink {
    /// A sink that holds what `room` holds, and has room for as many bytes as `room` has capacity for.
    /// A call that `failing` numbers, counted from 0, fails after so many bytes of its piece, all at
    /// most. A call whose piece has no room fails too; what has no room is left out as a whole.
    pub fn new(failing: Vec<(u64, u32)>, room: Vec<u8>) -> MemorySink
        ensures { result ≡ record { failing = failing.items; next = Some 0; seen = room.items; room = vec_capacity room; faults = 0 } }
    {
        MemorySink {
            failing,
            next: Some(0),
            room: room.capacity(),
            seen: room,
            faults: 0,
        }
    }

    /// What was written. It takes no memory.
    pub fn seen(&self) -> &[u8]
        ensures { result.now ≡ self.now.seen }
    {
        &self.seen
    }

    /// Adds the text where there is room for it. Says whether there was.
    fn keep(&mut self, text: &[u8]) -> bool
        ensures kept { result ≡ has_room self.old text.now }
        ensures same { self.new ≡ record self.old { seen = if result then self.old.seen ++ text.now else self.old.seen } }
    {
        if self.room - self.seen.len() < text.len() {
            return false;
        }
        self.seen.extend_from_slice(text).is_ok()
    }
}

/// What a call takes of its piece: all of it, or so many bytes at most.
fn taken(part: Option<u32>, piece: &[u8]) -> &[u8]
    ensures { result.now ≡ taken part piece.now }
{
    match part {
        Some(part) if (part as usize) < piece.len() => &piece[..part as usize],
        _ => piece,
    }
}

impl Sink for MemorySink {
    ghost written = { λ s. Some s.seen };

    ghost faults = { λ s. s.faults };

    fn write_all(&mut self, piece: &[u8]) -> Result<(), SinkFailed>
        ensures { Records self.old self.new piece.now (is_ok result) }
    {
        let part = at_call(self.failing.as_slice(), self.next);
        self.next = call_after(self.next);
        let kept = self.keep(taken(part, piece));
        if kept && part.is_none() {
            return Ok(());
        }
        self.faults = self.faults.saturating_add(1);
        Err(SinkFailed)
    }
}
