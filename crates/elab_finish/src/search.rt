//! Which nets of a builder lead back to themselves by joints.
//!
//! A net is followed, from joint to joint, until one is met that was met before. Where that was on this very way, it is on a
//! loop, and the loop is gone round once more; no other net of the way is on one. So each net is followed once. `marks` tells what
//! is known of each net; a net past its end is on no loop.
ghost use Rattle.std.specs.Prelude.{◌≡◌, ◌≢◌, ◌⊎◌, ◌↔◌, ℕ, ◌+◌, ◌<◌, ◌≤◌, MatchOption, IfOk, IsTrue, length};
ghost use Rattle.net_builder.specs.declared.steps.Step.TheVariants.{On};
ghost use Rattle.elab_finish.specs.declared.search.Mark.TheVariants.{Unknown, From, Looped};
ghost use Rattle.elab_finish.specs.Loops.{next_of, IsLooped};
ghost use Rattle.elab_finish.specs.Searching.{mark_in, tally, one_unknown, IsSettled, IsWalked};

use crate::nets::next_net;
use net_builder::Builder;
use std::alloc::{AllocError, Global};

/// What is known of a net.
#[derive(Clone, Copy, Debug, PartialEq, Eq)]
pub(crate) enum Mark {
    Unknown,
    /// It is on no loop.
    Free,
    /// It is on the way from this net.
    From(u32),
    /// It leads back to itself.
    Looped,
}

/// What is known of each net.
#[derive(Drop)]
pub(crate) struct Search {
    marks: Vec<Mark>,
}

impl Search {
    /// Nothing is known of so many nets, above which none is joined.
    pub(crate) fn new(alloc: Global, builder: &Builder, limit: usize) -> Result<Search, AllocError>
        requires { (n m : ℕ) → next_of builder.now n ≡ On m → n < limit }
        ensures { IfOk result (λ s. IsSettled (next_of builder.now) s.marks.items) }
    {
        let marks = vec![in alloc; Mark::Unknown; limit]?;
        Ok(Search { marks })
    }

    /// What is known of a net.
    fn mark(&self, net: u32) -> Mark
        ensures { result ≡ mark_in self.now.marks.items net }
    {
        match self.marks.get(net as usize) {
            Some(mark) => *mark,
            None => Mark::Free,
        }
    }

    /// Whether a net is known to be on a loop.
    fn is_round(&self, net: u32) -> bool
        ensures { IsTrue result ↔ (mark_in self.now.marks.items net ≡ Looped) }
    {
        match self.mark(net) {
            Mark::Looped => true,
            Mark::Unknown | Mark::Free | Mark::From(_) => false,
        }
    }

    /// Whether a net is known to be on the way from another.
    fn is_from(&self, net: u32, start: u32) -> bool
        ensures { IsTrue result ↔ (mark_in self.now.marks.items net ≡ From start) }
    {
        match self.mark(net) {
            Mark::From(other) => other == start,
            Mark::Unknown | Mark::Free | Mark::Looped => false,
        }
    }

    /// Goes one step on from a net of which nothing is known, on the way from another, and gives the next one.
    fn open(&mut self, builder: &Builder, start: u32, net: u32) -> Option<u32>
        requires walked { IsWalked (next_of builder.now) self.old.marks.items start net }
        requires unknown { mark_in self.old.marks.items net ≡ Unknown }
        requires start { (start ≡ net) ⊎ (mark_in self.old.marks.items start ≢ Unknown) }
        ensures stays { (n : ℕ) → mark_in self.old.marks.items n ≢ Unknown → mark_in self.new.marks.items n ≢ Unknown }
        ensures known { mark_in self.new.marks.items net ≢ Unknown }
        ensures walked { MatchOption result (IsWalked (next_of builder.now) self.new.marks.items start net) (λ m. IsWalked (next_of builder.now) self.new.marks.items start m × (tally one_unknown self.new.marks.items + 1 ≡ tally one_unknown self.old.marks.items)) }
    {
        match next_net(builder, net) {
            Some(next) => {
                self.marks[net as usize] = Mark::From(start);
                Some(next)
            }
            None => {
                self.marks[net as usize] = Mark::Free;
                None
            }
        }
    }

    /// Goes one step on from a net, where nothing was known of it, and gives the next one.
    fn advance(&mut self, builder: &Builder, start: u32, net: u32) -> Option<u32>
        requires walked { IsWalked (next_of builder.now) self.old.marks.items start net }
        requires start { (start ≡ net) ⊎ (mark_in self.old.marks.items start ≢ Unknown) }
        ensures stays { (n : ℕ) → mark_in self.old.marks.items n ≢ Unknown → mark_in self.new.marks.items n ≢ Unknown }
        ensures known { mark_in self.new.marks.items net ≢ Unknown }
        ensures walked { MatchOption result (IsWalked (next_of builder.now) self.new.marks.items start net) (λ m. IsWalked (next_of builder.now) self.new.marks.items start m × (tally one_unknown self.new.marks.items + 1 ≡ tally one_unknown self.old.marks.items)) }
    {
        match self.mark(net) {
            Mark::Unknown => self.open(builder, start, net),
            _ => None,
        }
    }

    /// Follows a net until one is met that was met before, or is not joined.
    fn walk(&mut self, builder: &Builder, start: u32) -> u32
        requires { IsWalked (next_of builder.now) self.old.marks.items start start }
        ensures known { mark_in self.new.marks.items start ≢ Unknown }
        ensures met { mark_in self.new.marks.items result ≢ Unknown }
        ensures walked { IsWalked (next_of builder.now) self.new.marks.items start result }
    {
        let mut net = start;
        while let Some(next) = self.advance(builder, start, net) {
            net = next;
        }
        net
    }

    /// The next net of a loop.
    fn next_round(builder: &Builder, net: u32) -> u32
        requires { IsLooped builder.now net }
        ensures { next_of builder.now net ≡ On result }
    {
        match next_net(builder, net) {
            Some(next) => next,
            None => net,
        }
    }

    /// Goes round a loop from one of its nets, all of which are then known to be on one.
    fn go_round(&mut self, builder: &Builder, met: u32)
        requires looped { IsLooped builder.now met }
        requires room { (n m : ℕ) → next_of builder.now n ≡ On m → n < length self.old.marks.items }
        ensures stays { (n : ℕ) → mark_in self.old.marks.items n ≢ Unknown → mark_in self.new.marks.items n ≢ Unknown }
        ensures met { mark_in self.new.marks.items met ≡ Looped }
        ensures walked { (start : ℕ) → IsWalked (next_of builder.now) self.old.marks.items start met → IsWalked (next_of builder.now) self.new.marks.items start met }
    {
        let mut net = met;
        while !self.is_round(net) {
            self.marks[net as usize] = Mark::Looped;
            net = Search::next_round(builder, net);
        }
    }

    /// Where the net that was met is on this very way, goes round its loop. No other net of the way is on one.
    fn close(&mut self, builder: &Builder, start: u32, met: u32)
        requires known { mark_in self.old.marks.items met ≢ Unknown }
        requires walked { IsWalked (next_of builder.now) self.old.marks.items start met }
        ensures stays { (n : ℕ) → mark_in self.old.marks.items n ≢ Unknown → mark_in self.new.marks.items n ≢ Unknown }
        ensures settled { IsSettled (next_of builder.now) self.new.marks.items }
    {
        if self.is_from(met, start) {
            self.go_round(builder, met);
        }
    }

    /// Follows a net where nothing is known of it.
    fn find(&mut self, builder: &Builder, net: u32)
        requires { IsSettled (next_of builder.now) self.old.marks.items }
        ensures settled { IsSettled (next_of builder.now) self.new.marks.items }
        ensures known { mark_in self.new.marks.items net ≢ Unknown }
    {
        match self.mark(net) {
            Mark::Unknown => {
                let met = self.walk(builder, net);
                self.close(builder, net, met);
            }
            Mark::Free | Mark::From(_) | Mark::Looped => {}
        }
    }

    /// Whether a net leads back to itself.
    pub(crate) fn is_looped(&mut self, builder: &Builder, net: u32) -> bool
        requires { IsSettled (next_of builder.now) self.old.marks.items }
        ensures settled { IsSettled (next_of builder.now) self.new.marks.items }
        ensures looped { IsTrue result ↔ IsLooped builder.now net }
    {
        self.find(builder, net);
        self.is_round(net)
    }
}
