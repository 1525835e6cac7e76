//! Where each net of a builder leads in the end.
//!
//! A net is followed step by step until one is met of which it is known where it leads, or which was met on the same
//! way: that one is on a loop. Then what is known of the last net is known of all on the way, so each net is followed once.
//! `marks` tells what is known of each net, `path` has the open ones in the order in which they were met, and `loops` a net
//! of each loop that was found.
ghost use Rattle.std.specs.Prelude.{◌≡◌, ◌≢◌, ℕ, ◌+◌, ◌<◌, ◌≤◌, ◌^◌, List, [], IfOk, OnOk, MatchOption, length};
ghost use Rattle.net_builder.specs.declared.tracing.Mark.TheVariants.{Unknown};
ghost use Rattle.net_builder.specs.Finished.{led};
ghost use Rattle.net_builder.specs.Tracing.{known_of, mark_of, unknowns, Keeps, IsTraced, Comes, Fits, IsDone, end_in};

use crate::steps::{Step, Steps};
use netlist_core::Bit;
use std::alloc::{AllocError, Global};

/// What is known of where a net leads.
#[derive(Clone, Copy, Debug, PartialEq, Eq)]
pub(crate) enum Mark {
    Unknown,
    /// It is on the way that is followed now.
    Open,
    /// It leads to this bit.
    Ends(Bit),
    /// It leads into a loop.
    Loops,
}

/// The way that is followed, and what is known so far.
#[derive(Drop)]
pub(crate) struct Trace {
    steps: Steps,
    marks: Vec<Mark>,
    path: Vec<u32>,
    loops: Vec<u32>,
}

impl Trace {
    /// What is known of a net.
    fn mark(&self, net: u32) -> Mark
        ensures { result ≡ mark_of (known_of self.now) net }
    {
        match self.marks.get(net as usize) {
            Some(mark) => *mark,
            None => Mark::Ends(Bit::Net(net)),
        }
    }

    /// Where a net leads, once all are known and none loops.
    pub(crate) fn end(&self, net: u32) -> Bit
        ensures { result ≡ end_in (known_of self.now) net }
    {
        match self.mark(net) {
            Mark::Ends(bit) => bit,
            Mark::Unknown | Mark::Open | Mark::Loops => Bit::Net(net),
        }
    }

    /// The bit that a bit leads to.
    pub(crate) fn led(&self, bit: Bit) -> Bit
        ensures { result ≡ led (end_in (known_of self.now)) bit }
    {
        match bit {
            Bit::Fixed(_) => bit,
            Bit::Net(net) => self.end(net),
        }
    }

    /// A net of each loop.
    pub(crate) fn loops(&self) -> &[u32]
        ensures { result.now ≡ self.now.loops.items }
    {
        &self.loops
    }

    /// The steps.
    pub(crate) fn steps(&self) -> &Steps
        ensures { result.now ≡ self.now.steps }
    {
        &self.steps
    }

    /// Goes one step on from a net of which nothing is known, and gives the next one.
    fn open(&mut self, net: u32) -> Result<Option<u32>, AllocError>
        requires traced { IsTraced (known_of self.old) (Comes (known_of self.old) net) }
        requires unknown { mark_of (known_of self.old) net ≡ Unknown }
        ensures keeps { OnOk result (Keeps (known_of self.old) (known_of self.new)) }
        ensures known { OnOk result (mark_of (known_of self.new) net ≢ Unknown) }
        ensures traced { IfOk result (λ next. MatchOption next (IsTraced (known_of self.new) (Comes (known_of self.new) net)) (λ m. IsTraced (known_of self.new) (Comes (known_of self.new) m) × (unknowns self.new.marks.items + 1 ≡ unknowns self.old.marks.items))) }
    {
        match self.steps.of(net) {
            Step::Stays => {
                self.marks[net as usize] = Mark::Ends(Bit::Net(net));
                Ok(None)
            }
            Step::Constant(value) => {
                self.marks[net as usize] = Mark::Ends(Bit::Fixed(value));
                Ok(None)
            }
            Step::On(next) => {
                self.path.push(net)?;
                self.marks[net as usize] = Mark::Open;
                Ok(Some(next))
            }
        }
    }

    /// Goes one step on from a net, where nothing was known of it, and gives the next one.
    fn advance(&mut self, net: u32) -> Result<Option<u32>, AllocError>
        requires { IsTraced (known_of self.old) (Comes (known_of self.old) net) }
        ensures keeps { OnOk result (Keeps (known_of self.old) (known_of self.new)) }
        ensures known { OnOk result (mark_of (known_of self.new) net ≢ Unknown) }
        ensures traced { IfOk result (λ next. MatchOption next (IsTraced (known_of self.new) (Comes (known_of self.new) net)) (λ m. IsTraced (known_of self.new) (Comes (known_of self.new) m) × (unknowns self.new.marks.items + 1 ≡ unknowns self.old.marks.items))) }
    {
        match self.mark(net) {
            Mark::Unknown => self.open(net),
            _ => Ok(None),
        }
    }

    /// Follows a net until one is met that was known or open.
    fn walk(&mut self, from: u32) -> Result<u32, AllocError>
        requires { IsTraced (known_of self.old) (Comes (known_of self.old) from) }
        ensures keeps { OnOk result (Keeps (known_of self.old) (known_of self.new)) }
        ensures from { OnOk result (mark_of (known_of self.new) from ≢ Unknown) }
        ensures met { IfOk result (λ net. IsTraced (known_of self.new) (Comes (known_of self.new) net) × (mark_of (known_of self.new) net ≢ Unknown)) }
    {
        let mut net = from;
        while let Some(next) = self.advance(net)? {
            net = next;
        }
        Ok(net)
    }

    /// All nets on the way have this mark.
    fn settle(&mut self, mark: Mark)
        requires traced { IsTraced (known_of self.old) (Fits (known_of self.old) mark) }
        ensures keeps { Keeps (known_of self.old) (known_of self.new) }
        ensures done { IsDone (known_of self.new) }
    {
        while let Some(net) = self.path.pop() {
            self.marks[net as usize] = mark;
        }
    }

    /// Follows a net, and notes where all on its way lead.
    fn follow(&mut self, net: u32) -> Result<(), AllocError>
        requires { IsDone (known_of self.old) }
        ensures same { OnOk result (self.new.steps ≡ self.old.steps) }
        ensures stays { OnOk result ((n : ℕ) → mark_of (known_of self.old) n ≢ Unknown → mark_of (known_of self.new) n ≢ Unknown) }
        ensures known { OnOk result (mark_of (known_of self.new) net ≢ Unknown) }
        ensures done { OnOk result (IsDone (known_of self.new)) }
    {
        let met = self.walk(net)?;
        let mark = match self.mark(met) {
            Mark::Ends(bit) => Mark::Ends(bit),
            Mark::Open => {
                self.loops.push(met)?;
                Mark::Loops
            }
            Mark::Loops | Mark::Unknown => Mark::Loops,
        };
        self.settle(mark);
        Ok(())
    }

    /// Follows every net.
    pub(crate) fn of(alloc: Global, steps: Steps) -> Result<Trace, AllocError>
        ensures same { IfOk result (λ t. t.steps ≡ steps) }
        ensures done { IfOk result (λ t. IsDone (known_of t)) }
        ensures known { IfOk result (λ t. (n : ℕ) → mark_of (known_of t) n ≢ Unknown) }
    {
        let nets = steps.len();
        let mut trace = Trace {
            marks: vec![in alloc; Mark::Unknown; nets]?,
            path: Vec::new(alloc),
            loops: Vec::new(alloc),
            steps,
        };
        for net in 0..nets {
            trace.follow(net as u32)?;
        }
        Ok(trace)
    }
}
