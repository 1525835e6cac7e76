//! Listing the nodes: at each place the least numbered one that is not listed yet and whose read nodes are all listed.
//!
//! A node is `ready` where all nodes that it reads are listed. Each other node that is not listed waits for one that it
//! reads and that is not listed either; once that one is listed, the node is looked at again. `reads` has the nodes that
//! each node reads but some that are listed, and is read from the end, so no entry is looked at twice.
ghost use Rattle.std.specs.Prelude.{◌≡◌, ℕ, List, ◌<◌, true, OnOk, IfOk, length, map, replicate, slice_set, []};
ghost use Rattle.std.specs.List.{All, Contains};
ghost use Rattle.net_order.specs.Orders.{AreInside, row_of};
ghost use Rattle.net_order.specs.Listing.{stage_of, IsNext, IsPlaced, IsSized, marked, IsStage, CanBePlaced, none_left};

use std::alloc::{AllocError, Global};
use std::collections::BTreeSet;
use std::mem;

/// The nodes that are listed.
#[derive(Drop)]
pub(crate) struct Listing {
    listed: Vec<bool>,
    reads: Vec<Vec<usize>>,
    ready: BTreeSet<usize>,
    waiting: Vec<Vec<usize>>,
    order: Vec<usize>,
}

/// The last node that is not listed; the listed ones behind it are dropped.
fn next_unlisted(listed: &[bool], reads: &mut Vec<usize>) -> Result<Option<usize>, AllocError>
    requires { All (λ d. d < length listed.now) reads.old.items }
    ensures { IfOk result (λ o. IsNext listed.now reads.old.items reads.new.items o) }
{
    while let Some(d) = reads.pop() {
        if !listed[d] {
            reads.push(d)?;
            return Ok(Some(d));
        }
    }
    Ok(None)
}

/// So many empty lists.
fn empty_lists(alloc: Global, count: usize) -> Result<Vec<Vec<usize>>, AllocError>
    ensures { IfOk result (λ v. map (λ w. w.items) v.items ≡ replicate count []) }
{
    let mut lists = Vec::new(alloc);
    while lists.len() < count {
        lists.push(Vec::new(alloc))?;
    }
    Ok(lists)
}

impl Listing {
    /// Puts a node where it belongs.
    fn place(&mut self, c: usize) -> Result<(), AllocError>
        requires sized { IsSized (stage_of self.old) }
        requires node { c < length self.old.listed.items }
        ensures { OnOk result (IsPlaced c (stage_of self.old) (stage_of self.new)) }
    {
        match next_unlisted(&self.listed, &mut self.reads[c])? {
            None => {
                self.ready.insert(c)?;
            }
            Some(d) => self.waiting[d].push(c)?,
        }
        Ok(())
    }

    /// Puts nodes where they belong, one after the other.
    fn place_all(&mut self, woken: &[usize]) -> Result<(), AllocError>
        requires sized { IsSized (stage_of self.old) }
        requires nodes { All (λ c. c < length self.old.listed.items) woken.now }
        ensures listed { OnOk result (self.new.listed.items ≡ self.old.listed.items) }
        ensures stage { OnOk result ((rows : List (List ℕ)) → IsStage rows (stage_of self.old) (Contains woken.now)
            → CanBePlaced rows self.old.listed.items woken.now → IsStage rows (stage_of self.new) none_left) }
    {
        for c in woken {
            self.place(*c)?;
        }
        Ok(())
    }

    /// Lists a node, and puts those that waited for it where they belong.
    fn list(&mut self, alloc: Global, c: usize) -> Result<(), AllocError>
        requires sized { IsSized (stage_of self.old) }
        requires node { c < length self.old.listed.items }
        requires nodes { All (λ d. d < length self.old.listed.items) (row_of (stage_of self.old).waiting c) }
        ensures listed { OnOk result (self.new.listed.items ≡ slice_set self.old.listed.items c true) }
        ensures stage { OnOk result ((rows : List (List ℕ)) → IsStage rows (marked c (stage_of self.old)) (Contains (row_of (stage_of self.old).waiting c))
            → CanBePlaced rows (slice_set self.old.listed.items c true) (row_of (stage_of self.old).waiting c) → IsStage rows (stage_of self.new) none_left) }
    {
        let woken = mem::replace(&mut self.waiting[c], Vec::new(alloc));
        self.listed[c] = true;
        self.order.push(c)?;
        self.place_all(&woken)?;
        Ok(())
    }

    /// Nothing is listed yet, and each node is ready or waits.
    fn start(alloc: Global, reads: Vec<Vec<usize>>) -> Result<Listing, AllocError>
        requires inside { AreInside (map (λ v. v.items) reads.items) }
        ensures { IfOk result (λ l. IsStage (map (λ v. v.items) reads.items) (stage_of l) none_left) }
    {
        let count = reads.len();
        let mut listing = Listing {
            listed: vec![in alloc; false; count]?,
            reads,
            ready: BTreeSet::new(alloc),
            waiting: empty_lists(alloc, count)?,
            order: Vec::new(alloc),
        };
        for c in 0..count {
            listing.place(c)?;
        }
        Ok(listing)
    }

    /// Lists the least node that is ready, again and again, until none is.
    pub(crate) fn of(alloc: Global, reads: Vec<Vec<usize>>) -> Result<Listing, AllocError>
        requires inside { AreInside (map (λ v. v.items) reads.items) }
        ensures { IfOk result (λ l. IsStage (map (λ v. v.items) reads.items) (stage_of l) none_left × ((stage_of l).ready ≡ [])) }
    {
        let mut listing = Listing::start(alloc, reads)?;
        while let Some(c) = listing.ready.pop_first() {
            listing.list(alloc, c)?;
        }
        Ok(listing)
    }

    /// Which nodes are listed.
    pub(crate) fn listed(&self) -> &[bool]
        ensures { result.now ≡ (stage_of self.now).listed }
    {
        self.listed.as_slice()
    }

    /// The nodes that each node reads but some that are listed.
    pub(crate) fn left(&self) -> &[Vec<usize>]
        ensures { map (λ v. v.items) result.now ≡ (stage_of self.now).reads }
    {
        self.reads.as_slice()
    }

    /// The order of those that are listed.
    pub(crate) fn into_order(self) -> Vec<usize>
        ensures { result.items ≡ (stage_of self).order }
    {
        self.order
    }
}
