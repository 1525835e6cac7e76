//! Loops of nodes.
ghost use Rattle.std.specs.Prelude.{◌≡◌, ℕ, ◌<◌, ◌↔◌, true, map, OnOk, IfOk, IsTrue, length};
ghost use Rattle.std.specs.List.{All};
ghost use Rattle.net_order.specs.Orders.{AreInside, Reads, IsOnLoop, IsLeast, row_of};
ghost use Rattle.net_order.specs.Listing.{is_listed};
ghost use Rattle.net_order.specs.Reaching.{trail_of, after_node, after_nodes};

use std::alloc::{AllocError, Global};

/// The nodes that one node reads, directly or through others: which were found, and which of these are still
/// to be looked at.
#[derive(Drop)]
pub(crate) struct Search {
    found: Vec<bool>,
    open_nodes: Vec<usize>,
}

impl Search {
    /// A node is found.
    fn find(&mut self, node: usize) -> Result<(), AllocError>
        requires { node < length self.old.found.items }
        ensures trail { OnOk result (trail_of self.new ≡ after_node node (trail_of self.old)) }
        ensures room { length self.new.found.items ≡ length self.old.found.items }
    {
        if !self.found[node] {
            self.found[node] = true;
            self.open_nodes.push(node)?;
        }
        Ok(())
    }

    /// The nodes that a node reads are found.
    fn look(&mut self, row: &[usize]) -> Result<(), AllocError>
        requires { All (λ d. d < length self.old.found.items) row.now }
        ensures trail { OnOk result (trail_of self.new ≡ after_nodes row.now (trail_of self.old)) }
        ensures room { length self.new.found.items ≡ length self.old.found.items }
    {
        for node in row {
            self.find(*node)?;
        }
        Ok(())
    }
}

/// The nodes that a node reads.
fn row(reads: &[Vec<usize>], node: usize) -> &[usize]
    requires { node < length reads.now }
    ensures { result.now ≡ row_of (map (λ v. v.items) reads.now) node }
{
    reads[node].as_slice()
}

/// Whether a node reads itself, directly or through others.
fn is_on_loop(alloc: Global, reads: &[Vec<usize>], node: usize) -> Result<bool, AllocError>
    requires node { node < length reads.now }
    requires inside { AreInside (map (λ v. v.items) reads.now) }
    ensures { IfOk result (λ b. IsTrue b ↔ IsOnLoop (Reads (map (λ v. v.items) reads.now)) node) }
{
    let mut search = Search {
        found: vec![in alloc; false; reads.len()]?,
        open_nodes: Vec::new(alloc),
    };
    search.look(row(reads, node))?;
    while let Some(next) = search.open_nodes.pop() {
        search.look(row(reads, next))?;
    }
    Ok(search.found[node])
}

/// The same, where no listed node is on a loop.
fn is_looped(
    alloc: Global,
    reads: &[Vec<usize>],
    listed: &[bool],
    node: usize,
) -> Result<bool, AllocError>
    requires node { node < length reads.now }
    requires inside { AreInside (map (λ v. v.items) reads.now) }
    requires room { length listed.now ≡ length reads.now }
    requires listed { (c : ℕ) → is_listed listed.now c ≡ true → ¬ IsOnLoop (Reads (map (λ v. v.items) reads.now)) c }
    ensures { IfOk result (λ b. IsTrue b ↔ IsOnLoop (Reads (map (λ v. v.items) reads.now)) node) }
{
    if listed[node] {
        return Ok(false);
    }
    is_on_loop(alloc, reads, node)
}

/// The least node on a loop, where none of the listed nodes is on one.
pub(crate) fn least_on_loop(
    alloc: Global,
    reads: &[Vec<usize>],
    listed: &[bool],
) -> Result<Option<usize>, AllocError>
    requires inside { AreInside (map (λ v. v.items) reads.now) }
    requires room { length listed.now ≡ length reads.now }
    requires listed { (c : ℕ) → is_listed listed.now c ≡ true → ¬ IsOnLoop (Reads (map (λ v. v.items) reads.now)) c }
    ensures { IfOk result (IsLeast (IsOnLoop (Reads (map (λ v. v.items) reads.now)))) }
{
    for node in 0..listed.len() {
        if is_looped(alloc, reads, listed, node)? {
            return Ok(Some(node));
        }
    }
    Ok(None)
}
