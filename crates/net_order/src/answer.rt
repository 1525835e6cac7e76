//! The order of nodes, or the first one on a loop.
ghost use Rattle.std.specs.Prelude.{map, IfOk};
ghost use Rattle.net_order.specs.Orders.{AreInside};
ghost use Rattle.net_order.specs.Answers.{IsAnswer};

use crate::listing::Listing;
use crate::loops::least_on_loop;
use std::alloc::{AllocError, Global};

/// What comes of nodes: their order, or the number of the first one that reads itself, directly or through others.
#[derive(Drop)]
pub enum Ordered {
    Order(Vec<usize>),
    Loop(usize),
}

/// The order of nodes, by the nodes that each reads: at each place the least numbered one that is not listed yet and whose
/// read nodes are all listed. Takes time linear in what is read, and as many logarithms as nodes, where there is no loop.
pub fn order(alloc: Global, reads: Vec<Vec<usize>>) -> Result<Ordered, AllocError>
    requires { AreInside (map (λ v. v.items) reads.items) }
    ensures { IfOk result (IsAnswer (map (λ v. v.items) reads.items)) }
{
    let listing = Listing::of(alloc, reads)?;
    match least_on_loop(alloc, listing.left(), listing.listed())? {
        Some(node) => Ok(Ordered::Loop(node)),
        None => Ok(Ordered::Order(listing.into_order())),
    }
}
