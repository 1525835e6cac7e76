//! Nodes with the order in which they settle.
ghost use Rattle.std.specs.Prelude.{IfOk};
ghost use Rattle.std.specs.List.{All};
ghost use Rattle.vlog_meaning.specs.Scopes.{names_of};
ghost use Rattle.tb_nets.specs.Nets.{wiring, IsSided};
ghost use Rattle.tb_nets.specs.Netted.{IsNetted};

use crate::graph::graph_of;
use crate::node::NetNode;
use mcy_base::Items;
use net_order::{Ordered, order};
use std::alloc::{AllocError, Global};
use vlog_meaning::Scope;
use vlog_syntax::Listed;

/// The nets of a bench: its nodes in the order of the source, and their places in the order in which they settle.
#[derive(Drop)]
pub struct Nets {
    pub nodes: Listed<NetNode>,
    pub order: Items<usize>,
}

/// What comes of nodes: the nets, or the place of the first node that is on a loop.
#[derive(Drop)]
pub enum Netted {
    Ready(Nets),
    Loop(usize),
}

impl Nets {
    /// The nets of nodes in the order of the source, where these are the signals at the design's inputs and outputs. Takes
    /// time linear in the nodes, the bits that they read and write and the pairs of nodes that share one, but for a
    /// logarithm, where none is on a loop.
    pub fn new(
        alloc: Global,
        nodes: Vec<NetNode>,
        inputs: &[u32],
        outputs: &[u32],
        scope: &Scope,
    ) -> Result<Netted, AllocError>
        requires { All (IsSided (names_of scope.now)) nodes.items }
        ensures { IfOk result (IsNetted (wiring (names_of scope.now) inputs.now outputs.now) nodes.items) }
    {
        let graph = graph_of(alloc, nodes.as_slice(), inputs, outputs, scope)?;
        match order(alloc, graph)? {
            Ordered::Order(order) => Ok(Netted::Ready(Nets {
                nodes: Listed::from_vec(nodes),
                order: Items::from_vec(order),
            })),
            Ordered::Loop(node) => Ok(Netted::Loop(node)),
        }
    }
}
