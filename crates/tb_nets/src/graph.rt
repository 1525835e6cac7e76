//! Which nodes read which.
ghost use Rattle.std.specs.Prelude.{ℕ, List, map, length, IfOk};
ghost use Rattle.std.specs.List.{All};
ghost use Rattle.vlog_meaning.specs.Scopes.{names_of};
ghost use Rattle.tb_nets.specs.Nets.{wiring, node_reads, IsSided};
ghost use Rattle.tb_nets.specs.Writers.{rows_of, writes_in, AreWriters, AreWritersOf, IsGraph};

use crate::node::{NetNode, add_reads, add_writes};
use crate::table::Writers;
use signal_masks::Masks;
use std::alloc::{AllocError, Global};
use vlog_meaning::Scope;

/// The writers of all bits.
fn writers_of(
    alloc: Global,
    nodes: &[NetNode],
    outputs: &[u32],
    scope: &Scope,
) -> Result<Writers, AllocError>
    requires { All (IsSided (names_of scope.now)) nodes.now }
    ensures { (inputs : List ℕ) → IfOk result (λ t. AreWriters (wiring (names_of scope.now) inputs outputs.now) nodes.now (length nodes.now) (rows_of t)) }
{
    let mut writers = Writers::new(alloc);
    for (number, node) in nodes.iter().enumerate() {
        let mut masks = Masks::new(alloc);
        add_writes(node, outputs, scope, &mut masks)?;
        writers.add_all(alloc, &masks, number)?;
    }
    Ok(writers)
}

/// The nodes that write what a node reads.
fn read_by(
    alloc: Global,
    node: &NetNode,
    writers: &Writers,
    inputs: &[u32],
    scope: &Scope,
) -> Result<Vec<usize>, AllocError>
    requires { IsSided (names_of scope.now) node.now }
    ensures { (outputs : List ℕ) → IfOk result (λ row. AreWritersOf (writes_in (rows_of writers.now)) (node_reads (wiring (names_of scope.now) inputs.now outputs) node.now) row.items) }
{
    let mut masks = Masks::new(alloc);
    add_reads(node, inputs, scope, &mut masks)?;
    let row = writers.of(alloc, &masks)?;
    Ok(row)
}

/// For each node those that write what it reads.
pub(crate) fn graph_of(
    alloc: Global,
    nodes: &[NetNode],
    inputs: &[u32],
    outputs: &[u32],
    scope: &Scope,
) -> Result<Vec<Vec<usize>>, AllocError>
    requires { All (IsSided (names_of scope.now)) nodes.now }
    ensures { IfOk result (λ v. IsGraph (wiring (names_of scope.now) inputs.now outputs.now) nodes.now (map (λ row. row.items) v.items)) }
{
    let writers = writers_of(alloc, nodes, outputs, scope)?;
    let mut graph = Vec::new(alloc);
    for node in nodes {
        graph.push(read_by(alloc, node, &writers, inputs, scope)?)?;
    }
    Ok(graph)
}
