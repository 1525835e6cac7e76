//! The nets of a testbench, from its items.
ghost use Rattle.std.specs.Prelude.{◌≡◌, ◌++◌, IfOk};
ghost use Rattle.tb_contents.specs.Nets.{item_nodes, nodes_of};

use std::alloc::{AllocError, Global};
use tb_items::{BenchItem, assignment_of};
use tb_nets::NetNode;

/// Adds the node that an item is, if it is one.
fn add_node(alloc: Global, item: &BenchItem<'_>, nodes: &mut Vec<NetNode>) -> Result<(), AllocError>
    ensures { IfOk result (λ _. nodes.new.items ≡ nodes.old.items ++ item_nodes item.now) }
{
    if let BenchItem::Holds(_) = item {
        nodes.push(NetNode::Design)?;
        return Ok(());
    }
    if let Some(assignment) = assignment_of(alloc, item)? {
        nodes.push(NetNode::Assign(assignment))?;
    }
    Ok(())
}

/// The nets of a testbench in the order of the source.
pub fn nodes_of(alloc: Global, items: &[BenchItem<'_>]) -> Result<Vec<NetNode>, AllocError>
    ensures { IfOk result (λ nodes. nodes.items ≡ nodes_of items.now) }
{
    let mut nodes = Vec::new(alloc);
    for item in items {
        add_node(alloc, item, &mut nodes)?;
    }
    Ok(nodes)
}
