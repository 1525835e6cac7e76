//! The places of the nodes of a testbench's nets.
ghost use Rattle.std.specs.Prelude.{◌≡◌, ◌++◌, ◌<◌, IfOk, length, slice_get, Some};
ghost use Rattle.tb_wired.specs.Wired.{item_places, places_of};

use mcy_base::Span;
use std::alloc::{AllocError, Global};
use tb_items::BenchItem;

/// Adds the place of the node that an item is, if it is one.
fn add_place(item: &BenchItem<'_>, places: &mut Vec<Span>) -> Result<(), AllocError>
    ensures { IfOk result (λ _. places.new.items ≡ places.old.items ++ item_places item.now) }
{
    match item {
        BenchItem::Refused(_) => {}
        BenchItem::Starts(..) => {}
        BenchItem::Drives(name, _) => places.push(name.get().span)?,
        BenchItem::Assigns(assignment) => places.push(assignment.get().left.first_token())?,
        BenchItem::Clocks(..) => {}
        BenchItem::Runs(_) => {}
        BenchItem::Holds(span) => places.push(*span)?,
        BenchItem::Reads(_) => {}
        BenchItem::Enters(port, _) => places.push(port.span)?,
        BenchItem::Leaves(port, _) => places.push(port.span)?,
    }
    Ok(())
}

/// The places of the nodes that items are, in order.
fn places_of(alloc: Global, items: &[BenchItem<'_>]) -> Result<Vec<Span>, AllocError>
    ensures { IfOk result (λ places. places.items ≡ places_of items.now) }
{
    let mut places = Vec::new(alloc);
    for item in items {
        add_place(item, &mut places)?;
    }
    Ok(places)
}

/// The place of a node.
pub(crate) fn place_of(
    alloc: Global,
    items: &[BenchItem<'_>],
    node: usize,
) -> Result<Span, AllocError>
    requires { node < length (places_of items.now) }
    ensures { IfOk result (λ at. slice_get (places_of items.now) node ≡ Some at) }
{
    let places = places_of(alloc, items)?;
    Ok(places[node])
}
