//! What the connections of an instance list: an input gets the value of an expression outside, or 0, and a left side outside
//! gets the value of an output.
ghost use Rattle.std.specs.Prelude.{◌≡◌, ◌++◌, option_to_list, IfOk};
ghost use Rattle.flat_scopes.specs.Views.{opened_of};
ghost use Rattle.flat_instances.specs.Wires.{output_item, port_item, wire_item, wired, unwired_item, unwired, connected};

use crate::error::ItemError;
use crate::item::FlatItem;
use crate::left::is_left;
use crate::wired::Wired;
use flat_scopes::{Lent, Opening, Port, Wire};
use std::alloc::{AllocError, Global};
use vlog_syntax::{Direction, Expr, Identifier};

/// The numbers of the scope in which an instance stands, and of the scope of its module.
#[derive(Clone, Copy)]
pub struct Joint {
    pub outside: u32,
    pub inside: u32,
}

/// The left side that gets the value of an output, or that it is none.
fn output_item<'a>(joint: Joint, port: &'a Identifier, value: &'a Expr) -> FlatItem<'a>
    ensures { result ≡ output_item joint.outside joint.inside port.now value.now }
{
    if is_left(value) {
        FlatItem::Leaves(joint.outside, Lent::of(value), joint.inside, Lent::of(port))
    } else {
        FlatItem::Refuses(ItemError::PortMismatch(value.first_token()))
    }
}

/// What the connection of a port lists.
fn port_item<'a>(
    joint: Joint,
    name: &'a Identifier,
    value: &Option<Lent<'a, Expr>>,
    port: Port,
) -> Option<FlatItem<'a>>
    ensures { result ≡ port_item joint.outside joint.inside name.now value.now port.number port.direction }
{
    match (port.direction, value) {
        (Direction::Input, None) => Some(FlatItem::Open(port.number)),
        (Direction::Input, Some(value)) => Some(FlatItem::Enters(
            port.number,
            joint.outside,
            Lent::of(value.get()),
        )),
        (Direction::Output, None) => None,
        (Direction::Output, Some(value)) => Some(output_item(joint, name, value.get())),
    }
}

/// What a connection lists.
fn wire_item<'a>(joint: Joint, child: &Opening<'a>, wire: &Wire<'a>) -> Option<FlatItem<'a>>
    ensures { result ≡ wire_item joint.outside joint.inside (opened_of child.now) wire.now }
{
    match wire {
        Wire::Mismatch(span) => Some(FlatItem::Refuses(ItemError::PortMismatch(*span))),
        Wire::To(name, value) => match child.port(name.get().name.as_str()) {
            Some(port) => port_item(joint, name.get(), value, port),
            None => None,
        },
    }
}

/// Lists an item, if there is one.
pub(crate) fn add<'a>(
    items: &mut Vec<FlatItem<'a>>,
    item: Option<FlatItem<'a>>,
) -> Result<(), AllocError>
    ensures { IfOk result (λ done. items.new.items ≡ items.old.items ++ option_to_list item.entry) }
{
    if let Some(item) = item {
        items.push(item)?;
    }
    Ok(())
}

/// Lists what connections list.
fn add_wires<'a>(
    items: &mut Vec<FlatItem<'a>>,
    joint: Joint,
    child: &Opening<'a>,
    wires: &[Wire<'a>],
) -> Result<(), AllocError>
    ensures { IfOk result (λ done. items.new.items ≡ items.old.items ++ wired joint.outside joint.inside (opened_of child.now) wires.now) }
{
    for wire in wires {
        add(items, wire_item(joint, child, wire))?;
    }
    Ok(())
}

/// What a port of this name lists if it has no connection.
fn unwired_item<'a>(
    child: &Opening<'_>,
    wires: &Wired<'_, '_>,
    name: &Identifier,
) -> Option<FlatItem<'a>>
    ensures { result ≡ unwired_item (opened_of child.now) wires.now.wires.now name.now }
{
    if wires.has(name.name.as_str()) {
        return None;
    }
    match child.port(name.name.as_str()) {
        Some(
            Port {
                number,
                direction: Direction::Input,
            },
        ) => Some(FlatItem::Open(number)),
        _ => None,
    }
}

/// Lists the inputs that have no connection.
fn add_unwired<'a>(
    items: &mut Vec<FlatItem<'a>>,
    child: &Opening<'_>,
    wires: &Wired<'_, '_>,
    ports: &[Lent<'_, Identifier>],
) -> Result<(), AllocError>
    ensures { IfOk result (λ done. items.new.items ≡ items.old.items ++ unwired (opened_of child.now) wires.now.wires.now ports.now) }
{
    for port in ports {
        add(items, unwired_item(child, wires, port.get()))?;
    }
    Ok(())
}

/// What the connections of an instance list, whose module has these ports in its head: the connections in written order, and
/// then the inputs that have none.
pub fn connect<'a>(
    alloc: Global,
    joint: Joint,
    child: &Opening<'a>,
    wires: &[Wire<'a>],
    ports: &[Lent<'_, Identifier>],
) -> Result<Vec<FlatItem<'a>>, AllocError>
    ensures { IfOk result (λ items. items.items ≡ connected joint.outside joint.inside (opened_of child.now) wires.now ports.now) }
{
    let mut items = Vec::new(alloc);
    add_wires(&mut items, joint, child, wires)?;
    let wired = Wired::of(alloc, wires)?;
    add_unwired(&mut items, child, &wired, ports)?;
    Ok(items)
}
