//! The connections of an instance's ports, by name or by place (IEEE 1364-2005, 12.3.5 and 12.3.6).
ghost use Rattle.std.specs.Prelude.{◌≡◌, ◌++◌, [], map, IfOk};
ghost use Rattle.flat_scopes.specs.Wires.{name_in, declared_ports, ports_of, named_wire, named_wires, ordered_wires, wires_of};

use crate::lent::Lent;
use crate::names::NameList;
use mcy_base::Span;
use std::alloc::{AllocError, Global};
use vlog_syntax::{
    Boxed, Connections, Expr, Identifier, Instance, NamedConnection, PortDeclaration, Ports,
};

/// What a connection says.
#[derive(Drop)]
pub enum Wire<'a> {
    /// The port of this name has this value, or none.
    To(Lent<'a, Identifier>, Option<Lent<'a, Expr>>),
    /// There is no such port, or it was named before.
    Mismatch(Span),
}

/// Adds the names that a declaration declares.
fn add_declared<'a>(
    ports: &mut Vec<Lent<'a, Identifier>>,
    declaration: &'a PortDeclaration,
) -> Result<(), AllocError>
    ensures { IfOk result (λ done. ports.new.items ≡ ports.old.items ++ map name_in declaration.now.names) }
{
    for name in declaration.names.as_slice() {
        ports.push(Lent::of(&name.name))?;
    }
    Ok(())
}

/// The names that declarations declare, in order.
fn declared_ports<'a>(
    alloc: Global,
    declarations: &'a [PortDeclaration],
) -> Result<Vec<Lent<'a, Identifier>>, AllocError>
    ensures { IfOk result (λ names. names.items ≡ declared_ports declarations.now) }
{
    let mut ports = Vec::new(alloc);
    for declaration in declarations {
        add_declared(&mut ports, declaration)?;
    }
    Ok(ports)
}

/// These names, lent.
fn all_lent<'a>(
    alloc: Global,
    names: &'a [Identifier],
) -> Result<Vec<Lent<'a, Identifier>>, AllocError>
    ensures { IfOk result (λ list. list.items ≡ names.now) }
{
    let mut list = Vec::new(alloc);
    for name in names {
        list.push(Lent::of(name))?;
    }
    Ok(list)
}

/// The names in the head of a module, in order.
pub fn ports_of<'a>(
    alloc: Global,
    ports: &'a Ports,
) -> Result<Vec<Lent<'a, Identifier>>, AllocError>
    ensures { IfOk result (λ names. names.items ≡ ports_of ports.now) }
{
    match ports {
        Ports::Names(names) => all_lent(alloc, names.as_slice()),
        Ports::Declarations(declarations) => declared_ports(alloc, declarations.as_slice()),
    }
}

/// The value, lent.
fn lent<'a>(value: &'a Option<Boxed<Expr>>) -> Option<Lent<'a, Expr>>
    ensures { result ≡ value.now }
{
    match value {
        Some(value) => Some(Lent::of(value.get())),
        None => None,
    }
}

/// What a connection by name says, where these were named before.
fn named_wire<'a>(
    ports: &NameList<'_>,
    seen: &NameList<'_>,
    connection: &'a NamedConnection,
) -> Wire<'a>
    ensures { result ≡ named_wire ports.now seen.now connection.now }
{
    let name = connection.name.name.as_str();
    if ports.has(name) && !seen.has(name) {
        Wire::To(Lent::of(&connection.name), lent(&connection.value))
    } else {
        Wire::Mismatch(connection.name.span)
    }
}

/// The connections by name.
fn named_wires<'a>(
    alloc: Global,
    ports: &NameList<'_>,
    connections: &'a [NamedConnection],
) -> Result<Vec<Wire<'a>>, AllocError>
    ensures { IfOk result (λ wires. wires.items ≡ named_wires ports.now [] connections.now) }
{
    let mut wires = Vec::new(alloc);
    let mut seen = NameList::new(alloc);
    for connection in connections {
        wires.push(named_wire(ports, &seen, connection))?;
        seen = seen.with(Lent::of(&connection.name))?;
    }
    Ok(wires)
}

/// The connections by place.
fn ordered_wires<'a>(
    alloc: Global,
    at: Span,
    ports: &[Lent<'a, Identifier>],
    values: &'a [Option<Boxed<Expr>>],
) -> Result<Vec<Wire<'a>>, AllocError>
    ensures { IfOk result (λ wires. wires.items ≡ ordered_wires at ports.now values.now) }
{
    let mut wires = Vec::new(alloc);
    for (place, value) in values.iter().enumerate() {
        match ports.get(place) {
            Some(port) => wires.push(Wire::To(Lent::of(port.get()), lent(value)))?,
            None => {
                wires.push(Wire::Mismatch(at))?;
                return Ok(wires);
            }
        }
    }
    Ok(wires)
}

/// The connections of an instance whose module has these ports, in written order.
pub fn wires_of<'a>(
    alloc: Global,
    ports: &NameList<'a>,
    instance: &'a Instance,
) -> Result<Vec<Wire<'a>>, AllocError>
    ensures { IfOk result (λ wires. wires.items ≡ wires_of ports.now instance.now) }
{
    match &instance.ports {
        Connections::Ordered(values) => {
            let span = instance.name.span;
            ordered_wires(alloc, span, ports.as_slice(), values.as_slice())
        }
        Connections::Named(connections) => named_wires(alloc, ports, connections.as_slice()),
    }
}
