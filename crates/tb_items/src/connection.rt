//! The connections of the design, as assignments through hidden signals (IEEE 1364-2005, 12.3.9.2).
ghost use Rattle.std.specs.Prelude.{◌≡◌, ◌||◌, ◌++◌, [], IfOk};
ghost use Rattle.std.specs.List.{flat_map};
ghost use Rattle.vlog_syntax.specs.declared.expr.Expr.{out-Expr};
ghost use Rattle.tb_items.specs.Connections.{hidden, is_name, clock_item, output_item, role_items, wire_items, wire_gives, gives_clock, clock_missing, taken, connections};

use crate::design::{Design, Role, hidden_name};
use crate::item::BenchItem;
use crate::left::left_of;
use flat_scopes::{Lent, Placing, Wire, wires_of};
use mcy_base::{Span, Text};
use std::alloc::{AllocError, Global};
use tb_faults::BenchFault;
use vlog_syntax::{Expr, Identifier, LeftSide};

/// The hidden signal of a port, at the place of the instance's name.
fn hidden(alloc: Global, instance: &Identifier, port: &Identifier) -> Result<Identifier, AllocError>
    ensures { IfOk result (λ n. n ≡ hidden instance.now port.now) }
{
    Ok(Identifier {
        name: hidden_name(alloc, instance.name.as_str(), port.name.as_str())?,
        span: instance.span,
    })
}

/// Whether an expression is this name alone.
fn is_name(name: &str, expr: &Expr) -> bool
    ensures { result ≡ is_name name.now (out-Expr expr.now) }
{
    match expr {
        Expr::Name(other) => name == other.name.as_str(),
        _ => false,
    }
}

/// Adds what is connected to the design's clock.
fn add_clock<'a>(
    clock: &Option<Text>,
    value: &'a Expr,
    items: &mut Vec<BenchItem<'a>>,
) -> Result<(), AllocError>
    ensures { IfOk result (λ done. items.new.items ≡ items.old.items ++ clock_item clock.now value.now) }
{
    match clock {
        None => items.push(BenchItem::Reads(Lent::of(value)))?,
        Some(clock) => {
            if !is_name(clock.as_str(), value) {
                let fault = BenchFault::PortMismatch(value.first_token());
                items.push(BenchItem::Refused(fault))?;
            }
        }
    }
    Ok(())
}

/// What is connected to an output.
fn output_item<'a>(port: Identifier, value: &Expr, left: Option<LeftSide>) -> BenchItem<'a>
    ensures { result ≡ output_item port value.now left }
{
    match left {
        Some(left) => BenchItem::Leaves(port, left),
        None => BenchItem::Refused(BenchFault::PortMismatch(value.first_token())),
    }
}

/// Adds what is connected to a port.
fn add_port<'a>(
    alloc: Global,
    clock: &Option<Text>,
    role: Role,
    port: Identifier,
    value: &Option<Lent<'a, Expr>>,
    items: &mut Vec<BenchItem<'a>>,
) -> Result<(), AllocError>
    ensures { IfOk result (λ done. items.new.items ≡ items.old.items ++ role_items clock.now role port value.now) }
{
    let Some(value) = value else {
        return Ok(());
    };
    match role {
        Role::Clock => add_clock(clock, value.get(), items),
        Role::Input => {
            items.push(BenchItem::Enters(port, Lent::of(value.get())))?;
            Ok(())
        }
        Role::Output => {
            let left = left_of(alloc, value.get())?;
            items.push(output_item(port, value.get(), left))?;
            Ok(())
        }
    }
}

/// Adds what a connection is.
fn add_wire<'a>(
    alloc: Global,
    design: &Design<'_>,
    clock: &Option<Text>,
    instance: &Identifier,
    wire: &Wire<'a>,
    items: &mut Vec<BenchItem<'a>>,
) -> Result<(), AllocError>
    ensures { IfOk result (λ done. items.new.items ≡ items.old.items ++ wire_items design.now clock.now instance.now wire.now) }
{
    match wire {
        Wire::Mismatch(span) => {
            items.push(BenchItem::Refused(BenchFault::PortMismatch(*span)))?;
            Ok(())
        }
        Wire::To(port, value) => {
            let name = hidden(alloc, instance, port.get())?;
            let role = design.role(port.get().name.as_str());
            add_port(alloc, clock, role, name, value, items)
        }
    }
}

/// Whether a connection gives the clock a value.
fn is_given(clock: &str, wire: &Wire<'_>) -> bool
    ensures { result ≡ wire_gives clock.now wire.now }
{
    match wire {
        Wire::To(port, Some(_)) => clock == port.get().name.as_str(),
        Wire::To(_, None) => false,
        Wire::Mismatch(_) => false,
    }
}

/// Whether one of the connections gives the clock a value.
fn gives_clock(clock: &str, wires: &[Wire<'_>]) -> bool
    ensures { result ≡ gives_clock clock.now wires.now }
{
    for wire in wires {
        if is_given(clock, wire) {
            return true;
        }
    }
    false
}

/// Adds the refusal of an instance whose clock has no value.
fn add_missing(
    design: &Design<'_>,
    at: Span,
    wires: &[Wire<'_>],
    items: &mut Vec<BenchItem<'_>>,
) -> Result<(), AllocError>
    ensures { IfOk result (λ done. items.new.items ≡ items.old.items ++ clock_missing design.now.clock at wires.now) }
{
    if let Some(clock) = &design.clock {
        if !gives_clock(clock.as_str(), wires) {
            items.push(BenchItem::Refused(BenchFault::PortMismatch(at)))?;
        }
    }
    Ok(())
}

/// Adds the refusal of an instance whose name stands already.
pub(crate) fn add_taken(
    placing: &Placing<'_>,
    items: &mut Vec<BenchItem<'_>>,
) -> Result<(), AllocError>
    ensures { IfOk result (λ done. items.new.items ≡ items.old.items ++ taken placing.now) }
{
    if placing.is_twice {
        let at = placing.instance.get().name.span;
        items.push(BenchItem::Refused(BenchFault::Twice(at)))?;
    }
    Ok(())
}

/// Adds what connections are.
fn add_wires<'a>(
    alloc: Global,
    design: &Design<'_>,
    clock: &Option<Text>,
    instance: &Identifier,
    wires: &[Wire<'a>],
    items: &mut Vec<BenchItem<'a>>,
) -> Result<(), AllocError>
    ensures { IfOk result (λ done. items.new.items ≡ items.old.items ++ flat_map (wire_items design.now clock.now instance.now) wires.now) }
{
    for wire in wires {
        add_wire(alloc, design, clock, instance, wire, items)?;
    }
    Ok(())
}

/// Adds the connections of an instance, and what is wrong in it ahead of them.
pub(crate) fn add_connections<'a>(
    alloc: Global,
    design: &Design<'a>,
    clock: &Option<Text>,
    placing: &Placing<'a>,
    items: &mut Vec<BenchItem<'a>>,
) -> Result<(), AllocError>
    ensures { IfOk result (λ done. items.new.items ≡ items.old.items ++ connections design.now clock.now placing.now) }
{
    let instance = placing.instance.get();
    let wires = wires_of(alloc, &design.ports, instance)?;
    add_missing(
        design,
        placing.module_name.get().span,
        wires.as_slice(),
        items,
    )?;
    add_taken(placing, items)?;
    add_wires(
        alloc,
        design,
        clock,
        &instance.name,
        wires.as_slice(),
        items,
    )
}
