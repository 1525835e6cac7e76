//! The node of each kind of statement, behind the nodes of its parts.
ghost use Rattle.std.specs.Prelude.{◌≡◌, None, Some, IfOk, codes, if◌then◌else◌};
ghost use Rattle.std.specs.Str.{bytes_eq};
ghost use Rattle.tb_machine.specs.declared.node.Node.TheVariants as n;
ghost use Rattle.tb_machine.specs.Steps.{event_of, event_of_edge};
ghost use Rattle.tb_code.specs.Codes.{Pushed};

use crate::copies::{copy_arguments, copy_assignment};
use std::alloc::{AllocError, Global};
use tb_machine::{Choice, Event, Node, Numbers};
use vlog_syntax::{Argument, Assignment, CaseKind, Edge, EventControl, Expr, Identifier, Listed};

/// A node behind the others. There is want of memory, too, where its number does not fit.
fn push(nodes: &mut Vec<Node>, node: Node) -> Result<u32, AllocError>
    ensures { IfOk result (λ number. Pushed nodes.old.items node nodes.new.items number) }
{
    // Where a node would be dropped, its proof would go over all that each kind holds.
    let number = nodes.len();
    nodes.push(node)?;
    match u32::try_from(number) {
        Ok(number) => Ok(number),
        Err(_) => Err(AllocError),
    }
}

/// `;`
pub(crate) fn null(nodes: &mut Vec<Node>) -> Result<u32, AllocError>
    ensures { IfOk result (λ number. Pushed nodes.old.items n.Null nodes.new.items number) }
{
    push(nodes, Node::Null)
}

/// `begin .. end`
pub(crate) fn seq_block(nodes: &mut Vec<Node>, body: Numbers) -> Result<u32, AllocError>
    ensures { IfOk result (λ number. Pushed nodes.old.items (n.SeqBlock body) nodes.new.items number) }
{
    push(nodes, Node::SeqBlock(body))
}

/// `if (condition) yes else no`
pub(crate) fn conditional(
    alloc: Global,
    nodes: &mut Vec<Node>,
    condition: &Expr,
    yes: u32,
    no: Option<u32>,
) -> Result<u32, AllocError>
    ensures { IfOk result (λ number. Pushed nodes.old.items (n.Conditional condition.now yes no) nodes.new.items number) }
{
    let condition = condition.copy(alloc)?;
    push(nodes, Node::Conditional(condition, yes, no))
}

/// `case (selector) .. endcase`
pub(crate) fn case(
    alloc: Global,
    nodes: &mut Vec<Node>,
    kind: CaseKind,
    selector: &Expr,
    items: Listed<Choice>,
) -> Result<u32, AllocError>
    ensures { IfOk result (λ number. Pushed nodes.old.items (n.Case kind selector.now items) nodes.new.items number) }
{
    let selector = selector.copy(alloc)?;
    push(nodes, Node::Case(kind, selector, items))
}

/// `for (start; condition; step) body`
pub(crate) fn for_loop(
    alloc: Global,
    nodes: &mut Vec<Node>,
    start: &Assignment,
    condition: &Expr,
    step: &Assignment,
    body: u32,
) -> Result<u32, AllocError>
    ensures { IfOk result (λ number. Pushed nodes.old.items (n.For start.now condition.now step.now body) nodes.new.items number) }
{
    let start = copy_assignment(alloc, start)?;
    let condition = condition.copy(alloc)?;
    let step = copy_assignment(alloc, step)?;
    push(nodes, Node::For(start, condition, step, body))
}

/// `while (condition) body`
pub(crate) fn while_loop(
    alloc: Global,
    nodes: &mut Vec<Node>,
    condition: &Expr,
    body: u32,
) -> Result<u32, AllocError>
    ensures { IfOk result (λ number. Pushed nodes.old.items (n.While condition.now body) nodes.new.items number) }
{
    let condition = condition.copy(alloc)?;
    push(nodes, Node::While(condition, body))
}

/// `repeat (count) body`
pub(crate) fn repeat(
    alloc: Global,
    nodes: &mut Vec<Node>,
    count: &Expr,
    body: u32,
) -> Result<u32, AllocError>
    ensures { IfOk result (λ number. Pushed nodes.old.items (n.Repeat count.now body) nodes.new.items number) }
{
    let count = count.copy(alloc)?;
    push(nodes, Node::Repeat(count, body))
}

/// `forever body`
pub(crate) fn forever(nodes: &mut Vec<Node>, body: u32) -> Result<u32, AllocError>
    ensures { IfOk result (λ number. Pushed nodes.old.items (n.Forever body) nodes.new.items number) }
{
    push(nodes, Node::Forever(body))
}

/// What an edge of the clock is to processes.
fn event_of_edge(edge: Edge) -> Event
    ensures { result ≡ event_of_edge edge }
{
    match edge {
        Edge::Posedge => Event::Rise,
        Edge::Negedge => Event::Fall,
        Edge::Any => Event::Start,
    }
}

/// What a wait waits for.
pub fn event_of(control: &EventControl) -> Event
    ensures { result ≡ event_of control.now }
{
    match control {
        EventControl::Implicit => Event::Start,
        EventControl::List(events) => match events.as_slice() {
            [event] => event_of_edge(event.edge),
            _ => Event::Start,
        },
    }
}

/// `@(edge) body`
pub(crate) fn event_control(
    nodes: &mut Vec<Node>,
    control: &EventControl,
    body: u32,
) -> Result<u32, AllocError>
    ensures { IfOk result (λ number. Pushed nodes.old.items (n.EventControl (event_of control.now) body) nodes.new.items number) }
{
    push(nodes, Node::EventControl(event_of(control), body))
}

/// `$name(..);`, or the end of the simulation.
pub(crate) fn system_task(
    alloc: Global,
    nodes: &mut Vec<Node>,
    name: &Identifier,
    arguments: &[Argument],
) -> Result<u32, AllocError>
    ensures { IfOk result (λ number. Pushed nodes.old.items (if bytes_eq name.now.name (codes "$finish") then n.Finish else n.SystemTaskEnable name.now arguments.now) nodes.new.items number) }
{
    if name.name.as_str() == "$finish" {
        push(nodes, Node::Finish)
    } else {
        let name = name.copy(alloc)?;
        let arguments = copy_arguments(alloc, arguments)?;
        push(nodes, Node::SystemTaskEnable(name, arguments))
    }
}

/// `left = value;`
pub(crate) fn blocking(
    alloc: Global,
    nodes: &mut Vec<Node>,
    assignment: &Assignment,
) -> Result<u32, AllocError>
    ensures { IfOk result (λ number. Pushed nodes.old.items (n.Blocking assignment.now) nodes.new.items number) }
{
    let assignment = copy_assignment(alloc, assignment)?;
    push(nodes, Node::Blocking(assignment))
}

/// `left <= value;`
pub(crate) fn nonblocking(
    alloc: Global,
    nodes: &mut Vec<Node>,
    assignment: &Assignment,
) -> Result<u32, AllocError>
    ensures { IfOk result (λ number. Pushed nodes.old.items (n.Nonblocking assignment.now) nodes.new.items number) }
{
    let assignment = copy_assignment(alloc, assignment)?;
    push(nodes, Node::Nonblocking(assignment))
}
