//! When a process runs, by its list of events.
ghost use Rattle.std.specs.Prelude.{◌≡◌, ◌∷◌, [], Some, None};
ghost use Rattle.std.specs.Option.{MatchOption};
ghost use Rattle.vlog_syntax.specs.declared.stmt.Stmt.{out-Stmt};
ghost use Rattle.process_events.specs.Events.{is_edge, any_edge, risen, of_two, of_edges, of_control, of_always, sensitivity, clock_in, said};

use crate::generator::is_toggle;
use crate::reads::{either, stmt_reads};
use mcy_base::Span;
use vlog_syntax::{
    Edge, EventControl, EventExpression, Feature, Identifier, Process, ProcessKind, Stmt,
};

/// When a process runs.
#[derive(Clone, Copy)]
pub enum Sensitivity<'a> {
    /// Once: an `initial`.
    Once,
    /// At each change of what it reads.
    Combinational,
    /// At each rising edge of a name.
    Clocked(&'a Identifier),
    /// Its list of events, or that it has none, is not supported.
    Refused(Span, Feature),
}

/// Whether an event is an edge.
fn is_edge(edge: Edge) -> bool
    ensures { result ≡ is_edge edge }
{
    match edge {
        Edge::Any => false,
        Edge::Posedge | Edge::Negedge => true,
    }
}

/// Whether one of the events is an edge.
fn any_edge(events: &[EventExpression]) -> bool
    ensures { result ≡ any_edge events.now }
{
    let mut found = false;
    for event in events {
        found = either(is_edge(event.edge), found);
    }
    found
}

/// A process that is clocked by an event, which has to be a rising edge.
fn risen(at: Span, feature: Feature, event: &EventExpression) -> Sensitivity<'_>
    ensures { said result ≡ risen at feature event.now.name event.now.edge }
{
    match event.edge {
        Edge::Posedge => Sensitivity::Clocked(&event.name),
        Edge::Any | Edge::Negedge => Sensitivity::Refused(at, feature),
    }
}

/// A process with two edges, and whether its body reads their names.
fn of_two<'a>(
    at: Span,
    first: &'a EventExpression,
    second: &'a EventExpression,
    first_read: bool,
    second_read: bool,
) -> Sensitivity<'a>
    ensures { said result ≡ of_two at first.now second.now first_read second_read }
{
    match (first_read, second_read) {
        (false, true) => risen(at, Feature::ClockList, first),
        (true, false) => risen(at, Feature::ClockList, second),
        (false, false) | (true, true) => Sensitivity::Refused(at, Feature::ClockList),
    }
}

/// A process with two events, one of which is an edge.
fn of_pair<'a>(
    at: Span,
    first: &'a EventExpression,
    second: &'a EventExpression,
    body: &Stmt,
) -> Sensitivity<'a>
    ensures { said result ≡ of_edges at (first.now ∷ second.now ∷ []) body.now }
{
    if is_edge(first.edge) && is_edge(second.edge) {
        let first_read = stmt_reads(first.name.name.as_str(), body);
        let second_read = stmt_reads(second.name.name.as_str(), body);
        of_two(at, first, second, first_read, second_read)
    } else {
        Sensitivity::Refused(at, Feature::ClockList)
    }
}

/// A process with a list in which there is an edge.
fn of_edges<'a>(at: Span, events: &'a [EventExpression], body: &Stmt) -> Sensitivity<'a>
    ensures { said result ≡ of_edges at events.now body.now }
{
    match events {
        [event] => risen(at, Feature::FallingClock, event),
        [first, second] => of_pair(at, first, second, body),
        _ => Sensitivity::Refused(at, Feature::ClockList),
    }
}

/// A process that waits for events.
fn of_control<'a>(at: Span, control: &'a EventControl, body: &Stmt) -> Sensitivity<'a>
    ensures { said result ≡ of_control at control.now body.now }
{
    match control {
        EventControl::Implicit => Sensitivity::Combinational,
        EventControl::List(events) => {
            if any_edge(events.as_slice()) {
                of_edges(at, events.as_slice(), body)
            } else {
                Sensitivity::Combinational
            }
        }
    }
}

/// An `always` with this body.
fn of_always(always: Span, body: &Stmt) -> Sensitivity<'_>
    ensures { said result ≡ of_always always (out-Stmt body.now) }
{
    match body {
        Stmt::EventControl(at, control, body) => of_control(*at, control, body.get()),
        Stmt::DelayControl(at, _, body) => {
            if is_toggle(body.get()) {
                Sensitivity::Refused(*at, Feature::Delay)
            } else {
                Sensitivity::Refused(always, Feature::ClockList)
            }
        }
        _ => Sensitivity::Refused(always, Feature::ClockList),
    }
}

/// When a process runs (IEEE 1364-2005, 9.7.5 and 9.9.2): `@*` and lists without edges make it combinational; one rising edge
/// clocks it, and so does one of two edges whose name the body does not read, where it is a rising one. Anything else is refused
/// at its `@`: one falling edge as FallingClock, other lists as ClockList. An `always` without a list is refused as ClockList at
/// that word, but a clock generator as Delay at its `#`.
pub fn sensitivity_of(process: &Process) -> Sensitivity<'_>
    ensures { said result ≡ sensitivity process.now }
{
    match process.kind {
        ProcessKind::Initial => Sensitivity::Once,
        ProcessKind::Always => of_always(process.span, process.body.get()),
    }
}

/// The name of a process's clock, where it has one.
pub fn clock_of(process: &Process) -> Option<&Identifier>
    ensures { MatchOption result (clock_in (sensitivity process.now) ≡ None) (λ n. clock_in (sensitivity process.now) ≡ Some n.now) }
{
    match sensitivity_of(process) {
        Sensitivity::Clocked(name) => Some(name),
        Sensitivity::Once | Sensitivity::Combinational | Sensitivity::Refused(..) => None,
    }
}
