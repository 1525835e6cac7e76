//! The lists of events for which processes wait.
ghost use Rattle.std.specs.Prelude.{◌≡◌, ◌&&◌, [], ◌∷◌, option_copied, if◌then◌else◌};
ghost use Rattle.std.specs.List.{flat_map, list_any, list_all};
ghost use Rattle.vlog_meaning.specs.Scopes.{names_of};
ghost use Rattle.vlog_syntax.specs.declared.feature.Feature.TheVariants.{ClockList};
ghost use Rattle.tb_faults.specs.declared.fault.BenchFault.TheVariants.{Unsupported};
ghost use Rattle.tb_faults.specs.Order.{IsFirst};
ghost use Rattle.tb_checks.specs.Statements.{has_edge, are_events, is_event, event_faults, control_names, control_faults};

use mcy_base::Span;
use tb_faults::{BenchFault, earlier};
use vlog_meaning::{Cause, Fault, Scope};
use vlog_syntax::{Edge, EventControl, EventExpression, Feature};

/// Whether an event is an edge.
fn has_edge(event: &EventExpression) -> bool
    ensures { result ≡ has_edge event.now }
{
    match event.edge {
        Edge::Any => false,
        Edge::Posedge | Edge::Negedge => true,
    }
}

/// Whether one of the events is an edge.
fn any_edge(events: &[EventExpression]) -> bool
    ensures { result ≡ list_any has_edge events.now }
{
    events.iter().any(|event| has_edge(event))
}

/// Whether all of them are edges.
fn all_edges(events: &[EventExpression]) -> bool
    ensures { result ≡ list_all has_edge events.now }
{
    events.iter().all(|event| has_edge(event))
}

/// Whether the events are one edge of the clock, or, where there is no clock, names alone or at most two edges.
fn are_events(clock: Option<&str>, events: &[EventExpression]) -> bool
    ensures { result ≡ are_events (option_copied clock.entry) events.now }
{
    match clock {
        Some(clock) => match events {
            [event] => has_edge(event) && clock == event.name.name.as_str(),
            _ => false,
        },
        None => !any_edge(events) || (all_edges(events) && events.len() <= 2),
    }
}

/// The same of an event control.
fn is_event(clock: Option<&str>, control: &EventControl) -> bool
    ensures { result ≡ is_event (option_copied clock.entry) control.now }
{
    match control {
        EventControl::Implicit => clock.is_none(),
        EventControl::List(events) => are_events(clock, events.as_slice()),
    }
}

/// A name that is not declared.
fn event_fault(scope: &Scope, event: &EventExpression) -> Option<BenchFault>
    ensures { IsFirst (event_faults (names_of scope.now) event.now) result }
{
    match scope.get(event.name.name.as_str()) {
        Some(_) => None,
        None => Some(BenchFault::Wrong(Fault {
            cause: Cause::Unknown,
            span: event.name.span,
        })),
    }
}

/// The first name among events that is not declared.
fn events_fault(scope: &Scope, events: &[EventExpression]) -> Option<BenchFault>
    ensures { IsFirst (flat_map (event_faults (names_of scope.now)) events.now) result }
{
    let mut found = None;
    for event in events {
        found = earlier(found, event_fault(scope, event));
    }
    found
}

/// The same in an event control.
fn names_fault(scope: &Scope, control: &EventControl) -> Option<BenchFault>
    ensures { IsFirst (control_names (names_of scope.now) control.now) result }
{
    match control {
        EventControl::Implicit => None,
        EventControl::List(events) => events_fault(scope, events.as_slice()),
    }
}

/// Whether an event control is supported where it stands.
fn is_supported(clock: Option<&str>, may_stand: bool, control: &EventControl) -> bool
    ensures { result ≡ (may_stand && is_event (option_copied clock.entry) control.now) }
{
    may_stand && is_event(clock, control)
}

/// An event control that is not supported, at its `@`.
fn list_fault(is_supported: bool, at: Span) -> Option<BenchFault>
    ensures { IsFirst (if is_supported then [] else Unsupported at ClockList ∷ []) result }
{
    if is_supported {
        None
    } else {
        Some(BenchFault::Unsupported(at, Feature::ClockList))
    }
}

/// What is wrong first in an event control.
pub(crate) fn control_fault(
    scope: &Scope,
    clock: Option<&str>,
    may_stand: bool,
    at: Span,
    control: &EventControl,
) -> Option<BenchFault>
    ensures { IsFirst (control_faults (names_of scope.now) (option_copied clock.entry) may_stand at control.now) result }
{
    let listed = list_fault(is_supported(clock, may_stand, control), at);
    earlier(listed, names_fault(scope, control))
}
