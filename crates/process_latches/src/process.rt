//! What is refused first in a process.
ghost use Rattle.std.specs.Prelude.{◌≡◌, IfOk, OnOk};
ghost use Rattle.std.specs.List.{flat_map};
ghost use Rattle.std.specs.Option.{option_map};
ghost use Rattle.vlog_syntax.specs.declared.stmt.Stmt.{out-Stmt};
ghost use Rattle.vlog_meaning.specs.Scopes.{names_of};
ghost use Rattle.vlog_effects.specs.Steps.{Steps};
ghost use Rattle.elab_proc.specs.Order.{IsFirst};
ghost use Rattle.elab_proc.specs.Refusals.{AreSized};
ghost use Rattle.process_latches.specs.Refused.{latch_refusal, latch_refusals, event_refusals, control_refusals, body_refusals, waiting_refusals, process_refusals};
ghost use Rattle.process_latches.specs.Turning.{IsOwn};
ghost use Rattle.process_latches.specs.Writes.{target_of};

use crate::initial::initial_refusal;
use crate::latches::latch_in;
use crate::marks::{Marks, Write};
use crate::mixed::mixed_refusal;
use crate::walk::mark;
use elab_proc::{ProcessRules, Refusal, earlier, statement_refusal};
use mcy_base::Span;
use process_events::{Sensitivity, sensitivity_of};
use std::alloc::{AllocError, Global};
use vlog_meaning::{Cause, Fault, Scope};
use vlog_syntax::{EventControl, EventExpression, Process, Stmt};

/// What is refused first in a process, by its place, if anything is. In an `always` that is a latch of a combinational process (at its
/// `always`), a name of its list of events that is not declared, what its statements refuse, and a variable's second kind of
/// assignment (at its first token); one whose list of events is not supported is refused for that alone. In an `initial` it is what
/// gives no start value (`initial_refusal`). `written` tells which signals have a writer outside the process, by their numbers; a
/// signal past its end has none. The scope has signals of 1 to 128 bits, and is given back as it was; where there is no memory, it is
/// only to be dropped.
pub fn process_refusal(
    alloc: Global,
    process: &Process,
    scope: &mut Scope,
    written: &[bool],
) -> Result<Option<Refusal>, AllocError>
    requires { AreSized (names_of scope.old) }
    ensures first { IfOk result (λ o. IsFirst (process_refusals (names_of scope.old) written.now process.now) o) }
    ensures kept { OnOk result (names_of scope.new ≡ names_of scope.old) }
{
    match sensitivity_of(process) {
        Sensitivity::Once => Ok(initial_refusal(process.body.get(), scope)),
        Sensitivity::Refused(at, feature) => Ok(Some(Refusal::Unsupported(at, feature))),
        Sensitivity::Combinational => waiting_refusal(alloc, true, process, scope, written),
        Sensitivity::Clocked(_) => waiting_refusal(alloc, false, process, scope, written),
    }
}

/// What is refused first in a process that waits for events.
fn waiting_refusal(
    alloc: Global,
    is_combinational: bool,
    process: &Process,
    scope: &mut Scope,
    written: &[bool],
) -> Result<Option<Refusal>, AllocError>
    requires { AreSized (names_of scope.old) }
    ensures first { IfOk result (λ o. IsFirst (waiting_refusals is_combinational (names_of scope.old) written.now process.now.span (out-Stmt process.now.body)) o) }
    ensures kept { OnOk result (names_of scope.new ≡ names_of scope.old) }
{
    match process.body.get() {
        Stmt::EventControl(_, control, stmt) => {
            let waiting = Waiting {
                always: process.span,
                is_combinational,
                control,
                body: stmt.get(),
            };
            body_refusal(alloc, &waiting, scope, written)
        }
        _ => Ok(None),
    }
}

/// A process that waits for events: its `always`, its kind, the events and the statement that is done then.
#[derive(Drop)]
struct Waiting<'a> {
    always: Span,
    is_combinational: bool,
    control: &'a EventControl,
    body: &'a Stmt,
}

/// What is refused first in its events and its body.
fn body_refusal(
    alloc: Global,
    waiting: &Waiting<'_>,
    scope: &mut Scope,
    written: &[bool],
) -> Result<Option<Refusal>, AllocError>
    requires { AreSized (names_of scope.old) }
    ensures first { IfOk result (λ o. IsFirst (body_refusals waiting.now.is_combinational (names_of scope.old) written.now waiting.now.always waiting.now.control.now waiting.now.body.now) o) }
    ensures kept { OnOk result (names_of scope.new ≡ names_of scope.old) }
{
    let rules = ProcessRules {
        alloc,
        is_combinational: waiting.is_combinational,
        written,
    };
    let events = control_refusal(waiting.control, scope);
    let statements = statement_refusal(&rules, waiting.body, scope)?;
    let mut marks = Marks::new(alloc);
    mark(alloc, waiting.body, scope, &mut marks)?;
    let kinds = mixed_refusal(alloc, marks.writes.as_slice())?;
    let latch = latch_refusal(waiting.is_combinational, waiting.always, &marks);
    let last = earlier(kinds, latch);
    let later = earlier(statements, last);
    Ok(earlier(events, later))
}

/// The first name of a list of events that is not declared.
fn control_refusal(control: &EventControl, scope: &Scope) -> Option<Refusal>
    ensures { IsFirst (control_refusals (names_of scope.now) control.now) result }
{
    match control {
        EventControl::Implicit => None,
        EventControl::List(events) => events_refusal(events.as_slice(), scope),
    }
}

/// The first name of several events that is not declared.
fn events_refusal(events: &[EventExpression], scope: &Scope) -> Option<Refusal>
    ensures { IsFirst (flat_map (event_refusals (names_of scope.now)) events.now) result }
{
    let mut found = None;
    for event in events {
        found = earlier(found, event_refusal(event, scope));
    }
    found
}

/// A name of an event that is not declared.
fn event_refusal(event: &EventExpression, scope: &Scope) -> Option<Refusal>
    ensures { IsFirst (event_refusals (names_of scope.now) event.now) result }
{
    match scope.get(event.name.name.as_str()) {
        Some(_) => None,
        None => Some(Refusal::Wrong(Fault {
            cause: Cause::Unknown,
            span: event.name.span,
        })),
    }
}

/// The latch of a combinational process, by the marks of its body.
fn latch_refusal(is_combinational: bool, always: Span, marks: &Marks) -> Option<Refusal>
    ensures { (s : Steps) → IsOwn s marks.now → IsFirst (latch_refusals is_combinational always s) result }
{
    if is_combinational {
        latch_at(always, latch_in(marks))
    } else {
        None
    }
}

/// A latch, if there is one, at the `always` of its process.
fn latch_at(always: Span, latch: Option<Write>) -> Option<Refusal>
    ensures { IsFirst (latch_refusal always (option_map target_of latch)) result }
{
    match latch {
        None => None,
        Some(write) => Some(Refusal::Latch(always, write.number)),
    }
}
