//! The processes of a testbench as code.
ghost use Rattle.std.specs.Prelude.{◌≡◌, ◌∷◌, [], IfOk};
ghost use Rattle.vlog_syntax.specs.declared.stmt.Stmt.{out-Stmt};
ghost use Rattle.tb_code.specs.Codes.{Adds};
ghost use Rattle.tb_reading.specs.Processes.{always_layer, of_kind, item_processes, processes, AddsWaiting};

use std::alloc::{AllocError, Global};
use tb_bench::Waiting;
use tb_code::{Code, event_of};
use tb_items::BenchItem;
use tb_machine::Event;
use vlog_syntax::{Process, ProcessKind, Stmt};

/// Adds a statement for a process that waits for this event first.
fn add_statement(code: &mut Code, event: Event, statement: &Stmt) -> Result<Waiting, AllocError>
    ensures adds { IfOk result (λ w. Adds code.old code.new (w.body ∷ []) (statement.now ∷ [])) }
    ensures event { IfOk result (λ w. w.event ≡ event) }
{
    let body = code.add(statement)?;
    Ok(Waiting { event, body })
}

/// Adds the body of an `always`.
fn add_always(code: &mut Code, body: &Stmt) -> Result<Waiting, AllocError>
    ensures adds { IfOk result (λ w. Adds code.old code.new (w.body ∷ []) ((always_layer body.now (out-Stmt body.now)).body ∷ [])) }
    ensures event { IfOk result (λ w. w.event ≡ (always_layer body.now (out-Stmt body.now)).event) }
{
    if let Stmt::EventControl(_, control, inner) = body {
        return add_statement(code, event_of(control), inner.get());
    }
    add_statement(code, Event::Start, body)
}

/// Adds a process, if it is of this kind.
fn list_process(
    code: &mut Code,
    kind: ProcessKind,
    process: &Process,
    list: &mut Vec<Waiting>,
) -> Result<(), AllocError>
    ensures { IfOk result (λ _. AddsWaiting code.old code.new list.old.items list.new.items (of_kind kind process.now.kind process.now.body)) }
{
    match (kind, process.kind) {
        (ProcessKind::Initial, ProcessKind::Initial) => {
            let waiting = add_statement(code, Event::Start, process.body.get())?;
            list.push(waiting)?;
            Ok(())
        }
        (ProcessKind::Always, ProcessKind::Always) => {
            let waiting = add_always(code, process.body.get())?;
            list.push(waiting)?;
            Ok(())
        }
        (ProcessKind::Initial, ProcessKind::Always) => Ok(()),
        (ProcessKind::Always, ProcessKind::Initial) => Ok(()),
    }
}

/// Adds the process that an item is, if it is one of the kind.
fn list_item(
    code: &mut Code,
    kind: ProcessKind,
    item: &BenchItem<'_>,
    list: &mut Vec<Waiting>,
) -> Result<(), AllocError>
    ensures { IfOk result (λ _. AddsWaiting code.old code.new list.old.items list.new.items (item_processes kind item.now)) }
{
    if let BenchItem::Runs(process) = item {
        return list_process(code, kind, process.get(), list);
    }
    Ok(())
}

/// Adds the processes of a kind, in the order of the source.
pub(crate) fn list_processes(
    alloc: Global,
    code: &mut Code,
    kind: ProcessKind,
    items: &[BenchItem<'_>],
) -> Result<Vec<Waiting>, AllocError>
    ensures { IfOk result (λ list. AddsWaiting code.old code.new [] list.items (processes kind items.now)) }
{
    let mut list = Vec::new(alloc);
    for item in items {
        list_item(code, kind, item, &mut list)?;
    }
    Ok(list)
}
