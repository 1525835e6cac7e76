//! What one item is refused for, behind others.
ghost use Rattle.std.specs.Prelude.{◌≡◌, ◌&&◌, not, ◌++◌, ◌∷◌, [], List, IfOk, option_copied};
ghost use Rattle.tb_checks.specs.Processes.{process_faults};
ghost use Rattle.vlog_meaning.specs.Scopes.{names_of};
ghost use Rattle.elab_proc.specs.Refusals.{AreSized};
ghost use Rattle.tb_faults.specs.Order.{IsFirst};
ghost use Rattle.tb_items.specs.declared.item.BenchItem.{BenchItem as Item};
ghost use Rattle.tb_items.specs.Assignments.{assignment_of};
ghost use Rattle.tb_refusals.specs.Refusals.{second, net_faults, own_item_faults, item_faults};
ghost use Rattle.tb_refusals.specs.Views.{context_of, HasSeen};

use crate::context::Context;
use crate::generator::generator_fault;
use crate::seen::Seen;
use crate::start::declared_fault;
use std::alloc::{AllocError, Global};
use tb_checks::{assign_fault, form_fault, process_fault};
use tb_faults::{BenchFault, earlier, wrong};
use tb_items::{BenchItem, assignment_of};
use vlog_syntax::{Feature, Process};

/// What is refused as a second one.
fn second(is_second: bool, fault: BenchFault) -> Option<BenchFault>
    ensures { IsFirst (second is_second fault) result }
{
    if is_second { Some(fault) } else { None }
}

/// What the assignment of a net is refused for.
fn net_fault(
    alloc: Global,
    context: Context<'_>,
    item: &BenchItem<'_>,
) -> Result<Option<BenchFault>, AllocError>
    ensures { IfOk result (λ f. IsFirst (net_faults (context_of context.entry) (assignment_of item.now)) f) }
{
    match assignment_of(alloc, item)? {
        Some(assignment) => assign_fault(
            alloc,
            &assignment.left,
            assignment.value.get(),
            context.scope,
        ),
        None => Ok(None),
    }
}

/// Whether an `initial` may set the clock.
fn may_start(is_free: bool, has_start: bool) -> bool
    ensures { result ≡ (is_free && not has_start) }
{
    is_free && !has_start
}

/// What a process is refused for, behind one that sets the clock or not.
fn run_fault(
    alloc: Global,
    context: Context<'_>,
    has_start: bool,
    process: &Process,
) -> Result<Option<BenchFault>, AllocError>
    ensures { IfOk result (λ f. IsFirst (process_faults (names_of context.entry.scope.now) (option_copied context.entry.clock) (context.entry.is_free && not has_start) process.now) f) }
{
    let may_start = may_start(context.is_free, has_start);
    process_fault(alloc, context.scope, context.clock, may_start, process)
}

/// What an item is refused for by itself and by the kinds of items before it.
fn own_fault(
    alloc: Global,
    context: Context<'_>,
    seen: &Seen,
    item: &BenchItem<'_>,
) -> Result<Option<BenchFault>, AllocError>
    requires { AreSized (names_of context.scope.now) }
    ensures { (before : List Item) → HasSeen (context_of context.entry) before seen.now → IfOk result (λ f. IsFirst (own_item_faults (context_of context.entry) before item.now) f) }
{
    match item {
        BenchItem::Refused(fault) => Ok(Some(*fault)),
        BenchItem::Starts(number, value) => Ok(declared_fault(context, *number, value.get())),
        BenchItem::Clocks(at, generator) => {
            let again = second(seen.has_generator, BenchFault::TwoClocks(*at));
            Ok(earlier(again, generator_fault(context, generator)))
        }
        BenchItem::Runs(process) => { run_fault(alloc, context, seen.has_start, process.get()) }
        BenchItem::Holds(at) => {
            let fault = BenchFault::Unsupported(*at, Feature::Helper);
            Ok(second(seen.has_design, fault))
        }
        BenchItem::Reads(value) => Ok(wrong(form_fault(value.get(), context.scope))),
        BenchItem::Drives(..) => net_fault(alloc, context, item),
        BenchItem::Assigns(_) => net_fault(alloc, context, item),
        BenchItem::Enters(..) => net_fault(alloc, context, item),
        BenchItem::Leaves(..) => net_fault(alloc, context, item),
    }
}

/// What an item is refused for behind others, and notes it.
pub(crate) fn item_fault(
    alloc: Global,
    context: Context<'_>,
    seen: &mut Seen,
    item: &BenchItem<'_>,
) -> Result<Option<BenchFault>, AllocError>
    requires { AreSized (names_of context.scope.now) }
    ensures fault { (before : List Item) → HasSeen (context_of context.entry) before seen.old → IfOk result (λ f. IsFirst (item_faults (context_of context.entry) before item.now) f) }
    ensures seen { (before : List Item) → HasSeen (context_of context.entry) before seen.old → IfOk result (λ f. HasSeen (context_of context.entry) (before ++ item.now ∷ []) seen.new) }
{
    let own = own_fault(alloc, context, seen, item)?;
    let written = seen.writers.write(item, context.scope)?;
    seen.note(alloc, context, item);
    Ok(earlier(own, written))
}
