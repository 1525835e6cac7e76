//! What is wrong in assigns and processes of testbenches.
ghost use Rattle.std.specs.Prelude.{OnOk};
ghost use Rattle.elab_cases.specs.Benches.{IsSound};

use crate::bench::Bench;
use crate::told::{cause_name, put_fault};
use anyhow::{Result, bail};
use case_lines::Page;
use std::alloc::{AllocError, Global};
use tb_checks::{assign_fault, process_fault, starts_clock};
use tb_faults::BenchFault;
use vlog_meaning::{Cause, Scope};
use vlog_syntax::{Assignment, Feature, PlainItem, Process};

/// The name of what is not supported in a process.
fn feature_name(feature: Feature) -> &'static str {
    match feature {
        Feature::ClockList => "ClockList",
        Feature::Delay => "Delay",
        Feature::SystemTask => "SystemTask",
        Feature::ClockStart => "ClockStart",
        Feature::Helper => "Helper",
        Feature::FormatText => "FormatText",
        _ => "another feature",
    }
}

/// The name of a cause in a testbench.
fn bench_cause(cause: Cause) -> &'static str {
    match cause {
        Cause::Drawn => "NotConstant",
        _ => cause_name(cause),
    }
}

/// Puts what is wrong first and its column, if anything is.
fn put_first(page: &mut Page, fault: Option<BenchFault>) {
    match fault {
        None => page.put_line("nothing"),
        Some(BenchFault::Wrong(fault)) => put_fault(page, bench_cause(fault.cause), fault.span),
        Some(BenchFault::Unsupported(span, feature)) => {
            put_fault(page, feature_name(feature), span)
        }
        Some(BenchFault::Twice(span)) => put_fault(page, "Twice", span),
        Some(BenchFault::PortMismatch(span)) => put_fault(page, "PortMismatch", span),
        Some(BenchFault::TwoClocks(span)) => put_fault(page, "TwoClocks", span),
    }
}

/// What is wrong first in a process. Where it sets the clock before its first wait, a later one may not.
fn fault_of(
    alloc: Global,
    bench: &mut Bench,
    process: &Process,
) -> Result<Option<BenchFault>, AllocError>
    requires { IsSound bench.old }
    ensures { OnOk result (IsSound bench.new) }
{
    let clock = match &bench.clock {
        Some(name) => Some(name.as_str()),
        None => None,
    };
    let fault = process_fault(alloc, &bench.scope, clock, bench.may_start, process)?;
    bench.may_start &= !starts_clock(alloc, &bench.scope, clock, process);
    Ok(fault)
}

/// What is wrong first in an assign.
fn fault_in(
    alloc: Global,
    scope: &Scope,
    assignments: &[Assignment],
) -> Result<Option<BenchFault>> {
    match assignments {
        [assignment] => {
            let right = assignment.value.get();
            Ok(assign_fault(alloc, &assignment.left, right, scope)?)
        }
        _ => bail!("no assign"),
    }
}

/// Puts what is wrong first in an item.
pub(crate) fn put_check(
    alloc: Global,
    page: &mut Page,
    bench: &mut Bench,
    item: &PlainItem,
) -> Result<()>
    requires { IsSound bench.old }
    ensures { OnOk result (IsSound bench.new) }
{
    match item {
        PlainItem::Process(process) => {
            put_first(page, fault_of(alloc, bench, process)?);
            Ok(())
        }
        PlainItem::ContinuousAssign(_, None, list) => {
            put_first(page, fault_in(alloc, &bench.scope, list.as_slice())?);
            Ok(())
        }
        _ => bail!("no process"),
    }
}
