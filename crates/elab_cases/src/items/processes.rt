//! Why processes are refused.
ghost use Rattle.std.specs.Prelude.{OnOk};
ghost use Rattle.elab_cases.specs.Benches.{IsSound};

use crate::bench::Bench;
use crate::told::{cause_name, put_fault, put_signal_fault};
use anyhow::{Result, bail};
use case_lines::Page;
use elab_proc::Refusal;
use process_latches::process_refusal;
use std::alloc::Global;
use vlog_syntax::{Feature, PlainItem};

/// The name of what is not supported in a process.
fn feature_name(feature: Feature) -> &'static str {
    match feature {
        Feature::ClockList => "ClockList",
        Feature::FallingClock => "FallingClock",
        Feature::MixedAssign => "MixedAssign",
        Feature::NonblockingInComb => "NonblockingInComb",
        Feature::Delay => "Delay",
        Feature::SystemTask => "SystemTask",
        Feature::InitialForm => "InitialForm",
        _ => "another feature",
    }
}

/// Puts a refusal and its column.
fn put_refusal(page: &mut Page, refusal: Refusal) {
    match refusal {
        Refusal::Wrong(fault) => put_fault(page, cause_name(fault.cause), fault.span),
        Refusal::Unsupported(span, feature) => put_fault(page, feature_name(feature), span),
        Refusal::TwoWriters(span, number) => put_signal_fault(page, "TwoWriters", span, number),
        Refusal::Latch(span, number) => put_signal_fault(page, "Latch", span, number),
        Refusal::LoopTurns(span) => put_fault(page, "LoopTurns", span),
    }
}

/// Puts what is refused first in the process that an item is.
pub(crate) fn put_process(
    alloc: Global,
    page: &mut Page,
    bench: &mut Bench,
    item: &PlainItem,
) -> Result<()>
    requires { IsSound bench.old }
    ensures { OnOk result (IsSound bench.new) }
{
    let PlainItem::Process(process) = item else {
        bail!("no process");
    };
    let refusal = process_refusal(alloc, process, &mut bench.scope, bench.marks.as_slice())?;
    match refusal {
        Some(refusal) => put_refusal(page, refusal),
        None => page.put_line("accepted"),
    }
    Ok(())
}
