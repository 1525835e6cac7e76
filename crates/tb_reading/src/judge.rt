//! Whether a testbench that was read is refused, and why.
ghost use Rattle.std.specs.Prelude.{◌≡◌, IfOk};
ghost use Rattle.tb_refusals.specs.Refusals.{is_design, is_generator, some_item};
ghost use Rattle.tb_reading.specs.Reasons.{region_fault, answer, IsReason};

use crate::reading::Reading;
use mcy_base::Span;
use std::alloc::{AllocError, Global};
use tb_faults::{BenchError, BenchFault, earlier};
use tb_items::{BenchItem, first_region};
use tb_refusals::{Context, first_fault, is_free};
use vlog_syntax::{Feature, Module};

/// Whether an item is an instance of the design.
fn is_design(item: &BenchItem<'_>) -> bool
    ensures { result ≡ is_design item.now }
{
    matches!(item, BenchItem::Holds(_))
}

/// Whether an item is a clock generator.
fn is_clock(item: &BenchItem<'_>) -> bool
    ensures { result ≡ is_generator item.now }
{
    matches!(item, BenchItem::Clocks(..))
}

/// Whether there is an instance of the design among items.
fn has_design(items: &[BenchItem<'_>]) -> bool
    ensures { result ≡ some_item is_design items.now }
{
    for item in items {
        if is_design(item) {
            return true;
        }
    }
    false
}

/// Whether there is a clock generator among items.
fn has_clock(items: &[BenchItem<'_>]) -> bool
    ensures { result ≡ some_item is_generator items.now }
{
    for item in items {
        if is_clock(item) {
            return true;
        }
    }
    false
}

/// What is wrong with a generate region.
fn region_fault(region: Option<Span>) -> Option<BenchFault>
    ensures { result ≡ region_fault region }
{
    match region {
        Some(span) => Some(BenchFault::Unsupported(span, Feature::Helper)),
        None => None,
    }
}

/// The answer for a fault, or else for what is missing.
fn answer(fault: Option<BenchFault>, has_design: bool, has_clock: bool) -> Option<BenchError>
    ensures { result ≡ answer fault has_design has_clock }
{
    match fault {
        Some(fault) => Some(fault.error()),
        None if !has_design => Some(BenchError::NoDesign),
        None if !has_clock => Some(BenchError::NoClock),
        None => None,
    }
}

/// Why a testbench is refused, if it is; loops of its nets are looked for where it is not.
pub(crate) fn reason(
    alloc: Global,
    module: &Module,
    reading: &Reading<'_>,
) -> Result<Option<BenchError>, AllocError>
    ensures { IfOk result (IsReason module.now reading.now) }
{
    let items = reading.items.as_slice();
    let clock = match &reading.clock {
        Some(clock) => Some(clock.as_str()),
        None => None,
    };
    let context = Context {
        scope: reading.signals.scope(),
        signals: reading.declared.as_slice(),
        clock,
        is_free: is_free(items),
        outputs: reading.outputs.as_slice(),
    };
    let found = first_fault(alloc, context, items)?;
    let region = first_region(module.items.as_slice());
    let fault = earlier(found, region_fault(region));
    Ok(answer(fault, has_design(items), has_clock(items)))
}
