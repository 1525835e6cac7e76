//! What is built of assignments.
ghost use Rattle.std.specs.Prelude.{◌<◌, OnOk, length};
ghost use Rattle.elab_cases.specs.Benches.{IsSound};

use crate::bench::Bench;
use crate::told::{cause_name, put_bit, put_fault, put_signal_fault};
use anyhow::{Context, Result, bail};
use case_lines::Page;
use flat_assigns::{AssignError, Refusal, build_assign};
use net_builder::Builder;
use netlist_core::Bit;
use vlog_meaning::Decl;
use vlog_syntax::{Assignment, PlainItem};

/// The assignment that stands first in an item.
fn assignment_in(item: &PlainItem) -> Option<&Assignment> {
    match item {
        PlainItem::ContinuousAssign(_, _, list) => list.as_slice().first(),
        _ => None,
    }
}

/// Puts a refusal and its column.
fn put_refusal(page: &mut Page, refusal: Refusal) {
    match refusal {
        Refusal::Wrong(fault) => put_fault(page, cause_name(fault.cause), fault.span),
        Refusal::TwoWriters(span, number) => put_signal_fault(page, "TwoWriters", span, number),
    }
}

/// Puts how many cells there are more than before.
fn put_cells(page: &mut Page, builder: &Builder, before: usize) {
    page.put_number(builder.cells().len().saturating_sub(before) as u128);
    page.put_line(" cells");
}

/// Builds an assignment, and puts what is built.
fn build(page: &mut Page, bench: &mut Bench, assignment: &Assignment) -> Result<()>
    requires { IsSound bench.old }
    ensures { OnOk result (IsSound bench.new) }
{
    let before = bench.builder.cells().len();
    let right = assignment.value.get();
    match build_assign(
        &mut bench.builder,
        &bench.marks,
        &assignment.left,
        &bench.scope,
        right,
        &bench.scope,
    ) {
        Ok(()) => {
            put_cells(page, &bench.builder, before);
            Ok(())
        }
        Err(AssignError::Refused(refusal)) => {
            put_refusal(page, refusal);
            Ok(())
        }
        Err(AssignError::TooMany(_)) => bail!("too many cells"),
        Err(AssignError::Memory) => bail!("no memory"),
    }
}

/// Builds the assignment that an item is, and puts what is built.
pub(crate) fn put_assign(page: &mut Page, bench: &mut Bench, item: &PlainItem) -> Result<()>
    requires { IsSound bench.old }
    ensures { OnOk result (IsSound bench.new) }
{
    let assignment = assignment_in(item).context("no assignment")?;
    build(page, bench, assignment)
}

/// Puts to what a bit of a signal is joined.
fn put_bit_joined(page: &mut Page, builder: &Builder, bit: Bit) {
    page.put(" ");
    match bit {
        Bit::Net(net) => match builder.joined(net) {
            Some(bit) => put_bit(page, bit),
            None => page.put("free"),
        },
        Bit::Fixed(_) => put_bit(page, bit),
    }
}

/// Puts to what the bits of a signal are joined.
fn put_bits(page: &mut Page, builder: &Builder, number: u32)
    requires { number < length builder.now.signals }
{
    for bit in builder.bits(number) {
        put_bit_joined(page, builder, *bit);
    }
    page.put("\n");
}

/// Puts to what the bits of a name are joined.
pub(crate) fn put_joined(page: &mut Page, bench: &Bench, name: &str) -> Result<()>
    requires { IsSound bench.now }
{
    match bench.scope.get(name) {
        Some(Decl::Signal { number, .. }) => {
            page.put(name);
            page.put(":");
            put_bits(page, &bench.builder, number);
            Ok(())
        }
        Some(Decl::Constant { .. }) | None => bail!("no signal"),
    }
}
