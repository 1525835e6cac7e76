//! The items of a testbench, from the steps that its module lists.
ghost use Rattle.std.specs.Prelude.{◌≡◌, ◌++◌, map, IfOk};
ghost use Rattle.std.specs.List.{flat_map};
ghost use Rattle.vlog_syntax.specs.declared.item.Item.{out-Item};
ghost use Rattle.vlog_meaning.specs.Scopes.{names_of};
ghost use Rattle.tb_items.specs.declared.item.BenchItem.TheVariants as b;
ghost use Rattle.tb_items.specs.Generators.{generator_of};
ghost use Rattle.tb_items.specs.Items.{generates, delay_items, process_item, listed, step_items, items_of};

use crate::design::Design;
use crate::generator::{Generator, generator_of};
use crate::instance::add_instance;
use crate::item::BenchItem;
use crate::reason::{of_const, of_refusal};
use flat_scopes::{Lent, Step};
use mcy_base::Text;
use std::alloc::{AllocError, Global};
use tb_faults::BenchFault;
use vlog_meaning::Scope;
use vlog_syntax::{Assignment, Delay, Feature, Item, PlainItem, Process};

/// Adds the refusal of a generate construct.
fn add_generate(item: &Item, items: &mut Vec<BenchItem<'_>>) -> Result<(), AllocError>
    ensures { IfOk result (λ done. items.new.items ≡ items.old.items ++ generates (out-Item item.now)) }
{
    match item {
        Item::LoopGenerate(header, _) => {
            let fault = BenchFault::Unsupported(header.span, Feature::Helper);
            items.push(BenchItem::Refused(fault))?;
        }
        Item::IfGenerate(span, ..) => {
            let fault = BenchFault::Unsupported(*span, Feature::Helper);
            items.push(BenchItem::Refused(fault))?;
        }
        _ => {}
    }
    Ok(())
}

/// Adds the refusal of a delay.
fn add_delay(delay: &Option<Delay>, items: &mut Vec<BenchItem<'_>>) -> Result<(), AllocError>
    ensures { IfOk result (λ done. items.new.items ≡ items.old.items ++ delay_items delay.now) }
{
    if let Some(delay) = delay {
        let fault = BenchFault::Unsupported(delay.span, Feature::Delay);
        items.push(BenchItem::Refused(fault))?;
    }
    Ok(())
}

/// Adds assignments.
fn add_assignments<'a>(
    assignments: &'a [Assignment],
    items: &mut Vec<BenchItem<'a>>,
) -> Result<(), AllocError>
    ensures { IfOk result (λ done. items.new.items ≡ items.old.items ++ map b.Assigns assignments.now) }
{
    for assignment in assignments {
        items.push(BenchItem::Assigns(Lent::of(assignment)))?;
    }
    Ok(())
}

/// A process, which is a clock generator by its form or not.
fn process_item<'a>(process: &'a Process, generator: Option<Generator<'a>>) -> BenchItem<'a>
    ensures { result ≡ process_item process.now generator.entry }
{
    match generator {
        Some(generator) => BenchItem::Clocks(process.span, generator),
        None => BenchItem::Runs(Lent::of(process)),
    }
}

/// Adds what an assign or a process is.
fn add_listed<'a>(
    scope: &Scope,
    item: &'a PlainItem,
    items: &mut Vec<BenchItem<'a>>,
) -> Result<(), AllocError>
    ensures { IfOk result (λ done. items.new.items ≡ items.old.items ++ listed (names_of scope.now) item.now) }
{
    match item {
        PlainItem::ContinuousAssign(_, delay, assignments) => {
            add_delay(delay, items)?;
            add_assignments(assignments.as_slice(), items)
        }
        PlainItem::Process(process) => {
            items.push(process_item(process, generator_of(scope, process)))?;
            Ok(())
        }
        _ => Ok(()),
    }
}

/// Adds what a step is.
fn add_step<'a>(
    alloc: Global,
    scope: &Scope,
    design: &Design<'a>,
    clock: &Option<Text>,
    step: &Step<'a>,
    items: &mut Vec<BenchItem<'a>>,
) -> Result<(), AllocError>
    ensures { IfOk result (λ done. items.new.items ≡ items.old.items ++ step_items (names_of scope.now) design.now clock.now step.now) }
{
    match step {
        Step::Declares(_) => {}
        Step::Refuses(refusal) => items.push(BenchItem::Refused(of_refusal(*refusal)))?,
        Step::RefusesGiven(error) => items.push(BenchItem::Refused(of_const(*error)))?,
        Step::Starts(number, value) => {
            items.push(BenchItem::Starts(*number, Lent::of(value.get())))?;
        }
        Step::Drives(name, value) => {
            items.push(BenchItem::Drives(Lent::of(name.get()), Lent::of(value.get())))?;
        }
        Step::Lists(item) => add_listed(scope, item.get().get(), items)?,
        Step::Places(placing) => add_instance(alloc, design, clock, placing, items)?,
        Step::Generates(_, item, _) => add_generate(item.get().get(), items)?,
    }
    Ok(())
}

/// The items of a testbench whose module lists these steps, with the names of its scope, the design, and the name of the clock that
/// it generates.
pub fn items_of<'a>(
    alloc: Global,
    scope: &Scope,
    design: &Design<'a>,
    clock: &Option<Text>,
    steps: &[Step<'a>],
) -> Result<Vec<BenchItem<'a>>, AllocError>
    ensures { IfOk result (λ items. items.items ≡ items_of (names_of scope.now) design.now clock.now steps.now) }
{
    let mut items = Vec::new(alloc);
    for step in steps {
        add_step(alloc, scope, design, clock, step, &mut items)?;
    }
    Ok(items)
}
