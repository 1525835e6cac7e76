//! What the end of elaboration takes besides what was built: lists of the numbers of signals, the name of the clock, and left sides.
ghost use Rattle.std.specs.Prelude.{◌≡◌, IfOk, option_map, option_to_list};
ghost use Rattle.flat_items.specs.Views.{flat_of};
ghost use Rattle.flat_laws.specs.Sound.{IsSound};
ghost use Rattle.elab_items.specs.Answers.{name_of};
ghost use Rattle.elab_items.specs.Designs.{is_clock, without};
ghost use Rattle.elab_writers.specs.Numbers.{declared_number, declared_numbers};
ghost use Rattle.elab_hier.specs.Parts.{AreLists};

use crate::flags::test_once;
use elab_finish::Left;
use elab_lefts::lefts_of;
use flat_instances::FlatItem;
use flat_items::Flat;
use flat_scopes::Signal;
use mcy_base::Text;
use std::alloc::{AllocError, Global};

/// The inputs without the clock, the declared signals in order, the name of the clock, and the left sides.
#[derive(Drop)]
pub(crate) struct Lists {
    pub(crate) inputs: Vec<u32>,
    pub(crate) declared: Vec<u32>,
    pub(crate) clock: Option<Text>,
    pub(crate) lefts: Vec<Left>,
}

/// Whether the signal is the clock.
fn is_clock(clock: Option<u32>, number: u32) -> bool
    ensures { result ≡ is_clock clock number }
{
    match clock {
        Some(clock) => clock == number,
        None => false,
    }
}

/// The numbers without that of the clock.
fn without(alloc: Global, clock: Option<u32>, numbers: &[u32]) -> Result<Vec<u32>, AllocError>
    ensures { IfOk result (λ v. v.items ≡ without clock numbers.now) }
{
    let mut left = Vec::new(alloc);
    for number in numbers {
        if !is_clock(clock, *number) {
            left.push(*number)?;
        }
    }
    Ok(left)
}

/// The number that an item declares.
fn declared_number(item: &FlatItem<'_>) -> Option<u32>
    ensures { option_to_list result ≡ declared_number item.now }
{
    match item {
        FlatItem::Declares(number) => Some(*number),
        _ => None,
    }
}

/// The numbers of all signals in the order in which items declare them.
fn declared_numbers(alloc: Global, items: &[FlatItem<'_>]) -> Result<Vec<u32>, AllocError>
    ensures { IfOk result (λ v. v.items ≡ declared_numbers items.now) }
{
    let mut numbers = Vec::new(alloc);
    for item in items {
        if let Some(number) = declared_number(item) {
            numbers.push(number)?;
        }
    }
    Ok(numbers)
}

/// The name of a signal after flattening.
fn name_of(alloc: Global, signals: &[Signal], number: u32) -> Result<Text, AllocError>
    ensures { IfOk result (λ name. name ≡ name_of signals.now number) }
{
    match signals.get(number as usize) {
        Some(signal) => Text::copy(alloc, signal.name.as_str()),
        None => Text::copy(alloc, ""),
    }
}

/// The name of the clock, if there is one.
fn clock_name(
    alloc: Global,
    signals: &[Signal],
    clock: Option<u32>,
) -> Result<Option<Text>, AllocError>
    ensures { IfOk result (λ name. name ≡ option_map (name_of signals.now) clock) }
{
    match clock {
        Some(number) => Ok(Some(name_of(alloc, signals, number)?)),
        None => Ok(None),
    }
}

/// The lists of a design whose top has these inputs, and which has this clock.
pub(crate) fn lists_of(
    alloc: Global,
    flat: &Flat<'_>,
    inputs: &[u32],
    clock: Option<u32>,
) -> Result<Lists, AllocError>
    requires { IsSound (flat_of flat.now) }
    ensures { IfOk result (AreLists (flat_of flat.now) inputs.now clock) }
{
    let inputs = without(alloc, clock, inputs)?;
    test_once(alloc, flat.signals().len(), inputs.as_slice())?;
    let declared = declared_numbers(alloc, flat.items())?;
    let clock = clock_name(alloc, flat.signals(), clock)?;
    let lefts = lefts_of(alloc, flat)?;
    Ok(Lists {
        inputs,
        declared,
        clock,
        lefts,
    })
}
