//! What is printed of the clock of a design: its name, and what is refused in items for their use of it.
use case_lines::Page;
use elab_proc::Refusal;
use flat_clocks::Clocks;
use flat_instances::FlatItem;
use flat_items::Flat;
use flat_scopes::Signal;
use mcy_base::Span;
use std::alloc::{AllocError, Global};
use vlog_syntax::{Direction, Feature};

/// Whether a signal is an input of the top: the name of one of an instance has a dot.
fn is_input(signal: &Signal) -> bool {
    match signal.direction {
        Some(Direction::Input) => !signal.name.as_str().contains('.'),
        Some(Direction::Output) | None => false,
    }
}

/// Which signals are inputs of the top.
fn inputs_of(alloc: Global, flat: &Flat<'_>) -> Result<Vec<bool>, AllocError> {
    let mut inputs = Vec::new(alloc);
    for signal in flat.signals() {
        inputs.push(is_input(signal))?;
    }
    Ok(inputs)
}

fn put_clock(page: &mut Page, flat: &Flat<'_>, clock: Option<u32>) {
    let name = match clock {
        Some(number) => match flat.signals().get(number as usize) {
            Some(signal) => signal.name.as_str(),
            None => "no signal",
        },
        None => "none",
    };
    page.put("clock ");
    page.put(name);
    page.put("\n");
}

fn put_at(page: &mut Page, word: &str, place: Span) {
    page.put_at(word, place);
    page.put("\n");
}

fn put_refusal(page: &mut Page, refusal: Refusal) {
    match refusal {
        Refusal::Unsupported(place, Feature::GatedClock) => put_at(page, "GatedClock", place),
        Refusal::Unsupported(place, Feature::ClockAsData) => put_at(page, "ClockAsData", place),
        _ => page.put("another refusal\n"),
    }
}

/// What is refused first in an item.
fn put_item(
    alloc: Global,
    page: &mut Page,
    clocks: &Clocks,
    flat: &Flat<'_>,
    item: &FlatItem<'_>,
) -> Result<(), AllocError> {
    if let Some(refusal) = clocks.clock_refusal(alloc, flat, item)? {
        put_refusal(page, refusal);
    }
    Ok(())
}

/// The clock, and what is refused first in each item.
pub(crate) fn put_clocks(
    alloc: Global,
    page: &mut Page,
    flat: &Flat<'_>,
) -> Result<(), AllocError> {
    let inputs = inputs_of(alloc, flat)?;
    let clocks = Clocks::of(alloc, flat, inputs.as_slice())?;
    put_clock(page, flat, clocks.clock());
    for item in flat.items() {
        put_item(alloc, page, &clocks, flat, item)?;
    }
    Ok(())
}
