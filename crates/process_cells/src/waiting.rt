//! The own bits of variables wait before the statements of a clocked process.
ghost use Rattle.std.specs.Prelude.{◌≡◌, ◌<◌, [], length, replicate, slice_set, IfOk, OnOk};
ghost use Rattle.net_builder.specs.Building.{signal};
ghost use Rattle.process_cells.specs.Processes.{AllKnown, all_waiting};
ghost use Rattle.process_cells.specs.Ready.{HasPlaces};

use net_builder::{Builder, copied_bits};
use netlist_core::BitList;
use proc_muxes::Variables;
use std::alloc::{AllocError, Global};

/// A place for bits that wait for each signal of the builder. No bits wait yet.
pub fn nothing_waits(builder: &Builder) -> Result<Variables, AllocError>
    ensures { IfOk result (λ waiting. HasPlaces builder.now waiting) }
{
    let places = empty_places(builder.alloc(), builder.signal_count() as usize)?;
    Ok(Variables::new(places))
}

/// So many places in which no bits wait.
fn empty_places(alloc: Global, count: usize) -> Result<Vec<BitList>, AllocError>
    ensures { IfOk result (λ places. places.items ≡ replicate count []) }
{
    let mut places = Vec::new(alloc);
    while places.len() < count {
        places.push(BitList::from_vec(Vec::new(alloc)))?;
    }
    Ok(places)
}

/// The own bits of a variable wait.
fn set_waiting(builder: &Builder, waiting: &mut Variables, number: u32) -> Result<(), AllocError>
    requires known { number < length builder.now.signals }
    requires place { number < length waiting.old }
    ensures { OnOk result (waiting.new ≡ slice_set waiting.old number (signal builder.now number)) }
{
    let bits = copied_bits(builder.alloc(), builder.bits(number))?;
    waiting.set(number, bits);
    Ok(())
}

/// The own bits of variables wait.
pub(crate) fn all_waiting(
    builder: &Builder,
    waiting: &mut Variables,
    numbers: &[u32],
) -> Result<(), AllocError>
    requires known { AllKnown (length builder.now.signals) numbers.now }
    requires places { length waiting.old ≡ length builder.now.signals }
    ensures { OnOk result (waiting.new ≡ all_waiting builder.now numbers.now waiting.old) }
{
    let mut rest = numbers;
    while let [number, more @ ..] = rest {
        set_waiting(builder, waiting, *number)?;
        rest = more;
    }
    Ok(())
}
