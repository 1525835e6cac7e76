//! The first bit of a left side that has a writer already.
//!
//! `seen` has the nets of the bits that the same left side writes before. Each signal has nets of its own, so a bit is
//! written twice just where its net is met twice.
ghost use Rattle.std.specs.Prelude.{◌≡◌, ◌<◌, [], ◌∷◌, Option, false, length, IfOk, List, slice_index_or};
ghost use Rattle.net_builder.specs.Building.{signal};
ghost use Rattle.flat_runs.specs.Adding.{HasOwnNets};
ghost use Rattle.flat_runs.specs.Meanings.{Place};
ghost use Rattle.flat_assigns.specs.Parts.{AllInside, IsInside, IsWriter, bit_in, first_bits, slices_of};
ghost use Rattle.flat_assigns.specs.Seen.{HasSeen, IsMet, IsTaken, IsPassed};
ghost use Rattle.flat_assigns.specs.Writers.{Target, IsFirstWritten, targets};

use crate::refusal::Writer;
use crate::slice::Slice;
use net_builder::Builder;
use netlist_core::Bit;
use std::alloc::AllocError;
use std::collections::BTreeSet;

/// Whether the signal of this number is an input of the top.
fn is_input(inputs: &[bool], number: u32) -> bool
    ensures { result ≡ slice_index_or inputs.now number false }
{
    match inputs.get(number as usize) {
        Some(is_input) => *is_input,
        None => false,
    }
}

/// Whether a net has a writer or was met; else it is met now.
fn is_met(builder: &Builder, net: u32, seen: &mut BTreeSet<u32>) -> Result<bool, AllocError>
    ensures { IfOk result (λ met. IsMet builder.now net seen.old seen.new met) }
{
    if builder.is_written(net) {
        Ok(true)
    } else {
        Ok(!seen.insert(net)?)
    }
}

/// Whether a bit has a writer; else it is written now.
fn is_taken(
    builder: &Builder,
    inputs: &[bool],
    number: u32,
    bit: u8,
    seen: &mut BTreeSet<u32>,
) -> Result<bool, AllocError>
    requires own { HasOwnNets builder.now }
    requires number { number < length builder.now.signals }
    requires bit { bit < length (signal builder.now number) }
    ensures { (before : List Place) → HasSeen builder.now seen.old before → IfOk result (λ taken. IsTaken builder.now inputs.now before (record { signal = number; bit = bit }) seen.new taken) }
{
    if is_input(inputs, number) {
        return Ok(true);
    }
    match builder.bits(number)[bit as usize] {
        Bit::Net(net) => Ok(is_met(builder, net, seen)?),
        Bit::Fixed(_) => Ok(true),
    }
}

/// Whether bit k of a part has a writer; else it is written now.
fn bit_is_taken(
    builder: &Builder,
    inputs: &[bool],
    slice: &Slice,
    k: u8,
    seen: &mut BTreeSet<u32>,
) -> Result<bool, AllocError>
    requires own { HasOwnNets builder.now }
    requires inside { IsInside builder.now slice.now }
    ensures { (before : List Place) → HasSeen builder.now seen.old before → IfOk result (λ taken. IsPassed builder.now inputs.now before slice.now.span slice.now.signal (bit_in slice.now k ∷ []) seen.new taken) }
{
    match slice.bit(k) {
        Some(bit) => Ok(is_taken(builder, inputs, slice.signal, bit, seen)?),
        None => Ok(false),
    }
}

/// Whether a part has a bit with a writer; else its bits are written now.
fn part_is_taken(
    builder: &Builder,
    inputs: &[bool],
    slice: &Slice,
    seen: &mut BTreeSet<u32>,
) -> Result<bool, AllocError>
    requires own { HasOwnNets builder.now }
    requires inside { IsInside builder.now slice.now }
    ensures { (before : List Place) → HasSeen builder.now seen.old before → IfOk result (λ taken. IsPassed builder.now inputs.now before slice.now.span slice.now.signal (first_bits slice.now slice.now.size) seen.new taken) }
{
    for k in 0..slice.size {
        if bit_is_taken(builder, inputs, slice, k, seen)? {
            return Ok(true);
        }
    }
    Ok(false)
}

/// The first part with a bit that has a writer.
pub(crate) fn second_writer(
    builder: &Builder,
    inputs: &[bool],
    slices: &[Slice],
) -> Result<Option<Writer>, AllocError>
    requires own { HasOwnNets builder.now }
    requires inside { AllInside builder.now slices.now }
    ensures { IfOk result (λ writer. (second : Option Target) × IsFirstWritten builder.now inputs.now [] (targets (slices_of slices.now)) second × IsWriter second writer) }
{
    let mut seen = BTreeSet::new(builder.alloc());
    for slice in slices {
        if part_is_taken(builder, inputs, slice, &mut seen)? {
            return Ok(Some(Writer {
                span: slice.span,
                signal: slice.signal,
            }));
        }
    }
    Ok(None)
}
