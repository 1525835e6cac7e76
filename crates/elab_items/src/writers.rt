//! Which signals have a writer already.
ghost use Rattle.std.specs.Prelude.{◌≡◌, ◌↔◌, ◌<◌, false, IsTrue, IfOk, length, slice_index_or};
ghost use Rattle.net_builder.specs.Building.{signal};
ghost use Rattle.elab_items.specs.Writers.{HasWriter, IsBitWritten, SomeBitWritten, TellsWriters};

use net_builder::Builder;
use netlist_core::Bit;
use std::alloc::AllocError;

/// Whether a bit is a net that is written.
fn is_bit_written(builder: &Builder, bit: Bit) -> bool
    ensures { IsTrue result ↔ IsBitWritten builder.now bit }
{
    match bit {
        Bit::Net(net) => builder.is_written(net),
        Bit::Fixed(_) => false,
    }
}

/// Whether one of the bits is written.
fn some_bit_written(builder: &Builder, bits: &[Bit]) -> bool
    ensures { IsTrue result ↔ SomeBitWritten builder.now bits.now }
{
    for bit in bits {
        if is_bit_written(builder, *bit) {
            return true;
        }
    }
    false
}

/// Whether the signal is an input of the top.
fn is_input(inputs: &[bool], number: u32) -> bool
    ensures { IsTrue result ↔ IsTrue (slice_index_or inputs.now number false) }
{
    match inputs.get(number as usize) {
        Some(is_input) => *is_input,
        None => false,
    }
}

/// Whether the signal has a writer.
pub(crate) fn has_writer(builder: &Builder, inputs: &[bool], number: u32) -> bool
    requires { number < length builder.now.signals }
    ensures { IsTrue result ↔ HasWriter builder.now inputs.now number }
{
    if is_input(inputs, number) {
        return true;
    }
    some_bit_written(builder, builder.bits(number))
}

/// Tells of each signal whether it has a writer.
pub(crate) fn writers(builder: &Builder, inputs: &[bool]) -> Result<Vec<bool>, AllocError>
    ensures count { IfOk result (λ written. length written.items ≡ length builder.now.signals) }
    ensures tells { IfOk result (λ written. TellsWriters builder.now inputs.now written.items) }
{
    let mut written = Vec::new(builder.alloc());
    for number in 0..builder.signal_count() {
        written.push(has_writer(builder, inputs, number))?;
    }
    Ok(written)
}
