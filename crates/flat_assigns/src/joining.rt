//! The bits of a port or of a left side are joined to bits: parts from the last one on, each from its lowest bit on.
ghost use Rattle.std.specs.Prelude.{◌≡◌, ◌+◌, ◌<◌, ◌≤◌, ℕ, List, [], ◌∷◌, drop, length, OnOk};
ghost use Rattle.netlist_core.specs.declared.bit.Bit.{Bit as Wire};
ghost use Rattle.net_builder.specs.Building.{signal, with_joint};
ghost use Rattle.flat_runs.specs.Adding.{HasOwnNets, IsBit};
ghost use Rattle.flat_runs.specs.Parts.{places_from};
ghost use Rattle.flat_assigns.specs.Built.{IsJoinedTo};
ghost use Rattle.flat_assigns.specs.Parts.{AllInside, IsInside, bit_in, slice_of, slices_of};
ghost use Rattle.flat_assigns.specs.Sides.{all_places, placed, slice_places};

use crate::slice::Slice;
use net_builder::Builder;
use netlist_core::Bit;
use std::alloc::AllocError;

/// Joins a bit of a signal.
fn join_bit(builder: &mut Builder, number: u32, bit: u8, to: Bit) -> Result<(), AllocError>
    requires own { HasOwnNets builder.old }
    requires number { number < length builder.old.signals }
    requires bit { bit < length (signal builder.old number) }
    ensures { OnOk result ((n : ℕ) × IsBit builder.old number bit n × (builder.new ≡ with_joint n to builder.old)) }
{
    match builder.bits(number)[bit as usize] {
        Bit::Net(net) => builder.join(net, to),
        Bit::Fixed(_) => Ok(()),
    }
}

/// Joins all bits of a port, which has so many. Bits above the port are dropped.
pub(crate) fn join_port(
    builder: &mut Builder,
    port: u32,
    width: u8,
    bits: &[Bit],
) -> Result<(), AllocError>
    requires own { HasOwnNets builder.old }
    requires port { port < length builder.old.signals }
    requires width { width ≡ length (signal builder.old port) }
    requires enough { width ≤ length bits.now }
    ensures { OnOk result (IsJoinedTo builder.old builder.new (places_from port 0 width) bits.now) }
{
    for k in 0..width {
        join_bit(builder, port, k, bits[usize::from(k)])?;
    }
    Ok(())
}

/// Joins bit k of a part.
fn join_part_bit(builder: &mut Builder, slice: Slice, k: u8, to: Bit) -> Result<(), AllocError>
    requires own { HasOwnNets builder.old }
    requires inside { IsInside builder.old slice }
    ensures { OnOk result ((more : List Wire) → IsJoinedTo builder.old builder.new (placed slice.signal (bit_in slice k) ∷ []) (to ∷ more)) }
{
    match slice.bit(k) {
        Some(bit) => join_bit(builder, slice.signal, bit, to),
        None => Ok(()),
    }
}

/// Joins the bits of a part to bits from a place on.
fn join_part(builder: &mut Builder, slice: Slice, bits: &[Bit], at: usize) -> Result<(), AllocError>
    requires own { HasOwnNets builder.old }
    requires inside { IsInside builder.old slice }
    requires enough { at + slice.size ≤ length bits.now }
    ensures { OnOk result (IsJoinedTo builder.old builder.new (slice_places (slice_of slice)) (drop at bits.now)) }
{
    for k in 0..slice.size {
        join_part_bit(builder, slice, k, bits[at + usize::from(k)])?;
    }
    Ok(())
}

/// Joins the bits of all parts.
pub(crate) fn join_parts(
    builder: &mut Builder,
    slices: &[Slice],
    bits: &[Bit],
) -> Result<(), AllocError>
    requires own { HasOwnNets builder.old }
    requires inside { AllInside builder.old slices.now }
    requires enough { length (all_places (slices_of slices.now)) ≤ length bits.now }
    ensures { OnOk result (IsJoinedTo builder.old builder.new (all_places (slices_of slices.now)) bits.now) }
{
    let mut at = 0;
    let mut k = slices.len();
    while k > 0 {
        k -= 1;
        join_part(builder, slices[k], bits, at)?;
        at += usize::from(slices[k].size);
    }
    Ok(())
}
