//! Bits are written over those that a variable has: at an index by a `put`, or at places that are known. What is outside
//! the variable is dropped.
ghost use Rattle.std.specs.Prelude.{◌≡◌, ◌+◌, ◌<◌, ◌≤◌, ◌^◌, pos, ◌+ℤ◌, length, IfOk, IfErr, IfSome, IsTrue, OnOk};
ghost use Rattle.vlog_meaning.specs.Integers.{bound_integer};
ghost use Rattle.vlog_effects.specs.LeftSides.{Vector, bit_at, bits_from, written};
ghost use Rattle.net_builder.specs.Refusals.{IsShort};
ghost use Rattle.proc_muxes.specs.Builds.{held, with_held};
ghost use Rattle.proc_muxes.specs.Shows.{StandsBelow};
ghost use Rattle.proc_muxes.specs.Working.{work, AreBits, PutsAt};

use crate::variables::{Variables, width_of};
use elab_expr::put_cell;
use mcy_base::Span;
use net_builder::{Builder, ElabError};
use netlist_core::{Bit, BitList};
use std::alloc::{AllocError, Global};
use vlog_meaning::Bound;

/// Lays bits over those of a variable from the bit on whose number the index is.
pub(crate) fn put_at(
    builder: &mut Builder,
    variables: &mut Variables,
    number: u32,
    is_blocking: bool,
    index: BitList,
    bits: BitList,
    span: Span,
) -> Result<(), ElabError>
    requires known { number < length builder.old.signals }
    requires places { length variables.old ≡ length builder.old.signals }
    requires some { 1 ≤ length (held (work builder.old variables.old) is_blocking number) }
    requires narrow { length (held (work builder.old variables.old) is_blocking number) ≤ 128 }
    requires index { AreBits builder.old.nets index }
    requires bits { AreBits builder.old.nets bits }
    requires stands { StandsBelow (work builder.old variables.old) }
    ensures puts { OnOk result (PutsAt span is_blocking number index bits (work builder.old variables.old) (work builder.new variables.new)) }
    ensures places { OnOk result (length variables.new ≡ length builder.new.signals) }
    ensures cells { OnOk result (length builder.new.cells ≡ length builder.old.cells + 1) }
    ensures short { IfErr result (λ e. IsShort (length builder.old.cells + 1) e) }
{
    let held = variables.held(builder, number, is_blocking)?;
    let width = width_of(&held);
    let y = put_cell(builder, held, index, bits, width, span)?;
    variables.set_held(builder, number, is_blocking, y);
    Ok(())
}

/// The place of the bit with a declared number among so many bits, of which the lowest is number `low`.
fn within(number: u128, low: u32, width: usize) -> Option<usize>
    requires { width ≤ 128 }
    ensures place { (v : Vector) → v.low ≡ low → v.width ≡ width → result ≡ bit_at v (pos number) }
    ensures within { IfSome result (λ place. place < width) }
{
    let low = u128::from(low);
    if number < low {
        return None;
    }
    let place = number - low;
    if place < width as u128 {
        Some(place as usize)
    } else {
        None
    }
}

/// The same of bit `k` from a declared number on.
fn place_of(base: Bound, k: usize, low: u32, width: usize) -> Option<usize>
    requires short { width ≤ 128 }
    requires few { k < 128 }
    requires small { IsTrue base.is_negative → base.magnitude ≤ 2 ^ 127 }
    ensures place { (v : Vector) → v.low ≡ low → v.width ≡ width → result ≡ bit_at v (bound_integer base +ℤ pos k) }
    ensures within { IfSome result (λ place. place < width) }
{
    let k = k as u128;
    if !base.is_negative {
        return within(base.magnitude.saturating_add(k), low, width);
    }
    if k < base.magnitude {
        return None;
    }
    within(k - base.magnitude, low, width)
}

/// Bits with others laid over them from a declared number on, where the lowest is number `low`.
fn laid(
    alloc: Global,
    old: &[Bit],
    low: u32,
    base: Bound,
    bits: &[Bit],
) -> Result<BitList, AllocError>
    requires short { length old.now ≤ 128 }
    requires few { length bits.now ≤ 128 }
    requires small { IsTrue base.is_negative → base.magnitude ≤ 2 ^ 127 }
    ensures { IfOk result (λ found. (v : Vector) → v.low ≡ low → v.width ≡ length old.now → found ≡ written old.now (bits_from v (bound_integer base) (length bits.now)) bits.now) }
{
    let mut found = old.to_vec(alloc)?;
    for (k, bit) in bits.iter().enumerate() {
        if let Some(place) = place_of(base, k, low, old.len()) {
            found[place] = *bit;
        }
    }
    Ok(BitList::from_vec(found))
}

/// Writes bits over those of a variable from a declared number on, where its lowest bit is number `low`.
pub(crate) fn put_from(
    builder: &mut Builder,
    variables: &mut Variables,
    number: u32,
    is_blocking: bool,
    low: u32,
    base: Bound,
    bits: &[Bit],
) -> Result<(), AllocError>
    requires known { number < length builder.old.signals }
    requires places { length variables.old ≡ length builder.old.signals }
    requires narrow { length (held (work builder.old variables.old) is_blocking number) ≤ 128 }
    requires few { length bits.now ≤ 128 }
    requires small { IsTrue base.is_negative → base.magnitude ≤ 2 ^ 127 }
    ensures puts { OnOk result ((v : Vector) → v.low ≡ low → v.width ≡ length (held (work builder.old variables.old) is_blocking number) → work builder.new variables.new ≡ with_held is_blocking number (written (held (work builder.old variables.old) is_blocking number) (bits_from v (bound_integer base) (length bits.now)) bits.now) (work builder.old variables.old)) }
    ensures places { OnOk result (length variables.new ≡ length builder.new.signals) }
    ensures cells { OnOk result (length builder.new.cells ≡ length builder.old.cells) }
{
    let held = variables.held(builder, number, is_blocking)?;
    let bits = laid(builder.alloc(), held.as_slice(), low, base, bits)?;
    variables.set_held(builder, number, is_blocking, bits);
    Ok(())
}
