//! Bits without cells: constants, the extension of bits to a width, selects at a constant place, and bits
//! side by side.
ghost use Rattle.std.specs.Prelude.{◌≡◌, ◌+◌, ◌*◌, ◌/◌, ◌%◌, ◌-◌, ◌≤◌, ◌<◌, ◌^◌, ℕ, pos, ◌+ℤ◌, ◌-ℤ◌, false, [], ◌∷◌, ◌++◌, length, IfOk, IsTrue};
ghost use Rattle.netlist_core.specs.Numbers.{digit, number};
ghost use Rattle.netlist_core.specs.Runs.{Nets, bit_value, values};
ghost use Rattle.vlog_meaning.specs.Integers.{extended, window, bound_integer};
ghost use Rattle.vlog_meaning.specs.Operators.{IsSized};
ghost use Rattle.vlog_meaning.specs.Senses.{repeated};
ghost use Rattle.net_builder.specs.Building.{AllBelow};
ghost use Rattle.expr_plans.specs.Made.{index_width};
ghost use Rattle.elab_expr.specs.Laid.{bit_of, bits_from, index_bits, number_bits, widened};
ghost use Rattle.elab_expr.specs.Laid as laid;
ghost use Rattle.elab_expr.specs.Wiring.{ShapeOfBits, fill_bit, bit_or_0, window_digit};

use expr_plans::index_width;
use net_builder::copied_bits;
use netlist_core::{Bit, BitList};
use std::alloc::{AllocError, Global};
use vlog_meaning::{Bound, Shape};

/// The bits of a constant.
pub fn constant_bits(alloc: Global, value: u128, width: u8) -> Result<BitList, AllocError>
    requires narrow { width ≤ 128 }
    requires fits { value < 2 ^ width }
    ensures is { IfOk result (λ bits. bits ≡ number_bits width value) }
    ensures long { IfOk result (λ bits. length bits ≡ width) }
    ensures value { IfOk result (λ bits. (nets : Nets) → number (values nets bits) ≡ value) }
    ensures below { IfOk result (λ bits. (n : ℕ) → AllBelow n bits) }
{
    let mut bits = Vec::new(alloc);
    let mut rest = value;
    for _ in 0..width {
        bits.push(Bit::Fixed(rest % 2 == 1))?;
        rest /= 2;
    }
    Ok(BitList::from_vec(bits))
}

/// What fills the places above bits: the highest one where the sign counts, else 0.
fn fill_bit(bits: &[Bit], is_signed: bool) -> Bit
    requires { 1 ≤ length bits.now }
    ensures { result ≡ fill_bit bits.now is_signed }
{
    if is_signed {
        bits[bits.len() - 1]
    } else {
        Bit::Fixed(false)
    }
}

/// The bits at a width that is not less: filled with the highest one where the sign counts, else with 0.
pub fn extended_bits(
    alloc: Global,
    bits: &[Bit],
    is_signed: bool,
    width: u8,
) -> Result<BitList, AllocError>
    requires some { 1 ≤ length bits.now }
    requires wide { length bits.now ≤ width }
    requires narrow { width ≤ 128 }
    ensures is { IfOk result (λ found. found ≡ widened bits.now is_signed width) }
    ensures long { IfOk result (λ found. length found ≡ width) }
    ensures value { IfOk result (λ found. (nets : Nets) → number (values nets found) ≡ extended (ShapeOfBits bits.now is_signed) width (number (values nets bits.now))) }
    ensures below { IfOk result (λ found. (n : ℕ) → AllBelow n bits.now → AllBelow n found) }
{
    let fill = fill_bit(bits, is_signed);
    let mut found = Vec::new(alloc);
    for bit in bits {
        found.push(*bit)?;
    }
    while found.len() < width as usize {
        found.push(fill)?;
    }
    Ok(BitList::from_vec(found))
}

/// The bits of an index at a cell. A signed one has at least 9 there, so that what is below 0 lies outside of each vector.
#[tactic(auto, using(expr_plans::proofs::Indices::index_wide, expr_plans::proofs::Indices::index_narrow))]
pub fn index_bits(alloc: Global, bits: &[Bit], own: Shape) -> Result<BitList, AllocError>
    requires sized { IsSized own }
    requires fit { length bits.now ≡ own.width }
    ensures is { IfOk result (λ found. found ≡ index_bits own bits.now) }
    ensures long { IfOk result (λ found. length found ≡ index_width own) }
    ensures value { IfOk result (λ found. (nets : Nets) → number (values nets found) ≡ extended own (index_width own) (number (values nets bits.now))) }
    ensures below { IfOk result (λ found. (n : ℕ) → AllBelow n bits.now → AllBelow n found) }
{
    extended_bits(alloc, bits, own.is_signed, index_width(own))
}

/// The bit at a place, and 0 past the end.
fn bit_at(bits: &[Bit], place: u128) -> Bit
    requires { length bits.now ≤ 128 }
    ensures { result ≡ bit_or_0 bits.now place }
{
    if place < bits.len() as u128 {
        bits[place as usize]
    } else {
        Bit::Fixed(false)
    }
}

/// Bit k of a select from a place on, where the lowest bit of `bits` is number `low`. It is 0 outside them.
fn window_bit(bits: &[Bit], place: Bound, low: u32, k: u8) -> Bit
    requires short { length bits.now ≤ 128 }
    requires small { IsTrue place.is_negative → place.magnitude ≤ 2 ^ 127 }
    ensures is { result ≡ bit_of bits.now (bound_integer place -ℤ pos low +ℤ pos k) }
    ensures value { (nets : Nets) → digit (bit_value nets result) ≡ window_digit (bound_integer place -ℤ pos low) k (number (values nets bits.now)) }
    ensures below { (n : ℕ) → AllBelow n bits.now → AllBelow n (result ∷ []) }
{
    let k = u128::from(k);
    let low = u128::from(low);
    if place.is_negative {
        let zeros = place.magnitude + low;
        return if k < zeros {
            Bit::Fixed(false)
        } else {
            bit_at(bits, k - zeros)
        };
    }
    let at = place.magnitude.saturating_add(k);
    if at < low {
        Bit::Fixed(false)
    } else {
        bit_at(bits, at - low)
    }
}

/// The bits of a select from a place on, where the lowest bit of `bits` is number `low`.
pub fn window_bits(
    alloc: Global,
    bits: &[Bit],
    place: Bound,
    low: u32,
    width: u8,
) -> Result<BitList, AllocError>
    requires short { length bits.now ≤ 128 }
    requires small { IsTrue place.is_negative → place.magnitude ≤ 2 ^ 127 }
    ensures is { IfOk result (λ found. found ≡ bits_from bits.now (bound_integer place -ℤ pos low) width) }
    ensures long { IfOk result (λ found. length found ≡ width) }
    ensures value { IfOk result (λ found. (nets : Nets) → number (values nets found) ≡ window (bound_integer place -ℤ pos low) width (number (values nets bits.now))) }
    ensures below { IfOk result (λ found. (n : ℕ) → AllBelow n bits.now → AllBelow n found) }
{
    let mut found = Vec::new(alloc);
    for k in 0..width {
        found.push(window_bit(bits, place, low, k))?;
    }
    Ok(BitList::from_vec(found))
}

/// Bits with others above them.
pub fn joined_bits(low: BitList, high: &[Bit]) -> Result<BitList, AllocError>
    ensures { IfOk result (λ bits. bits ≡ low ++ high.now) }
{
    let mut bits = low;
    for bit in high {
        bits.push(*bit)?;
    }
    Ok(bits)
}

/// So many times the same bits.
pub fn repeated_bits(alloc: Global, bits: &[Bit], times: u8) -> Result<BitList, AllocError>
    ensures is { IfOk result (λ found. found ≡ laid.times times bits.now) }
    ensures long { IfOk result (λ found. length found ≡ times * length bits.now) }
    ensures value { IfOk result (λ found. (nets : Nets) → number (values nets found) ≡ repeated times (length bits.now) (number (values nets bits.now))) }
    ensures below { IfOk result (λ found. (n : ℕ) → AllBelow n bits.now → AllBelow n found) }
{
    let mut found = BitList::from_vec(Vec::new(alloc));
    for _ in 0..times {
        found = joined_bits(copied_bits(alloc, bits)?, found.as_slice())?;
    }
    Ok(found)
}

/// So many times the same bits, at a width that is not less.
pub(crate) fn repeated_at(
    alloc: Global,
    bits: &[Bit],
    times: u8,
    width: u8,
) -> Result<BitList, AllocError>
    requires some { 1 ≤ times * length bits.now }
    requires wide { times * length bits.now ≤ width }
    requires narrow { width ≤ 128 }
    ensures is { IfOk result (λ found. found ≡ widened (laid.times times bits.now) false width) }
    ensures long { IfOk result (λ found. length found ≡ width) }
    ensures value { IfOk result (λ found. (nets : Nets) → number (values nets found) ≡ repeated times (length bits.now) (number (values nets bits.now))) }
    ensures below { IfOk result (λ found. (n : ℕ) → AllBelow n bits.now → AllBelow n found) }
{
    let all = repeated_bits(alloc, bits, times)?;
    Ok(extended_bits(alloc, all.as_slice(), false, width)?)
}
