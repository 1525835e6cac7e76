//! Which bits of signals a left side assigns for sure: a part with an index that is no constant assigns none.
ghost use Rattle.std.specs.Prelude.{◌≡◌, ◌≤◌, ◌<◌, ◌+◌, ◌-◌, ◌^◌, ℕ, ◌||◌, map, OnOk};
ghost use Rattle.vlog_meaning.specs.Integers.{natural, bound_integer};
ghost use Rattle.vlog_meaning.specs.Scopes.{names_of};
ghost use Rattle.vlog_meaning.specs.Senses.{sense, constant_integer, part_width, IsWhole};
ghost use Rattle.vlog_effects.specs.LeftSides.{parts_of, concatenated};
ghost use Rattle.vlog_effects.specs.Latches.{parts_cover};
ghost use Rattle.signal_masks.specs.Masks.{bits_in};
ghost use Rattle.signal_masks.specs.Parts.{AreFit};

use crate::masks::Masks;
use crate::reads::{integer_of, is_constant, name_bits, part_bits};
use std::alloc::AllocError;
use vlog_meaning::{Bound, Scope};
use vlog_syntax::{Expr, LeftSide};

/// How many numbers there are from one to another, at most 2^128 - 1.
fn inclusive(from: u128, to: u128) -> u128
    requires { to + 1 - from < 2 ^ 128 }
    ensures { result ≡ to + 1 - from }
{
    if from <= to { to - from + 1 } else { 0 }
}

/// The width of a part select.
fn part_width(msb: Bound, lsb: Bound) -> u8
    requires narrow { part_width (bound_integer msb) (bound_integer lsb) ≤ 128 }
    ensures { result ≡ part_width (bound_integer msb) (bound_integer lsb) }
{
    match (msb.is_negative, lsb.is_negative) {
        (false, false) => inclusive(lsb.magnitude, msb.magnitude) as u8,
        (false, true) => (msb.magnitude + lsb.magnitude + 1) as u8,
        (true, false) => {
            if msb.magnitude == 0 && lsb.magnitude == 0 {
                1
            } else {
                0
            }
        }
        (true, true) => inclusive(msb.magnitude, lsb.magnitude) as u8,
    }
}

/// The count that a constant is.
fn count_of(count: &Expr, scope: &Scope) -> u8
    requires whole { IsWhole (names_of scope.now) count.now }
    requires narrow { natural (constant_integer (sense (names_of scope.now) count.now)) ≤ 128 }
    ensures { result ≡ natural (constant_integer (sense (names_of scope.now) count.now)) }
{
    let bound = integer_of(count, scope);
    if bound.is_negative {
        0
    } else {
        bound.magnitude as u8
    }
}

/// Adds the bits that a left side assigns for sure.
#[cycle(covers)]
pub fn covered_by(left: &LeftSide, scope: &Scope, masks: &mut Masks) -> Result<(), AllocError>
    requires { AreFit (names_of scope.now) (parts_of left.now) }
    ensures { OnOk result ((n i : ℕ) → bits_in masks.new n i ≡ (bits_in masks.old n i || parts_cover (names_of scope.now) (parts_of left.now) n i)) }
{
    match left {
        LeftSide::Name(name) => name_bits(name, scope, masks)?,
        LeftSide::BitSelect(name, _, index) => {
            let index = index.get();
            if is_constant(index, scope) {
                part_bits(name, integer_of(index, scope), 1, scope, masks)?;
            }
        }
        LeftSide::PartSelect(name, _, msb, lsb) => {
            let lsb = integer_of(lsb.get(), scope);
            let size = part_width(integer_of(msb.get(), scope), lsb);
            part_bits(name, lsb, size, scope, masks)?;
        }
        LeftSide::IndexedPartSelect(name, _, base, count) => {
            let base = base.get();
            if is_constant(base, scope) {
                let size = count_of(count.get(), scope);
                part_bits(name, integer_of(base, scope), size, scope, masks)?;
            }
        }
        LeftSide::Concatenation(_, parts) => covered_by_all(parts.as_slice(), scope, masks)?,
    }
    Ok(())
}

/// The same of several left sides.
#[cycle(covers)]
fn covered_by_all(parts: &[LeftSide], scope: &Scope, masks: &mut Masks) -> Result<(), AllocError>
    requires { AreFit (names_of scope.now) (concatenated (map parts_of parts.now)) }
    ensures { OnOk result ((n i : ℕ) → bits_in masks.new n i ≡ (bits_in masks.old n i || parts_cover (names_of scope.now) (concatenated (map parts_of parts.now)) n i)) }
{
    for part in parts {
        covered_by(part, scope, masks)?;
    }
    Ok(())
}
