//! Formulas of bit and part selects.
ghost use Rattle.std.specs.Prelude.{◌≡◌, ◌<◌, ◌≤◌, ◌^◌, ◌-ℤ◌, pos, List, ℕ, length, IfOk, IsTrue};
ghost use Rattle.vlog_meaning.specs.Integers.{integer, bound_integer, window};
ghost use Rattle.vlog_meaning.specs.Operators.{IsSized};
ghost use Rattle.vlog_meaning.specs.Scopes.{Store, decl_low, decl_value};
ghost use Rattle.tb_formulas.specs.Formulas.{formula_value, FitsIn};
ghost use Rattle.tb_formulas.specs.Signals.{HasSignal};

use crate::formula::{Formula, Part};
use std::alloc::{AllocError, Global};
use vlog_meaning::{Bound, Decl, Shape, window};
use vlog_syntax::Boxed;

/// The formula of a part from an index of this shape on that signals tell.
pub(crate) fn indexed(decl: Option<Decl>, width: u8, index: Shape, place: Boxed<Formula>) -> Formula
    requires narrow { width ≤ 128 }
    requires sized { IsSized index }
    ensures means { (store : Store) → formula_value result store ≡ window (integer index (formula_value place store) -ℤ pos (decl_low decl)) width (decl_value store decl) }
    ensures fits { (widths : List ℕ) → HasSignal widths decl → FitsIn widths place index.width → FitsIn widths result width }
{
    match decl {
        Some(Decl::Signal { low, number, .. }) => {
            Formula::Select(number, Part { low, width, index }, place)
        }
        Some(Decl::Constant { value, low, .. }) => {
            Formula::NumberSelect(value.bits(), Part { low, width, index }, place)
        }
        None => Formula::NumberSelect(
            0,
            Part {
                low: 0,
                width,
                index,
            },
            place,
        ),
    }
}

/// The formula of a part from a constant place on.
pub(crate) fn fixed(
    alloc: Global,
    decl: Option<Decl>,
    width: u8,
    place: Bound,
) -> Result<Formula, AllocError>
    requires some { 1 ≤ width }
    requires narrow { width ≤ 128 }
    requires small { IsTrue place.is_negative → place.magnitude ≤ 2 ^ 127 }
    ensures means { IfOk result (λ f. (store : Store) → formula_value f store ≡ window (bound_integer place -ℤ pos (decl_low decl)) width (decl_value store decl)) }
    ensures fits { IfOk result (λ f. (widths : List ℕ) → HasSignal widths decl → FitsIn widths f width) }
{
    match decl {
        Some(Decl::Signal { low, number, .. }) => signal_part(alloc, number, low, width, place),
        Some(Decl::Constant { value, low, .. }) => {
            Ok(Formula::Number(window(value.bits(), place, low, width)))
        }
        None => Ok(Formula::Number(window(0, place, 0, width))),
    }
}

/// The same of a signal whose lowest bit has the number `low`.
fn signal_part(
    alloc: Global,
    signal: u32,
    low: u32,
    width: u8,
    place: Bound,
) -> Result<Formula, AllocError>
    requires some { 1 ≤ width }
    requires narrow { width ≤ 128 }
    requires small { IsTrue place.is_negative → place.magnitude ≤ 2 ^ 127 }
    ensures means { IfOk result (λ f. (store : Store) → formula_value f store ≡ window (bound_integer place -ℤ pos low) width (store signal)) }
    ensures fits { IfOk result (λ f. (widths : List ℕ) → signal < length widths → FitsIn widths f width) }
{
    let first = u128::from(low);
    if place.is_negative {
        return raised(alloc, signal, place.magnitude + first, width);
    }
    if place.magnitude < first || place.magnitude - first >= 128 {
        return part_at(alloc, signal, low, width, place.magnitude);
    }
    let at = (place.magnitude - first) as u8;
    Ok(Formula::Slice(signal, at, width))
}

/// The formula of a part of a signal from a number on.
fn part_at(
    alloc: Global,
    signal: u32,
    low: u32,
    width: u8,
    place: u128,
) -> Result<Formula, AllocError>
    requires { width ≤ 128 }
    ensures means { IfOk result (λ f. (store : Store) → formula_value f store ≡ window (pos place -ℤ pos low) width (store signal)) }
    ensures fits { IfOk result (λ f. (widths : List ℕ) → signal < length widths → FitsIn widths f width) }
{
    let index = Shape {
        width: 128,
        is_signed: false,
    };
    let place = Boxed::new(alloc, Formula::Number(place))?;
    Ok(Formula::Select(signal, Part { low, width, index }, place))
}

/// The formula of a part that begins so many bits below a signal.
fn raised(alloc: Global, signal: u32, places: u128, width: u8) -> Result<Formula, AllocError>
    requires some { 1 ≤ width }
    requires narrow { width ≤ 128 }
    ensures means { IfOk result (λ f. (store : Store) → formula_value f store ≡ window (pos 0 -ℤ pos places) width (store signal)) }
    ensures fits { IfOk result (λ f. (widths : List ℕ) → signal < length widths → FitsIn widths f width) }
{
    if places >= u128::from(width) {
        return Ok(Formula::Number(0));
    }
    part_at(alloc, signal, places as u32, width, 0)
}
