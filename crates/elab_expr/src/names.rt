//! Names in expressions: the bits of a name as they stand, at a width and sign, and from a constant place on.
ghost use Rattle.std.specs.Prelude.{◌≡◌, ◌≤◌, ◌^◌, ◌-ℤ◌, ℕ, pos, false, length, IfOk, IsTrue};
ghost use Rattle.netlist_core.specs.Numbers.{number};
ghost use Rattle.netlist_core.specs.Runs.{Nets, values};
ghost use Rattle.vlog_meaning.specs.Integers.{window, bound_integer};
ghost use Rattle.vlog_meaning.specs.Operators.{IsSized};
ghost use Rattle.vlog_meaning.specs.Scopes.{names_of, decl_shape, decl_low, decl_value};
ghost use Rattle.vlog_meaning.specs.Senses.{taken};
ghost use Rattle.net_builder.specs.Building.{HasSignals, AllBelow, store};
ghost use Rattle.elab_expr.specs.Evaluates.{Holds};
ghost use Rattle.elab_expr.specs.Laid.{bits_from, widened};
ghost use Rattle.elab_expr.specs.Laid as laid;

use crate::wiring::{constant_bits, extended_bits, window_bits};
use net_builder::{Builder, copied_bits};
use netlist_core::{Bit, BitList};
use std::alloc::{AllocError, Global};
use vlog_meaning::{Bound, Decl, Scope, Shape};
use vlog_syntax::Identifier;

/// The bits that a name has.
pub(crate) fn name_bits(
    builder: &Builder,
    scope: &Scope,
    name: &Identifier,
) -> Result<BitList, AllocError>
    requires { HasSignals (names_of scope.now) builder.now }
    ensures is { IfOk result (λ bits. bits ≡ laid.name_bits builder.now (names_of scope.now name.now.name)) }
    ensures long { IfOk result (λ bits. length bits ≡ (decl_shape (names_of scope.now name.now.name)).width) }
    ensures value { IfOk result (λ bits. (nets : Nets) → number (values nets bits) ≡ decl_value (store builder.now nets) (names_of scope.now name.now.name)) }
    ensures below { IfOk result (λ bits. AllBelow builder.now.nets bits) }
{
    match scope.get(name.name.as_str()) {
        Some(Decl::Signal { number, .. }) => {
            Ok(copied_bits(builder.alloc(), builder.bits(number))?)
        }
        Some(Decl::Constant { value, .. }) => {
            Ok(constant_bits(builder.alloc(), value.bits(), value.width())?)
        }
        None => Ok(constant_bits(builder.alloc(), 0, 1)?),
    }
}

/// The bits of a name at a width and sign.
pub(crate) fn named(
    builder: &Builder,
    scope: &Scope,
    name: &Identifier,
    context: Shape,
) -> Result<BitList, AllocError>
    requires signals { HasSignals (names_of scope.now) builder.now }
    requires name { IsSized (decl_shape (names_of scope.now name.now.name)) }
    requires wide { (decl_shape (names_of scope.now name.now.name)).width ≤ context.width }
    requires narrow { context.width ≤ 128 }
    ensures is { IfOk result (λ bits. bits ≡ widened (laid.name_bits builder.now (names_of scope.now name.now.name)) context.is_signed context.width) }
    ensures holds { IfOk result (λ bits. Holds builder.now bits context.width (λ signals. taken (decl_shape (names_of scope.now name.now.name)) context (decl_value signals (names_of scope.now name.now.name)))) }
{
    let bits = name_bits(builder, scope, name)?;
    Ok(extended_bits(
        builder.alloc(),
        bits.as_slice(),
        context.is_signed,
        context.width,
    )?)
}

/// The bits of a select from a constant place on, at a width that is not less than its own.
fn placed_bits(
    alloc: Global,
    bits: &[Bit],
    place: Bound,
    low: u32,
    size: u8,
    width: u8,
) -> Result<BitList, AllocError>
    requires short { length bits.now ≤ 128 }
    requires small { IsTrue place.is_negative → place.magnitude ≤ 2 ^ 127 }
    requires some { 1 ≤ size }
    requires wide { size ≤ width }
    requires narrow { width ≤ 128 }
    ensures is { IfOk result (λ found. found ≡ widened (bits_from bits.now (bound_integer place -ℤ pos low) size) false width) }
    ensures long { IfOk result (λ found. length found ≡ width) }
    ensures value { IfOk result (λ found. (nets : Nets) → number (values nets found) ≡ window (bound_integer place -ℤ pos low) size (number (values nets bits.now))) }
    ensures below { IfOk result (λ found. (n : ℕ) → AllBelow n bits.now → AllBelow n found) }
{
    let part = window_bits(alloc, bits, place, low, size)?;
    Ok(extended_bits(alloc, part.as_slice(), false, width)?)
}

/// The bits of a name from a constant place on.
pub(crate) fn placed(
    builder: &Builder,
    scope: &Scope,
    name: &Identifier,
    place: Bound,
    size: u8,
    width: u8,
) -> Result<BitList, AllocError>
    requires signals { HasSignals (names_of scope.now) builder.now }
    requires name { IsSized (decl_shape (names_of scope.now name.now.name)) }
    requires small { IsTrue place.is_negative → place.magnitude ≤ 2 ^ 127 }
    requires some { 1 ≤ size }
    requires wide { size ≤ width }
    requires narrow { width ≤ 128 }
    ensures is { IfOk result (λ bits. bits ≡ widened (bits_from (laid.name_bits builder.now (names_of scope.now name.now.name)) (bound_integer place -ℤ pos (decl_low (names_of scope.now name.now.name))) size) false width) }
    ensures holds { IfOk result (λ bits. Holds builder.now bits width (λ signals. window (bound_integer place -ℤ pos (decl_low (names_of scope.now name.now.name))) size (decl_value signals (names_of scope.now name.now.name)))) }
{
    let bits = name_bits(builder, scope, name)?;
    let low = scope.low_of(name.name.as_str());
    Ok(placed_bits(builder.alloc(), bits.as_slice(), place, low, size, width)?)
}
