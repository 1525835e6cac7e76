//! Which bits of signals a left side can write.
ghost use Rattle.std.specs.Prelude.{◌≡◌, ◌≤◌, ◌-◌, ◌^◌, ◌||◌, ◌&&◌, not, nat_lt, ℕ, map, OnOk};
ghost use Rattle.vlog_meaning.specs.Scopes.{names_of, decl_shape};
ghost use Rattle.vlog_meaning.specs.Senses.{sense, name_bits, is_empty};
ghost use Rattle.vlog_meaning.specs.Operators.{IsSized};
ghost use Rattle.vlog_effects.specs.LeftSides.{parts_of, concatenated};
ghost use Rattle.signal_masks.specs.Masks.{has_bit, bits_in};
ghost use Rattle.signal_masks.specs.Parts.{AreFit};
ghost use Rattle.tb_nets.specs.Lefts.{parts_open, left_writes};

use signal_masks::{Masks, covered_by};
use std::alloc::AllocError;
use vlog_meaning::{Decl, Scope, signal_in};
use vlog_syntax::{Expr, Identifier, LeftSide};

/// The bits below a place.
fn below(place: u8) -> u128
    requires { place ≤ 128 }
    ensures { result ≡ 2 ^ place - 1 }
{
    if place < 128 {
        2u128.pow(u32::from(place)) - 1
    } else {
        u128::MAX
    }
}

/// The lowest bits, so many.
pub(crate) fn lowest(width: u8) -> u128
    requires { width ≤ 128 }
    ensures { (i : ℕ) → has_bit result i ≡ nat_lt i width }
{
    below(width)
}

/// Whether an expression reads no signal.
#[tactic(auto, using(crate::proofs::Opens::none_read))]
fn is_constant(expr: &Expr, scope: &Scope) -> bool
    ensures { result ≡ is_empty (sense (names_of scope.now) expr.now).signals }
{
    signal_in(expr, scope).is_none()
}

/// Adds all bits of a name.
fn add_name(name: &Identifier, scope: &Scope, masks: &mut Masks) -> Result<(), AllocError>
    requires { IsSized (decl_shape (names_of scope.now name.now.name)) }
    ensures { OnOk result ((n i : ℕ) → bits_in masks.new n i ≡ (bits_in masks.old n i || name_bits (names_of scope.now name.now.name) n i)) }
{
    match scope.get(name.name.as_str()) {
        Some(Decl::Signal { width, number, .. }) => masks.add(number, lowest(width))?,
        Some(Decl::Constant { .. }) | None => {}
    }
    Ok(())
}

/// Adds all bits of a name where the place of its select is no constant.
fn add_open(
    name: &Identifier,
    place: &Expr,
    scope: &Scope,
    masks: &mut Masks,
) -> Result<(), AllocError>
    requires { IsSized (decl_shape (names_of scope.now name.now.name)) }
    ensures { OnOk result ((n i : ℕ) → bits_in masks.new n i ≡ (bits_in masks.old n i || (not (is_empty (sense (names_of scope.now) place.now).signals) && name_bits (names_of scope.now name.now.name) n i))) }
{
    if is_constant(place, scope) {
        return Ok(());
    }
    add_name(name, scope, masks)?;
    Ok(())
}

/// Adds each bit of the names whose select has a place that is no constant.
#[cycle(opening)]
fn opened_by(left: &LeftSide, scope: &Scope, masks: &mut Masks) -> Result<(), AllocError>
    requires { AreFit (names_of scope.now) (parts_of left.now) }
    ensures { OnOk result ((n i : ℕ) → bits_in masks.new n i ≡ (bits_in masks.old n i || parts_open (names_of scope.now) (parts_of left.now) n i)) }
{
    match left {
        LeftSide::Name(_) => {}
        LeftSide::BitSelect(name, _, index) => add_open(name, index.get(), scope, masks)?,
        LeftSide::PartSelect(..) => {}
        LeftSide::IndexedPartSelect(name, _, base, _) => {
            add_open(name, base.get(), scope, masks)?;
        }
        LeftSide::Concatenation(_, parts) => opened_by_all(parts.as_slice(), scope, masks)?,
    }
    Ok(())
}

/// The same of several left sides.
#[cycle(opening)]
fn opened_by_all(parts: &[LeftSide], scope: &Scope, masks: &mut Masks) -> Result<(), AllocError>
    requires { AreFit (names_of scope.now) (concatenated (map parts_of parts.now)) }
    ensures { OnOk result ((n i : ℕ) → bits_in masks.new n i ≡ (bits_in masks.old n i || parts_open (names_of scope.now) (concatenated (map parts_of parts.now)) n i)) }
{
    for part in parts {
        opened_by(part, scope, masks)?;
    }
    Ok(())
}

/// Adds the bits that a left side can write.
pub fn written_by(left: &LeftSide, scope: &Scope, masks: &mut Masks) -> Result<(), AllocError>
    requires { AreFit (names_of scope.now) (parts_of left.now) }
    ensures { OnOk result ((n i : ℕ) → bits_in masks.new n i ≡ (bits_in masks.old n i || left_writes (names_of scope.now) (parts_of left.now) n i)) }
{
    covered_by(left, scope, masks)?;
    opened_by(left, scope, masks)?;
    Ok(())
}
