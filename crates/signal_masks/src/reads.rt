//! Which bits of signals an expression reads: of a select at a constant place its bits, of one at any other place all bits of
//! the name, and those that the place reads.
ghost use Rattle.std.specs.Prelude.{◌≡◌, ◌≤◌, ◌^◌, ℕ, ◌&&◌, ◌||◌, pos, ◌-ℤ◌, nat_eq, nat_lt, IsTrue, OnOk};
ghost use Rattle.vlog_meaning.specs.Integers.{bound_integer};
ghost use Rattle.vlog_meaning.specs.Operators.{IsSized};
ghost use Rattle.vlog_meaning.specs.Scopes.{names_of, decl_shape, decl_low};
ghost use Rattle.vlog_meaning.specs.Senses.{sense, senses, constant_integer, name_bits, part_bits, select_bits, all_reads, is_empty, IsWhole, AreWhole};
ghost use Rattle.signal_masks.specs.Masks.{bits_in};

use crate::mask::{between, part};
use crate::masks::Masks;
use std::alloc::AllocError;
use vlog_meaning::{Bound, Decl, Scope, shape_of, signal_in, value_of};
use vlog_syntax::{Expr, Identifier};

/// The integer that a constant is.
pub(crate) fn integer_of(expr: &Expr, scope: &Scope) -> Bound
    requires { IsWhole (names_of scope.now) expr.now }
    ensures value { bound_integer result ≡ constant_integer (sense (names_of scope.now) expr.now) }
    ensures small { IsTrue result.is_negative → result.magnitude ≤ 2 ^ 127 }
{
    let shape = shape_of(expr, scope);
    Bound::of(shape, value_of(expr, scope, &[], shape))
}

/// Whether an expression reads no signal.
#[tactic(auto, using(crate::proofs::Selects::none_read))]
pub(crate) fn is_constant(expr: &Expr, scope: &Scope) -> bool
    ensures { result ≡ is_empty (sense (names_of scope.now) expr.now).signals }
{
    signal_in(expr, scope).is_none()
}

/// Adds the bits of a name.
pub(crate) fn name_bits(
    name: &Identifier,
    scope: &Scope,
    masks: &mut Masks,
) -> Result<(), AllocError>
    requires { IsSized (decl_shape (names_of scope.now name.now.name)) }
    ensures { OnOk result ((n i : ℕ) → bits_in masks.new n i ≡ (bits_in masks.old n i || name_bits (names_of scope.now name.now.name) n i)) }
{
    match scope.get(name.name.as_str()) {
        Some(Decl::Signal { width, number, .. }) => masks.add(number, between(0, width))?,
        Some(Decl::Constant { .. }) | None => {}
    }
    Ok(())
}

/// Adds so many bits of a name from a place on.
pub(crate) fn part_bits(
    name: &Identifier,
    place: Bound,
    size: u8,
    scope: &Scope,
    masks: &mut Masks,
) -> Result<(), AllocError>
    requires sized { IsSized (decl_shape (names_of scope.now name.now.name)) }
    requires small { IsTrue place.is_negative → place.magnitude ≤ 2 ^ 127 }
    ensures { OnOk result ((n i : ℕ) → bits_in masks.new n i ≡ (bits_in masks.old n i || part_bits (names_of scope.now name.now.name) (bound_integer place -ℤ pos (decl_low (names_of scope.now name.now.name))) size n i)) }
{
    match scope.get(name.name.as_str()) {
        Some(
            Decl::Signal {
                width,
                low,
                number,
                ..
            },
        ) => masks.add(number, part(place, low, size, width))?,
        Some(Decl::Constant { .. }) | None => {}
    }
    Ok(())
}

/// Adds the bits that a select reads.
#[cycle(reads)]
fn select_reads(
    name: &Identifier,
    index: &Expr,
    size: u8,
    scope: &Scope,
    masks: &mut Masks,
) -> Result<(), AllocError>
    requires sized { IsSized (decl_shape (names_of scope.now name.now.name)) }
    requires whole { IsWhole (names_of scope.now) index.now }
    ensures { OnOk result ((n i : ℕ) → bits_in masks.new n i ≡ (bits_in masks.old n i || select_bits (names_of scope.now name.now.name) (sense (names_of scope.now) index.now) size n i)) }
{
    if is_constant(index, scope) {
        part_bits(name, integer_of(index, scope), size, scope, masks)?;
    } else {
        name_bits(name, scope, masks)?;
        reads_of(index, scope, masks)?;
    }
    Ok(())
}

/// Adds the bits that an expression with a shape reads.
#[cycle(reads)]
pub fn reads_of(expr: &Expr, scope: &Scope, masks: &mut Masks) -> Result<(), AllocError>
    requires { IsWhole (names_of scope.now) expr.now }
    ensures { OnOk result ((n i : ℕ) → bits_in masks.new n i ≡ (bits_in masks.old n i || (sense (names_of scope.now) expr.now).reads n i)) }
{
    match expr {
        Expr::Number(_) => {}
        Expr::Name(name) => name_bits(name, scope, masks)?,
        Expr::BitSelect(name, _, index) => select_reads(name, index.get(), 1, scope, masks)?,
        Expr::PartSelect(name, _, _, lsb) => {
            let size = shape_of(expr, scope).width;
            part_bits(name, integer_of(lsb.get(), scope), size, scope, masks)?;
        }
        Expr::IndexedPartSelect(name, _, base, _) => {
            let size = shape_of(expr, scope).width;
            select_reads(name, base.get(), size, scope, masks)?;
        }
        Expr::Parenthesized(_, inner) => reads_of(inner.get(), scope, masks)?,
        Expr::Unary(_, _, operand) => reads_of(operand.get(), scope, masks)?,
        Expr::Binary(_, _, left, right) => {
            reads_of(left.get(), scope, masks)?;
            reads_of(right.get(), scope, masks)?;
        }
        Expr::Conditional(_, condition, yes, no) => {
            reads_of(condition.get(), scope, masks)?;
            reads_of(yes.get(), scope, masks)?;
            reads_of(no.get(), scope, masks)?;
        }
        Expr::Concatenation(_, parts) => reads_of_all(parts.as_slice(), scope, masks)?,
        Expr::MultipleConcatenation(_, _, parts) => reads_of_all(parts.as_slice(), scope, masks)?,
        Expr::SystemFunctionCall(_, arguments) => {
            reads_of_all(arguments.as_slice(), scope, masks)?;
        }
    }
    Ok(())
}

/// Adds the bits that several expressions read.
#[cycle(reads)]
fn reads_of_all(exprs: &[Expr], scope: &Scope, masks: &mut Masks) -> Result<(), AllocError>
    requires { AreWhole (names_of scope.now) exprs.now }
    ensures { OnOk result ((n i : ℕ) → bits_in masks.new n i ≡ (bits_in masks.old n i || all_reads (senses (names_of scope.now) exprs.now) n i)) }
{
    for expr in exprs {
        reads_of(expr, scope, masks)?;
    }
    Ok(())
}
