//! Targets of left sides.
ghost use Rattle.std.specs.Prelude.{◌≡◌, ◌<◌, ◌≤◌, ◌^◌, ℕ, List, ◌∷◌, [], IfOk, IsTrue};
ghost use Rattle.vlog_meaning.specs.Integers.{integer};
ghost use Rattle.vlog_meaning.specs.Operators.{IsSized};
ghost use Rattle.vlog_meaning.specs.Scopes.{Store, names_of};
ghost use Rattle.vlog_effects.specs.LeftSides.{Whole, Bit, Range, Indexed as FromIndex, Vector as Known, parts_of};
ghost use Rattle.tb_assigns.specs.Pieces.{vector_is};
ghost use Rattle.tb_assigns.specs.Updates.{IsPart, AreParts, window_update};
ghost use Rattle.tb_formulas.specs.Formulas.{formula_value, FitsIn};
ghost use Rattle.tb_plans.specs.Making.{IsTargetOf, OfTarget};
ghost use Rattle.tb_plans.specs.Transfers.{target_updates, TargetFits};

use crate::target::Target;
use crate::value::own_value_of;
use expr_plans::count_of;
use mcy_base::Span;
use std::alloc::{AllocError, Global};
use tb_assigns::{Piece, Vector, clip_of, range_piece, vector_of, whole_piece};
use tb_formulas::Formula;
use vlog_meaning::{Bound, Scope, Shape, shape_of, truncate};
use vlog_syntax::{Expr, Identifier, LeftSide};

/// A whole signal.
fn whole_target(name: &Identifier, bits: u8, scope: &Scope) -> Target
    requires { (v : Known) × IsPart (names_of scope.now) (record { name = name.now; select = Whole }) v }
    ensures { IsTargetOf (names_of scope.now) (record { name = name.now; select = Whole } ∷ []) bits result }
{
    Target::of_clip(clip_of(whole_piece(name, scope)), bits)
}

/// `name[msb:lsb]`
fn range_target(
    name: &Identifier,
    span: Span,
    msb: &Expr,
    lsb: &Expr,
    bits: u8,
    scope: &Scope,
) -> Target
    requires { (v : Known) × IsPart (names_of scope.now) (record { name = name.now; select = Range span msb.now lsb.now }) v }
    ensures { IsTargetOf (names_of scope.now) (record { name = name.now; select = Range span msb.now lsb.now } ∷ []) bits result }
{
    Target::of_clip(clip_of(range_piece(name, span, msb, lsb, scope)), bits)
}

/// Whether a number has at most so many bits.
fn is_within(bits: u128, width: u8) -> bool
    requires { width ≤ 128 }
    ensures { IsTrue result → bits < 2 ^ width }
{
    truncate(bits, width) == bits
}

/// So many bits from an index of this shape on. They are fixed where the index is a number.
fn indexed(vector: Vector, size: u8, shape: Shape, index: Formula, bits: u8) -> Target
    requires { IsSized shape }
    ensures updates { (store : Store) (v : ℕ) → target_updates result store v ≡ window_update (record { vector = vector_is vector; base = integer shape (formula_value index store); size = size }) v }
    ensures fits { (widths : List ℕ) → FitsIn widths index shape.width → TargetFits widths bits result }
{
    if let Formula::Number(at) = &index {
        if is_within(*at, shape.width) {
            let base = Bound::of(shape, *at);
            return Target::of_clip(clip_of(Piece { vector, base, size }), bits);
        }
    }
    Target::Indexed(vector, size, shape, index)
}

/// `name[index]`
fn bit_target(
    alloc: Global,
    name: &Identifier,
    span: Span,
    index: &Expr,
    bits: u8,
    scope: &Scope,
) -> Result<Option<Target>, AllocError>
    requires { (v : Known) × IsPart (names_of scope.now) (record { name = name.now; select = Bit span index.now }) v }
    ensures { IfOk result (λ t. OfTarget (names_of scope.now) (record { name = name.now; select = Bit span index.now } ∷ []) bits t) }
{
    let vector = vector_of(name, scope);
    let shape = shape_of(index, scope);
    match own_value_of(alloc, index, scope)? {
        Some(at) => Ok(Some(indexed(vector, 1, shape, at, bits))),
        None => Ok(None),
    }
}

/// `name[base +: count]`
fn part_target(
    alloc: Global,
    name: &Identifier,
    span: Span,
    base: &Expr,
    count: &Expr,
    bits: u8,
    scope: &Scope,
) -> Result<Option<Target>, AllocError>
    requires { (v : Known) × IsPart (names_of scope.now) (record { name = name.now; select = FromIndex span base.now count.now }) v }
    ensures { IfOk result (λ t. OfTarget (names_of scope.now) (record { name = name.now; select = FromIndex span base.now count.now } ∷ []) bits t) }
{
    let vector = vector_of(name, scope);
    let size = count_of(count, scope);
    let shape = shape_of(base, scope);
    match own_value_of(alloc, base, scope)? {
        Some(at) => Ok(Some(indexed(vector, size, shape, at, bits))),
        None => Ok(None),
    }
}

/// The target of a left side that is no concatenation and whose index draws nothing, for values of so many bits.
pub(crate) fn target_of(
    alloc: Global,
    left: &LeftSide,
    bits: u8,
    scope: &Scope,
) -> Result<Option<Target>, AllocError>
    requires { AreParts (names_of scope.now) (parts_of left.now) }
    ensures { IfOk result (λ t. OfTarget (names_of scope.now) (parts_of left.now) bits t) }
{
    match left {
        LeftSide::Name(name) => Ok(Some(whole_target(name, bits, scope))),
        LeftSide::BitSelect(name, span, index) => {
            bit_target(alloc, name, *span, index.get(), bits, scope)
        }
        LeftSide::PartSelect(name, span, msb, lsb) => Ok(Some(range_target(
            name,
            *span,
            msb.get(),
            lsb.get(),
            bits,
            scope,
        ))),
        LeftSide::IndexedPartSelect(name, span, base, count) => {
            part_target(alloc, name, *span, base.get(), count.get(), bits, scope)
        }
        LeftSide::Concatenation(..) => Ok(None),
    }
}
