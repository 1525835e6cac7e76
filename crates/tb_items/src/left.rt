//! Expressions as left sides, as those that outputs of the design are connected to.
ghost use Rattle.std.specs.Prelude.{◌≡◌, map, IfOk};
ghost use Rattle.vlog_syntax.specs.declared.left_side.LeftSide.TheVariants as l;
ghost use Rattle.tb_items.specs.Lefts.{all_lefts, concatenated, left_of};

use mcy_base::Span;
use std::alloc::{AllocError, Global};
use vlog_syntax::{Boxed, Expr, Identifier, LeftSide, Listed};

/// The expression in a box.
fn boxed(alloc: Global, expr: &Expr) -> Result<Boxed<Expr>, AllocError>
    ensures { IfOk result (λ b. b ≡ expr.now) }
{
    Boxed::new(alloc, expr.copy(alloc)?)
}

/// `name[index]`
fn bit_select(
    alloc: Global,
    name: &Identifier,
    span: Span,
    index: &Expr,
) -> Result<LeftSide, AllocError>
    ensures { IfOk result (λ x. x ≡ l.BitSelect name.now span index.now) }
{
    let index = boxed(alloc, index)?;
    Ok(LeftSide::BitSelect(name.copy(alloc)?, span, index))
}

/// `name[msb:lsb]`
fn part_select(
    alloc: Global,
    name: &Identifier,
    span: Span,
    msb: &Expr,
    lsb: &Expr,
) -> Result<LeftSide, AllocError>
    ensures { IfOk result (λ x. x ≡ l.PartSelect name.now span msb.now lsb.now) }
{
    let msb = boxed(alloc, msb)?;
    let lsb = boxed(alloc, lsb)?;
    Ok(LeftSide::PartSelect(name.copy(alloc)?, span, msb, lsb))
}

/// `name[base +: width]`
fn indexed_part_select(
    alloc: Global,
    name: &Identifier,
    span: Span,
    base: &Expr,
    width: &Expr,
) -> Result<LeftSide, AllocError>
    ensures { IfOk result (λ x. x ≡ l.IndexedPartSelect name.now span base.now width.now) }
{
    let base = boxed(alloc, base)?;
    let width = boxed(alloc, width)?;
    Ok(LeftSide::IndexedPartSelect(name.copy(alloc)?, span, base, width))
}

/// `{a, b}`, where there is each.
fn concatenated(at: Span, parts: Option<Listed<LeftSide>>) -> Option<LeftSide>
    ensures { result ≡ concatenated at parts }
{
    match parts {
        Some(parts) => Some(LeftSide::Concatenation(at, parts)),
        None => None,
    }
}

/// The left side of the same form, where the expression has the form of one.
#[cycle(left)]
#[tactic(auto, using(crate::proofs::Forms::left_number, crate::proofs::Forms::left_name, crate::proofs::Forms::left_bit, crate::proofs::Forms::left_range, crate::proofs::Forms::left_indexed, crate::proofs::Forms::left_parenthesized, crate::proofs::Forms::left_unary, crate::proofs::Forms::left_binary, crate::proofs::Forms::left_conditional, crate::proofs::Forms::left_concatenation, crate::proofs::Forms::left_multiple, crate::proofs::Forms::left_call))]
pub(crate) fn left_of(alloc: Global, expr: &Expr) -> Result<Option<LeftSide>, AllocError>
    ensures { IfOk result (λ left. left ≡ left_of expr.now) }
{
    match expr {
        Expr::Number(_) => Ok(None),
        Expr::Name(name) => Ok(Some(LeftSide::Name(name.copy(alloc)?))),
        Expr::BitSelect(name, span, index) => {
            Ok(Some(bit_select(alloc, name, *span, index.get())?))
        }
        Expr::PartSelect(name, span, msb, lsb) => {
            Ok(Some(part_select(alloc, name, *span, msb.get(), lsb.get())?))
        }
        Expr::IndexedPartSelect(name, span, base, width) => {
            Ok(Some(indexed_part_select(alloc, name, *span, base.get(), width.get())?))
        }
        Expr::Parenthesized(..) => Ok(None),
        Expr::Unary(..) => Ok(None),
        Expr::Binary(..) => Ok(None),
        Expr::Conditional(..) => Ok(None),
        Expr::Concatenation(span, parts) => {
            let parts = lefts_of(alloc, parts.as_slice())?;
            Ok(concatenated(*span, parts))
        }
        Expr::MultipleConcatenation(..) => Ok(None),
        Expr::SystemFunctionCall(..) => Ok(None),
    }
}

/// The left sides of the same forms, where each expression has the form of one.
#[cycle(left)]
fn lefts_of(alloc: Global, parts: &[Expr]) -> Result<Option<Listed<LeftSide>>, AllocError>
    ensures { IfOk result (λ lefts. lefts ≡ all_lefts (map left_of parts.now)) }
{
    let mut lefts = Listed::from_vec(Vec::new(alloc));
    for part in parts {
        match left_of(alloc, part)? {
            Some(left) => lefts.push(left)?,
            None => return Ok(None),
        }
    }
    Ok(Some(lefts))
}
