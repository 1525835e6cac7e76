//! Left sides that outputs of instances are connected to, which stand in the tree as expressions.
ghost use Rattle.std.specs.Prelude.{◌≡◌, map, IfOk};
ghost use Rattle.vlog_syntax.specs.declared.left_side.LeftSide.TheVariants as l;
ghost use Rattle.elab_items.specs.Items.{AreLefts, IsLeft};

use mcy_base::Span;
use std::alloc::{AllocError, Global};
use vlog_syntax::{Boxed, Expr, Identifier, LeftSide, Listed};

/// The expression in a box.
fn boxed(alloc: Global, expr: &Expr) -> Result<Boxed<Expr>, AllocError>
    ensures { IfOk result (λ b. b ≡ expr.now) }
{
    Boxed::new(alloc, expr.copy(alloc)?)
}

/// `name[index]`
fn bit_select(
    alloc: Global,
    name: &Identifier,
    span: Span,
    index: &Expr,
) -> Result<LeftSide, AllocError>
    ensures { IfOk result (λ x. x ≡ l.BitSelect name.now span index.now) }
{
    let index = boxed(alloc, index)?;
    Ok(LeftSide::BitSelect(name.copy(alloc)?, span, index))
}

/// `name[msb:lsb]`
fn part_select(
    alloc: Global,
    name: &Identifier,
    span: Span,
    msb: &Expr,
    lsb: &Expr,
) -> Result<LeftSide, AllocError>
    ensures { IfOk result (λ x. x ≡ l.PartSelect name.now span msb.now lsb.now) }
{
    let msb = boxed(alloc, msb)?;
    let lsb = boxed(alloc, lsb)?;
    Ok(LeftSide::PartSelect(name.copy(alloc)?, span, msb, lsb))
}

/// `name[base +: width]`
fn indexed_part_select(
    alloc: Global,
    name: &Identifier,
    span: Span,
    base: &Expr,
    width: &Expr,
) -> Result<LeftSide, AllocError>
    ensures { IfOk result (λ x. x ≡ l.IndexedPartSelect name.now span base.now width.now) }
{
    let base = boxed(alloc, base)?;
    let width = boxed(alloc, width)?;
    Ok(LeftSide::IndexedPartSelect(name.copy(alloc)?, span, base, width))
}

/// The left side of the same form, where the expression has the form of one.
#[cycle(left)]
pub(crate) fn left_of(alloc: Global, expr: &Expr) -> Result<Option<LeftSide>, AllocError>
    ensures { IfOk result (λ left. IsLeft expr.now left) }
{
    match expr {
        Expr::Name(name) => Ok(Some(LeftSide::Name(name.copy(alloc)?))),
        Expr::BitSelect(name, span, index) => {
            Ok(Some(bit_select(alloc, name, *span, index.get())?))
        }
        Expr::PartSelect(name, span, msb, lsb) => {
            Ok(Some(part_select(alloc, name, *span, msb.get(), lsb.get())?))
        }
        Expr::IndexedPartSelect(name, span, base, width) => {
            Ok(Some(indexed_part_select(alloc, name, *span, base.get(), width.get())?))
        }
        Expr::Concatenation(span, parts) => match lefts_of(alloc, parts.as_slice())? {
            Some(parts) => Ok(Some(LeftSide::Concatenation(*span, parts))),
            None => Ok(None),
        },
        _ => Ok(None),
    }
}

/// The left sides of the same forms, where each expression has the form of one.
#[cycle(left)]
fn lefts_of(alloc: Global, parts: &[Expr]) -> Result<Option<Listed<LeftSide>>, AllocError>
    ensures { IfOk result (λ lefts. AreLefts parts.now lefts) }
{
    let mut lefts = Listed::from_vec(Vec::new(alloc));
    for part in parts {
        match left_of(alloc, part)? {
            Some(left) => lefts.push(left)?,
            None => return Ok(None),
        }
    }
    Ok(Some(lefts))
}
