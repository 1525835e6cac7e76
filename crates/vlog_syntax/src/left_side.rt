//! Left sides of assignments (IEEE 1364-2005, A.8.5).
ghost use Rattle.std.specs.Prelude.{◌≡◌, IfOk};
ghost use Rattle.vlog_syntax.specs.Places.{left_first_token};
ghost use Rattle.vlog_syntax.specs.declared.left_side.LeftSide.TheVariants as l;

use crate::boxed::Boxed;
use crate::expr::{Expr, copy_boxed};
use crate::identifier::Identifier;
use crate::listed::Listed;
use mcy_base::Span;
use std::alloc::{AllocError, Global};

/// What an assignment writes (`net_lvalue`, `variable_lvalue`).
pub enum LeftSide {
    Name(Identifier),
    /// `name[index]`, with the place of its `[`.
    BitSelect(Identifier, Span, Boxed<Expr>),
    /// `name[msb:lsb]`, with the place of its `[`.
    PartSelect(Identifier, Span, Boxed<Expr>, Boxed<Expr>),
    /// `name[base +: width]`, with the place of its `[`.
    IndexedPartSelect(Identifier, Span, Boxed<Expr>, Boxed<Expr>),
    /// `{a, b}`, with the place of its `{`.
    Concatenation(Span, Listed<LeftSide>),
}

impl Drop for LeftSide {
    fn drop(self) {
        match self {
            LeftSide::Name(_name) => {}
            LeftSide::BitSelect(_name, _span, _index) => {}
            LeftSide::PartSelect(_name, _span, _msb, _lsb) => {}
            LeftSide::IndexedPartSelect(_name, _span, _base, _width) => {}
            LeftSide::Concatenation(_span, _parts) => {}
        }
    }
}

impl LeftSide {
    /// The place of the first token.
    pub fn first_token(&self) -> Span
        ensures { result ≡ left_first_token self.now }
    {
        match self {
            LeftSide::Name(name)
            | LeftSide::BitSelect(name, ..)
            | LeftSide::PartSelect(name, ..)
            | LeftSide::IndexedPartSelect(name, ..) => name.span,
            LeftSide::Concatenation(span, _) => *span,
        }
    }

    /// The same left side.
    #[cycle(copy)]
    pub fn copy(&self, alloc: Global) -> Result<LeftSide, AllocError>
        ensures { IfOk result (λ l. l ≡ self.now) }
    {
        match self {
            LeftSide::Name(name) => Ok(LeftSide::Name(name.copy(alloc)?)),
            LeftSide::BitSelect(name, span, index) => bit_select(alloc, name, *span, index.get()),
            LeftSide::PartSelect(name, span, msb, lsb) => {
                part_select(alloc, name, *span, msb.get(), lsb.get())
            }
            LeftSide::IndexedPartSelect(name, span, base, width) => {
                indexed_part_select(alloc, name, *span, base.get(), width.get())
            }
            LeftSide::Concatenation(span, parts) => {
                let parts = copy_left_sides(alloc, parts.as_slice())?;
                Ok(LeftSide::Concatenation(*span, parts))
            }
        }
    }
}

/// The same `name[index]`.
fn bit_select(
    alloc: Global,
    name: &Identifier,
    span: Span,
    index: &Expr,
) -> Result<LeftSide, AllocError>
    ensures { IfOk result (λ x. x ≡ l.BitSelect name.now span index.now) }
{
    let index = copy_boxed(alloc, index)?;
    Ok(LeftSide::BitSelect(name.copy(alloc)?, span, index))
}

/// The same `name[msb:lsb]`.
fn part_select(
    alloc: Global,
    name: &Identifier,
    span: Span,
    msb: &Expr,
    lsb: &Expr,
) -> Result<LeftSide, AllocError>
    ensures { IfOk result (λ x. x ≡ l.PartSelect name.now span msb.now lsb.now) }
{
    let msb = copy_boxed(alloc, msb)?;
    let lsb = copy_boxed(alloc, lsb)?;
    Ok(LeftSide::PartSelect(name.copy(alloc)?, span, msb, lsb))
}

/// The same `name[base +: width]`.
fn indexed_part_select(
    alloc: Global,
    name: &Identifier,
    span: Span,
    base: &Expr,
    width: &Expr,
) -> Result<LeftSide, AllocError>
    ensures { IfOk result (λ x. x ≡ l.IndexedPartSelect name.now span base.now width.now) }
{
    let base = copy_boxed(alloc, base)?;
    let width = copy_boxed(alloc, width)?;
    Ok(LeftSide::IndexedPartSelect(name.copy(alloc)?, span, base, width))
}

/// The same left sides.
#[cycle(copy)]
fn copy_left_sides(alloc: Global, parts: &[LeftSide]) -> Result<Listed<LeftSide>, AllocError>
    ensures { IfOk result (λ l. l ≡ parts.now) }
{
    let mut copies = Listed::from_vec(Vec::new(alloc));
    for part in parts {
        copies.push(part.copy(alloc)?)?;
    }
    Ok(copies)
}
