//! Left sides: the expression of the same form, with which a left side shares what is wrong in it, and what is refused
//! in the names that it writes.
ghost use Rattle.std.specs.Prelude.{◌≡◌, map, IfOk};
ghost use Rattle.std.specs.List.{flat_map};
ghost use Rattle.vlog_syntax.specs.declared.expr.Expr.TheVariants as e;
ghost use Rattle.vlog_meaning.specs.Scopes.{names_of};
ghost use Rattle.vlog_effects.specs.LeftSides.{parts_of, concatenated};
ghost use Rattle.elab_proc.specs.Order.{IsFirst};
ghost use Rattle.elab_proc.specs.Refusals.{same_form, is_written, name_refusals, part_refusals};

use crate::refusal::{Refusal, earlier};
use mcy_base::Span;
use std::alloc::{AllocError, Global};
use vlog_meaning::{Cause, Decl, Fault, Scope};
use vlog_syntax::{Boxed, Expr, Identifier, LeftSide, Listed};

/// The expression in a box.
fn boxed(alloc: Global, expr: &Expr) -> Result<Boxed<Expr>, AllocError>
    ensures { IfOk result (λ b. b ≡ expr.now) }
{
    Boxed::new(alloc, expr.copy(alloc)?)
}

/// `name[index]`
fn bit_select(
    alloc: Global,
    name: &Identifier,
    span: Span,
    index: &Expr,
) -> Result<Expr, AllocError>
    ensures { IfOk result (λ x. x ≡ e.BitSelect name.now span index.now) }
{
    let index = boxed(alloc, index)?;
    Ok(Expr::BitSelect(name.copy(alloc)?, span, index))
}

/// `name[msb:lsb]`
fn part_select(
    alloc: Global,
    name: &Identifier,
    span: Span,
    msb: &Expr,
    lsb: &Expr,
) -> Result<Expr, AllocError>
    ensures { IfOk result (λ x. x ≡ e.PartSelect name.now span msb.now lsb.now) }
{
    let msb = boxed(alloc, msb)?;
    let lsb = boxed(alloc, lsb)?;
    Ok(Expr::PartSelect(name.copy(alloc)?, span, msb, lsb))
}

/// `name[base +: width]`
fn indexed_part_select(
    alloc: Global,
    name: &Identifier,
    span: Span,
    base: &Expr,
    width: &Expr,
) -> Result<Expr, AllocError>
    ensures { IfOk result (λ x. x ≡ e.IndexedPartSelect name.now span base.now width.now) }
{
    let base = boxed(alloc, base)?;
    let width = boxed(alloc, width)?;
    Ok(Expr::IndexedPartSelect(name.copy(alloc)?, span, base, width))
}

/// The expression of the same form.
#[cycle(form)]
pub fn same_form(alloc: Global, left: &LeftSide) -> Result<Expr, AllocError>
    ensures { IfOk result (λ x. x ≡ same_form left.now) }
{
    match left {
        LeftSide::Name(name) => Ok(Expr::Name(name.copy(alloc)?)),
        LeftSide::BitSelect(name, span, index) => bit_select(alloc, name, *span, index.get()),
        LeftSide::PartSelect(name, span, msb, lsb) => {
            part_select(alloc, name, *span, msb.get(), lsb.get())
        }
        LeftSide::IndexedPartSelect(name, span, base, width) => {
            indexed_part_select(alloc, name, *span, base.get(), width.get())
        }
        LeftSide::Concatenation(span, parts) => {
            let parts = same_forms(alloc, parts.as_slice())?;
            Ok(Expr::Concatenation(*span, parts))
        }
    }
}

/// The expressions of the same forms.
#[cycle(form)]
fn same_forms(alloc: Global, parts: &[LeftSide]) -> Result<Listed<Expr>, AllocError>
    ensures { IfOk result (λ l. l ≡ map same_form parts.now) }
{
    let mut forms = Listed::from_vec(Vec::new(alloc));
    for part in parts {
        forms.push(same_form(alloc, part)?)?;
    }
    Ok(forms)
}

/// Whether the signal of this number has a writer outside the process.
fn is_written(written: &[bool], number: u32) -> bool
    ensures { result ≡ is_written written.now number }
{
    match written.get(number as usize) {
        Some(is_written) => *is_written,
        None => false,
    }
}

/// What is refused in a name that is written.
fn name_refusal(name: &Identifier, scope: &Scope, written: &[bool]) -> Option<Refusal>
    ensures { IsFirst (name_refusals written.now name.now.span (names_of scope.now name.now.name)) result }
{
    match scope.get(name.name.as_str()) {
        Some(Decl::Signal { number, .. }) => {
            if is_written(written, number) {
                Some(Refusal::TwoWriters(name.span, number))
            } else {
                None
            }
        }
        Some(Decl::Constant { .. }) => Some(Refusal::Wrong(Fault {
            cause: Cause::Unknown,
            span: name.span,
        })),
        None => None,
    }
}

/// What is refused first in the names that a left side writes.
#[cycle(names)]
pub(crate) fn names_refusal(left: &LeftSide, scope: &Scope, written: &[bool]) -> Option<Refusal>
    ensures { IsFirst (flat_map (part_refusals (names_of scope.now) written.now) (parts_of left.now)) result }
{
    match left {
        LeftSide::Name(name)
        | LeftSide::BitSelect(name, ..)
        | LeftSide::PartSelect(name, ..)
        | LeftSide::IndexedPartSelect(name, ..) => name_refusal(name, scope, written),
        LeftSide::Concatenation(_, parts) => all_names_refusal(parts.as_slice(), scope, written),
    }
}

/// The same in several left sides.
#[cycle(names)]
fn all_names_refusal(parts: &[LeftSide], scope: &Scope, written: &[bool]) -> Option<Refusal>
    ensures { IsFirst (flat_map (part_refusals (names_of scope.now) written.now) (concatenated (map parts_of parts.now))) result }
{
    let mut found = None;
    for part in parts {
        found = earlier(found, names_refusal(part, scope, written));
    }
    found
}
