//! An expression with number literals in the places of its bounds, widths and counts.
//!
//! Each of these constants is evaluated once, the innermost first, over the literals of those within it. Whoever then looks at the
//! expression more than once, for its shape and at several widths and signs, finds literals there. It says what the first
//! one says: its whole sense is the same.
ghost use Rattle.std.specs.Prelude.{◌≡◌, ◌<◌, ◌^◌, IfOk};
ghost use Rattle.vlog_syntax.specs.declared.expr.Expr.TheVariants as e;
ghost use Rattle.vlog_meaning.specs.Literals.{IsLiteral};
ghost use Rattle.vlog_meaning.specs.Operators.{IsSized};
ghost use Rattle.vlog_meaning.specs.Scopes.{names_of};
ghost use Rattle.vlog_meaning.specs.Senses.{sense, senses, IsWhole, AreWhole};

use crate::own::{Own, word};
use crate::scope::Scope;
use crate::values::own_of;
use mcy_base::Span;
use std::alloc::{AllocError, Global};
use vlog_syntax::{Boxed, Expr, Identifier, Listed, Number};

/// A number of this shape and value.
fn number(span: Span, own: Own) -> Number
    requires sized { IsSized own.shape }
    requires fits { own.value < 2 ^ own.shape.width }
    ensures width { result.value.width ≡ own.shape.width }
    ensures bits { result.value.bits ≡ own.value }
    ensures sign { result.is_signed ≡ own.shape.is_signed }
{
    Number {
        value: word(own.shape.width, own.value),
        is_signed: own.shape.is_signed,
        x_bits: 0,
        z_bits: 0,
        span,
    }
}

/// A literal of the integer that a constant is.
fn literal(alloc: Global, span: Span, expr: &Expr, scope: &Scope) -> Result<Boxed<Expr>, AllocError>
    requires { IsWhole (names_of scope.now) expr.now }
    ensures { IfOk result (λ x. IsLiteral (sense (names_of scope.now) x) (sense (names_of scope.now) expr.now)) }
{
    let own = own_of(expr, scope, &[]);
    Boxed::new(alloc, Expr::Number(number(span, own)))
}

/// A part select with literals for its bounds.
fn part_select(
    alloc: Global,
    name: &Identifier,
    span: Span,
    msb: &Expr,
    lsb: &Expr,
    scope: &Scope,
) -> Result<Expr, AllocError>
    requires { IsWhole (names_of scope.now) (e.PartSelect name.now span msb.now lsb.now) }
    ensures { IfOk result (λ x. sense (names_of scope.now) x ≡ sense (names_of scope.now) (e.PartSelect name.now span msb.now lsb.now)) }
{
    let msb = literal(alloc, span, msb, scope)?;
    let lsb = literal(alloc, span, lsb, scope)?;
    Ok(Expr::PartSelect(name.copy(alloc)?, span, msb, lsb))
}

/// An indexed part select with a literal for its width.
fn indexed_part_select(
    alloc: Global,
    name: &Identifier,
    span: Span,
    base: Boxed<Expr>,
    width: &Expr,
    scope: &Scope,
) -> Result<Expr, AllocError>
    requires { IsWhole (names_of scope.now) (e.IndexedPartSelect name.now span base width.now) }
    ensures { IfOk result (λ x. sense (names_of scope.now) x ≡ sense (names_of scope.now) (e.IndexedPartSelect name.now span base width.now)) }
{
    let width = literal(alloc, span, width, scope)?;
    Ok(Expr::IndexedPartSelect(name.copy(alloc)?, span, base, width))
}

/// A replication with a literal for its count.
fn replication(
    alloc: Global,
    span: Span,
    count: &Expr,
    parts: Listed<Expr>,
    scope: &Scope,
) -> Result<Expr, AllocError>
    requires { IsWhole (names_of scope.now) (e.MultipleConcatenation span count.now parts) }
    ensures { IfOk result (λ x. sense (names_of scope.now) x ≡ sense (names_of scope.now) (e.MultipleConcatenation span count.now parts)) }
{
    let count = literal(alloc, span, count, scope)?;
    Ok(Expr::MultipleConcatenation(span, count, parts))
}

/// The expression with literals for all of its bounds, widths and counts.
#[cycle(literals)]
pub fn with_literals(alloc: Global, expr: &Expr, scope: &Scope) -> Result<Expr, AllocError>
    requires { IsWhole (names_of scope.now) expr.now }
    ensures { IfOk result (λ x. sense (names_of scope.now) x ≡ sense (names_of scope.now) expr.now) }
{
    match expr {
        Expr::Number(number) => Ok(Expr::Number(*number)),
        Expr::Name(name) => Ok(Expr::Name(name.copy(alloc)?)),
        Expr::BitSelect(name, span, index) => {
            let index = boxed(alloc, index.get(), scope)?;
            Ok(Expr::BitSelect(name.copy(alloc)?, *span, index))
        }
        Expr::PartSelect(name, span, msb, lsb) => {
            let msb = with_literals(alloc, msb.get(), scope)?;
            let lsb = with_literals(alloc, lsb.get(), scope)?;
            part_select(alloc, name, *span, &msb, &lsb, scope)
        }
        Expr::IndexedPartSelect(name, span, base, width) => {
            let base = boxed(alloc, base.get(), scope)?;
            let width = with_literals(alloc, width.get(), scope)?;
            indexed_part_select(alloc, name, *span, base, &width, scope)
        }
        Expr::Parenthesized(span, inner) => {
            let inner = boxed(alloc, inner.get(), scope)?;
            Ok(Expr::Parenthesized(*span, inner))
        }
        Expr::Unary(span, op, operand) => {
            let operand = boxed(alloc, operand.get(), scope)?;
            Ok(Expr::Unary(*span, *op, operand))
        }
        Expr::Binary(span, op, left, right) => {
            let left = boxed(alloc, left.get(), scope)?;
            let right = boxed(alloc, right.get(), scope)?;
            Ok(Expr::Binary(*span, *op, left, right))
        }
        Expr::Conditional(span, condition, yes, no) => {
            let condition = boxed(alloc, condition.get(), scope)?;
            let yes = boxed(alloc, yes.get(), scope)?;
            let no = boxed(alloc, no.get(), scope)?;
            Ok(Expr::Conditional(*span, condition, yes, no))
        }
        Expr::Concatenation(span, parts) => {
            let parts = listed(alloc, parts.as_slice(), scope)?;
            Ok(Expr::Concatenation(*span, parts))
        }
        Expr::MultipleConcatenation(span, count, parts) => {
            let count = with_literals(alloc, count.get(), scope)?;
            let parts = listed(alloc, parts.as_slice(), scope)?;
            replication(alloc, *span, &count, parts, scope)
        }
        Expr::SystemFunctionCall(name, arguments) => {
            let arguments = listed(alloc, arguments.as_slice(), scope)?;
            Ok(Expr::SystemFunctionCall(name.copy(alloc)?, arguments))
        }
    }
}

/// The same in a box.
#[cycle(literals)]
fn boxed(alloc: Global, expr: &Expr, scope: &Scope) -> Result<Boxed<Expr>, AllocError>
    requires { IsWhole (names_of scope.now) expr.now }
    ensures { IfOk result (λ x. sense (names_of scope.now) x ≡ sense (names_of scope.now) expr.now) }
{
    Boxed::new(alloc, with_literals(alloc, expr, scope)?)
}

/// The same of several expressions.
#[cycle(literals)]
fn listed(alloc: Global, exprs: &[Expr], scope: &Scope) -> Result<Listed<Expr>, AllocError>
    requires { AreWhole (names_of scope.now) exprs.now }
    ensures { IfOk result (λ l. senses (names_of scope.now) l ≡ senses (names_of scope.now) exprs.now) }
{
    let mut found = Listed::from_vec(Vec::new(alloc));
    for expr in exprs {
        found.push(with_literals(alloc, expr, scope)?)?;
    }
    Ok(found)
}
