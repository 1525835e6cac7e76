//! Expressions (IEEE 1364-2005, 5).
ghost use Rattle.std.specs.Prelude.{◌≡◌, IfOk};
ghost use Rattle.vlog_syntax.specs.Places.{first_token};
ghost use Rattle.vlog_syntax.specs.declared.expr.Expr.TheVariants as e;

use crate::boxed::Boxed;
use crate::identifier::{Identifier, Number};
use crate::listed::Listed;
use crate::operator::{BinaryOperator, UnaryOperator};
use mcy_base::Span;
use std::alloc::{AllocError, Global};

/// An expression.
pub enum Expr {
    Number(Number),
    Name(Identifier),
    /// `name[index]`, with the place of its `[`.
    BitSelect(Identifier, Span, Boxed<Expr>),
    /// `name[msb:lsb]`, with the place of its `[`.
    PartSelect(Identifier, Span, Boxed<Expr>, Boxed<Expr>),
    /// `name[base +: width]`, with the place of its `[`.
    IndexedPartSelect(Identifier, Span, Boxed<Expr>, Boxed<Expr>),
    /// `(expr)`, with the place of its `(`.
    Parenthesized(Span, Boxed<Expr>),
    /// An operator, with its place, before its operand.
    Unary(Span, UnaryOperator, Boxed<Expr>),
    /// An operator, with its place, between its operands.
    Binary(Span, BinaryOperator, Boxed<Expr>, Boxed<Expr>),
    /// `condition ? yes : no`, with the place of its `?`.
    Conditional(Span, Boxed<Expr>, Boxed<Expr>, Boxed<Expr>),
    /// `{a, b}`, with the place of its `{`.
    Concatenation(Span, Listed<Expr>),
    /// `{count{a, b}}`, with the place of its first `{`.
    MultipleConcatenation(Span, Boxed<Expr>, Listed<Expr>),
    /// `$name(a, b)`, or `$name` without arguments.
    SystemFunctionCall(Identifier, Listed<Expr>),
}

impl Drop for Expr {
    fn drop(self) {
        match self {
            Expr::Number(_number) => {}
            Expr::Name(_name) => {}
            Expr::BitSelect(_name, _span, _index) => {}
            Expr::PartSelect(_name, _span, _msb, _lsb) => {}
            Expr::IndexedPartSelect(_name, _span, _base, _width) => {}
            Expr::Parenthesized(_span, _inner) => {}
            Expr::Unary(_span, _operator, _operand) => {}
            Expr::Binary(_span, _operator, _left, _right) => {}
            Expr::Conditional(_span, _condition, _yes, _no) => {}
            Expr::Concatenation(_span, _parts) => {}
            Expr::MultipleConcatenation(_span, _count, _parts) => {}
            Expr::SystemFunctionCall(_name, _arguments) => {}
        }
    }
}

impl Expr {
    /// The place of the first token.
    pub fn first_token(&self) -> Span
        ensures { result ≡ first_token self.now }
    {
        match self {
            Expr::Number(number) => number.span,
            Expr::Name(name)
            | Expr::BitSelect(name, ..)
            | Expr::PartSelect(name, ..)
            | Expr::IndexedPartSelect(name, ..)
            | Expr::SystemFunctionCall(name, _) => name.span,
            Expr::Parenthesized(span, _)
            | Expr::Unary(span, ..)
            | Expr::Concatenation(span, _)
            | Expr::MultipleConcatenation(span, ..) => *span,
            Expr::Binary(_, _, left, _) => left.get().first_token(),
            Expr::Conditional(_, condition, ..) => condition.get().first_token(),
        }
    }

    /// The same expression.
    #[cycle(copy)]
    pub fn copy(&self, alloc: Global) -> Result<Expr, AllocError>
        ensures { IfOk result (λ e. e ≡ self.now) }
    {
        match self {
            Expr::Number(number) => Ok(Expr::Number(*number)),
            Expr::Name(name) => Ok(Expr::Name(name.copy(alloc)?)),
            Expr::BitSelect(name, span, index) => {
                let index = copy_boxed(alloc, index.get())?;
                bit_select(alloc, name, *span, index)
            }
            Expr::PartSelect(name, span, msb, lsb) => {
                let msb = copy_boxed(alloc, msb.get())?;
                let lsb = copy_boxed(alloc, lsb.get())?;
                part_select(alloc, name, *span, msb, lsb)
            }
            Expr::IndexedPartSelect(name, span, base, width) => {
                let base = copy_boxed(alloc, base.get())?;
                let width = copy_boxed(alloc, width.get())?;
                indexed_part_select(alloc, name, *span, base, width)
            }
            Expr::Parenthesized(span, inner) => {
                let inner = copy_boxed(alloc, inner.get())?;
                Ok(Expr::Parenthesized(*span, inner))
            }
            Expr::Unary(span, operator, operand) => {
                let operand = copy_boxed(alloc, operand.get())?;
                Ok(Expr::Unary(*span, *operator, operand))
            }
            Expr::Binary(span, operator, left, right) => {
                let left = copy_boxed(alloc, left.get())?;
                let right = copy_boxed(alloc, right.get())?;
                Ok(Expr::Binary(*span, *operator, left, right))
            }
            Expr::Conditional(span, condition, yes, no) => {
                let condition = copy_boxed(alloc, condition.get())?;
                let yes = copy_boxed(alloc, yes.get())?;
                let no = copy_boxed(alloc, no.get())?;
                Ok(Expr::Conditional(*span, condition, yes, no))
            }
            Expr::Concatenation(span, parts) => {
                let parts = copy_exprs(alloc, parts.as_slice())?;
                Ok(Expr::Concatenation(*span, parts))
            }
            Expr::MultipleConcatenation(span, count, parts) => {
                let count = copy_boxed(alloc, count.get())?;
                let parts = copy_exprs(alloc, parts.as_slice())?;
                Ok(Expr::MultipleConcatenation(*span, count, parts))
            }
            Expr::SystemFunctionCall(name, arguments) => {
                let arguments = copy_exprs(alloc, arguments.as_slice())?;
                call(alloc, name, arguments)
            }
        }
    }
}

/// The same expression in a box.
#[cycle(copy)]
pub fn copy_boxed(alloc: Global, expr: &Expr) -> Result<Boxed<Expr>, AllocError>
    ensures { IfOk result (λ b. b ≡ expr.now) }
{
    Boxed::new(alloc, expr.copy(alloc)?)
}

/// The same expressions.
#[cycle(copy)]
pub fn copy_exprs(alloc: Global, parts: &[Expr]) -> Result<Listed<Expr>, AllocError>
    ensures { IfOk result (λ l. l ≡ parts.now) }
{
    let mut copies = Listed::from_vec(Vec::new(alloc));
    for part in parts {
        copies.push(part.copy(alloc)?)?;
    }
    Ok(copies)
}

/// `name[index]` of a copy of the name.
fn bit_select(
    alloc: Global,
    name: &Identifier,
    span: Span,
    index: Boxed<Expr>,
) -> Result<Expr, AllocError>
    ensures { IfOk result (λ x. x ≡ e.BitSelect name.now span index) }
{
    Ok(Expr::BitSelect(name.copy(alloc)?, span, index))
}

/// `name[msb:lsb]` of a copy of the name.
fn part_select(
    alloc: Global,
    name: &Identifier,
    span: Span,
    msb: Boxed<Expr>,
    lsb: Boxed<Expr>,
) -> Result<Expr, AllocError>
    ensures { IfOk result (λ x. x ≡ e.PartSelect name.now span msb lsb) }
{
    Ok(Expr::PartSelect(name.copy(alloc)?, span, msb, lsb))
}

/// `name[base +: width]` of a copy of the name.
fn indexed_part_select(
    alloc: Global,
    name: &Identifier,
    span: Span,
    base: Boxed<Expr>,
    width: Boxed<Expr>,
) -> Result<Expr, AllocError>
    ensures { IfOk result (λ x. x ≡ e.IndexedPartSelect name.now span base width) }
{
    Ok(Expr::IndexedPartSelect(name.copy(alloc)?, span, base, width))
}

/// A call of a copy of the name.
fn call(alloc: Global, name: &Identifier, arguments: Listed<Expr>) -> Result<Expr, AllocError>
    ensures { IfOk result (λ x. x ≡ e.SystemFunctionCall name.now arguments) }
{
    Ok(Expr::SystemFunctionCall(name.copy(alloc)?, arguments))
}
