//! Reads of the clock in expressions and left sides.
ghost use Rattle.std.specs.Prelude.{◌++◌};
ghost use Rattle.std.specs.List.{flat_map};
ghost use Rattle.elab_proc.specs.Order.{IsFirst};
ghost use Rattle.flat_clocks.specs.Reads.{expr_reads, form_reads, left_reads, assignment_reads, argument_reads};
ghost use Rattle.flat_clocks.specs.Views.{names_in};

use crate::names::ClockNames;
use elab_proc::{Refusal, earlier};
use vlog_syntax::{Argument, Assignment, Expr, LeftSide};

/// The first read in an expression.
#[cycle(expr)]
pub(crate) fn expr_read(names: &ClockNames<'_>, expr: &Expr) -> Option<Refusal>
    ensures { IsFirst (expr_reads (names_in names.now) expr.now) result }
{
    match expr {
        Expr::Number(_) => None,
        Expr::Name(name) => names.read(name),
        Expr::BitSelect(name, _, index) => {
            earlier(names.read(name), expr_read(names, index.get()))
        }
        Expr::PartSelect(name, _, msb, lsb) => {
            earlier(
                names.read(name),
                earlier(expr_read(names, msb.get()), expr_read(names, lsb.get())),
            )
        }
        Expr::IndexedPartSelect(name, _, base, width) => {
            earlier(
                names.read(name),
                earlier(expr_read(names, base.get()), expr_read(names, width.get())),
            )
        }
        Expr::Parenthesized(_, inner) => expr_read(names, inner.get()),
        Expr::Unary(_, _, operand) => expr_read(names, operand.get()),
        Expr::Binary(_, _, left, right) => {
            earlier(expr_read(names, left.get()), expr_read(names, right.get()))
        }
        Expr::Conditional(_, condition, first, second) => earlier(
            expr_read(names, condition.get()),
            earlier(
                expr_read(names, first.get()),
                expr_read(names, second.get()),
            ),
        ),
        Expr::Concatenation(_, parts) => exprs_read(names, parts.as_slice()),
        Expr::MultipleConcatenation(_, count, parts) => earlier(
            expr_read(names, count.get()),
            exprs_read(names, parts.as_slice()),
        ),
        Expr::SystemFunctionCall(_, arguments) => exprs_read(names, arguments.as_slice()),
    }
}

/// The first read in two expressions.
fn pair_read(names: &ClockNames<'_>, first: &Expr, second: &Expr) -> Option<Refusal>
    ensures { IsFirst (expr_reads (names_in names.now) first.now ++ expr_reads (names_in names.now) second.now) result }
{
    earlier(expr_read(names, first), expr_read(names, second))
}

/// The first read in several expressions.
#[cycle(expr)]
pub(crate) fn exprs_read(names: &ClockNames<'_>, exprs: &[Expr]) -> Option<Refusal>
    ensures { IsFirst (flat_map (expr_reads (names_in names.now)) exprs.now) result }
{
    let mut found = None;
    for expr in exprs {
        found = earlier(found, expr_read(names, expr));
    }
    found
}

/// The first read in an expression that stands as a left side.
#[cycle(form)]
pub(crate) fn form_read(names: &ClockNames<'_>, expr: &Expr) -> Option<Refusal>
    ensures { IsFirst (form_reads (names_in names.now) expr.now) result }
{
    match expr {
        Expr::BitSelect(_, _, index) => expr_read(names, index.get()),
        Expr::PartSelect(_, _, msb, lsb) => pair_read(names, msb.get(), lsb.get()),
        Expr::IndexedPartSelect(_, _, base, width) => { pair_read(names, base.get(), width.get()) }
        Expr::Concatenation(_, parts) => forms_read(names, parts.as_slice()),
        Expr::Number(_) => None,
        Expr::Name(_) => None,
        Expr::Parenthesized(..) => None,
        Expr::Unary(..) => None,
        Expr::Binary(..) => None,
        Expr::Conditional(..) => None,
        Expr::MultipleConcatenation(..) => None,
        Expr::SystemFunctionCall(..) => None,
    }
}

/// The first read in several expressions that stand as left sides.
#[cycle(form)]
fn forms_read(names: &ClockNames<'_>, exprs: &[Expr]) -> Option<Refusal>
    ensures { IsFirst (flat_map (form_reads (names_in names.now)) exprs.now) result }
{
    let mut found = None;
    for expr in exprs {
        found = earlier(found, form_read(names, expr));
    }
    found
}

/// The first read in the selects of a left side.
#[cycle(left)]
pub(crate) fn left_read(names: &ClockNames<'_>, left: &LeftSide) -> Option<Refusal>
    ensures { IsFirst (left_reads (names_in names.now) left.now) result }
{
    match left {
        LeftSide::Name(_) => None,
        LeftSide::BitSelect(_, _, index) => expr_read(names, index.get()),
        LeftSide::PartSelect(_, _, msb, lsb) => pair_read(names, msb.get(), lsb.get()),
        LeftSide::IndexedPartSelect(_, _, base, width) => {
            pair_read(names, base.get(), width.get())
        }
        LeftSide::Concatenation(_, parts) => lefts_read(names, parts.as_slice()),
    }
}

/// The first read in the selects of several left sides.
#[cycle(left)]
fn lefts_read(names: &ClockNames<'_>, parts: &[LeftSide]) -> Option<Refusal>
    ensures { IsFirst (flat_map (left_reads (names_in names.now)) parts.now) result }
{
    let mut found = None;
    for part in parts {
        found = earlier(found, left_read(names, part));
    }
    found
}

/// The first read in an assignment.
pub(crate) fn assignment_read(names: &ClockNames<'_>, assignment: &Assignment) -> Option<Refusal>
    ensures { IsFirst (assignment_reads (names_in names.now) assignment.now) result }
{
    earlier(
        left_read(names, &assignment.left),
        expr_read(names, assignment.value.get()),
    )
}

/// The first read in an argument of a system task.
fn argument_read(names: &ClockNames<'_>, argument: &Argument) -> Option<Refusal>
    ensures { IsFirst (argument_reads (names_in names.now) argument.now) result }
{
    match argument {
        Argument::String(..) => None,
        Argument::Expr(expr) => expr_read(names, expr.get()),
    }
}

/// The first read in several arguments.
pub(crate) fn arguments_read(names: &ClockNames<'_>, arguments: &[Argument]) -> Option<Refusal>
    ensures { IsFirst (flat_map (argument_reads (names_in names.now)) arguments.now) result }
{
    let mut found = None;
    for argument in arguments {
        found = earlier(found, argument_read(names, argument));
    }
    found
}
