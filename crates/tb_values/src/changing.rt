//! Whether an expression holds a call that changes from one evaluation to the next.
ghost use Rattle.std.specs.Prelude.{◌≡◌, ◌||◌, map};
ghost use Rattle.vlog_meaning.specs.Functions.{function_of as function_named};
ghost use Rattle.tb_values.specs.Draws.{any_of, is_changing, changes};

use vlog_meaning::{Function, function_of};
use vlog_syntax::{Expr, Identifier};

/// Whether one of two is so.
fn either(first: bool, second: bool) -> bool
    ensures { result ≡ (first || second) }
{
    first || second
}

/// Whether it is the name of such a call.
fn is_changing(name: &Identifier) -> bool
    ensures { result ≡ is_changing (function_named name.now.name) }
{
    match function_of(name.name.as_str()) {
        Some(Function::Random) | Some(Function::Time) => true,
        _ => false,
    }
}

/// Whether an expression holds `$random` or `$time`.
#[cycle(changes)]
pub fn changes(expr: &Expr) -> bool
    ensures { result ≡ changes expr.now }
{
    match expr {
        Expr::Number(_) | Expr::Name(_) => false,
        Expr::BitSelect(_, _, index) => changes(index.get()),
        Expr::PartSelect(_, _, msb, lsb) => changes(msb.get()) || changes(lsb.get()),
        Expr::IndexedPartSelect(_, _, base, width) => changes(base.get()) || changes(width.get()),
        Expr::Parenthesized(_, inner) => changes(inner.get()),
        Expr::Unary(_, _, operand) => changes(operand.get()),
        Expr::Binary(_, _, left, right) => changes(left.get()) || changes(right.get()),
        Expr::Conditional(_, condition, yes, no) => {
            changes(condition.get()) || changes(yes.get()) || changes(no.get())
        }
        Expr::Concatenation(_, parts) => any_changes(parts.as_slice()),
        Expr::MultipleConcatenation(_, count, parts) => {
            changes(count.get()) || any_changes(parts.as_slice())
        }
        Expr::SystemFunctionCall(name, arguments) => {
            is_changing(name) || any_changes(arguments.as_slice())
        }
    }
}

/// Whether one of the expressions does.
#[cycle(changes)]
fn any_changes(exprs: &[Expr]) -> bool
    ensures { result ≡ any_of (map changes exprs.now) }
{
    let mut found = false;
    for expr in exprs {
        found = either(changes(expr), found);
    }
    found
}
