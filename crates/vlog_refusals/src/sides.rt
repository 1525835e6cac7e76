//! What is wrong in the expressions of statements, each at the width and sign at which it is evaluated.
ghost use Rattle.std.specs.Prelude.{◌≡◌};
ghost use Rattle.vlog_meaning.specs.Answers.{least};
ghost use Rattle.vlog_meaning.specs.Scopes.{names_of};
ghost use Rattle.vlog_refusals.specs.Expressions.{wrong, own_faults, sides_faults};

use crate::purpose::Purpose;
use vlog_meaning::{Fault, Scope, Shape, earlier, fault_in, shape_of, zero_in};
use vlog_syntax::Expr;

/// What is wrong in an expression, or not supported in it.
pub fn wrong_in<P: Purpose>(purpose: P, expr: &Expr, scope: &Scope) -> Option<Fault>
    ensures { result ≡ least (wrong P.unsupported (names_of scope.now) expr.now) }
{
    earlier(fault_in(expr, scope), purpose.unsupported_in(expr, scope))
}

/// What is wrong in an expression that stands for itself, as a condition does.
pub fn own_fault<P: Purpose>(purpose: P, expr: &Expr, scope: &Scope) -> Option<Fault>
    ensures { result ≡ least (own_faults P.unsupported (names_of scope.now) expr.now) }
{
    match wrong_in(purpose, expr, scope) {
        Some(fault) => Some(fault),
        None => zero_in(expr, scope, shape_of(expr, scope)),
    }
}

/// What is wrong in the sides of an assignment, of which the left one is given as the expression of its form.
pub fn sides_fault<P: Purpose>(
    purpose: P,
    left: &Expr,
    right: &Expr,
    scope: &Scope,
) -> Option<Fault>
    ensures { result ≡ least (sides_faults P.unsupported (names_of scope.now) left.now right.now) }
{
    match earlier(
        wrong_in(purpose, left, scope),
        wrong_in(purpose, right, scope),
    ) {
        Some(fault) => Some(fault),
        None => {
            let to = shape_of(left, scope);
            let own = shape_of(right, scope);
            let context = Shape {
                width: own.width.max(to.width),
                is_signed: own.is_signed,
            };
            earlier(zero_in(left, scope, to), zero_in(right, scope, context))
        }
    }
}
