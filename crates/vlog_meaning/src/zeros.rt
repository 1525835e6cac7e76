//! Where an expression divides constants by 0.
ghost use Rattle.std.specs.Prelude.{◌≡◌, [], ◌∷◌, if◌then◌else◌};
ghost use Rattle.vlog_meaning.specs.declared.fault.Cause.TheVariants.{DivideByZero};
ghost use Rattle.vlog_meaning.specs.Operators.{IsSized, divides_by_zero};
ghost use Rattle.vlog_meaning.specs.Scopes.{names_of};
ghost use Rattle.vlog_meaning.specs.Senses.{sense, senses, own_zeros, all_zeros, call_zeros, IsWhole, AreWhole, IsContext};
ghost use Rattle.vlog_meaning.specs.Answers.{least_at};

use crate::fault::{Cause, Fault, earlier};
use crate::function::{Function, function_of};
use crate::operator::{divides_by_zero, operand_context, sizing_of};
use crate::scope::Scope;
use crate::shapes::Shape;
use crate::values::{shape_of, value_of};
use mcy_base::Span;
use vlog_syntax::{BinaryOperator, Expr};

/// A division by 0 at an operator.
#[tactic(auto, unfolding(crate::specs::Answers::earlier, crate::specs::Answers::least))]
fn division(span: Span, op: BinaryOperator, left: u128, at: Shape, right: u128) -> Option<Fault>
    requires { IsSized at }
    ensures { result ≡ least_at DivideByZero (if divides_by_zero op left at right then span ∷ [] else []) }
{
    if divides_by_zero(op, left, at, right) {
        Some(Fault {
            cause: Cause::DivideByZero,
            span,
        })
    } else {
        None
    }
}

/// The first division of constants by 0, where the expression is evaluated at a width and sign.
#[cycle(zero)]
pub fn zero_in(expr: &Expr, scope: &Scope, context: Shape) -> Option<Fault>
    requires whole { IsWhole (names_of scope.now) expr.now }
    requires context { IsContext (sense (names_of scope.now) expr.now).shape context }
    ensures { result ≡ least_at DivideByZero ((sense (names_of scope.now) expr.now).zeros context) }
{
    match expr {
        Expr::Number(_) => None,
        Expr::Name(_) => None,
        Expr::BitSelect(_, _, index) => own_zero_in(index.get(), scope),
        Expr::PartSelect(..) => None,
        Expr::IndexedPartSelect(_, _, base, _) => own_zero_in(base.get(), scope),
        Expr::Parenthesized(_, inner) => zero_in(inner.get(), scope, context),
        Expr::Unary(_, op, operand) => {
            let at = operand_context(*op, shape_of(operand.get(), scope), context);
            zero_in(operand.get(), scope, at)
        }
        Expr::Binary(span, op, left, right) => {
            let left_shape = shape_of(left.get(), scope);
            let right_shape = shape_of(right.get(), scope);
            let sizing = sizing_of(*op);
            let left_at = sizing.left_context(left_shape, right_shape, context);
            let right_at = sizing.right_context(left_shape, right_shape, context);
            let a = value_of(left.get(), scope, &[], left_at);
            let b = value_of(right.get(), scope, &[], right_at);
            earlier(
                division(*span, *op, a, right_at, b),
                earlier(
                    zero_in(left.get(), scope, left_at),
                    zero_in(right.get(), scope, right_at),
                ),
            )
        }
        Expr::Conditional(_, condition, yes, no) => earlier(
            own_zero_in(condition.get(), scope),
            earlier(
                zero_in(yes.get(), scope, context),
                zero_in(no.get(), scope, context),
            ),
        ),
        Expr::Concatenation(_, parts) => own_zeros_in(parts.as_slice(), scope),
        Expr::MultipleConcatenation(_, _, parts) => own_zeros_in(parts.as_slice(), scope),
        Expr::SystemFunctionCall(name, arguments) => {
            zero_in_call(function_of(name.name.as_str()), arguments.as_slice(), scope)
        }
    }
}

/// The same in the arguments of a call.
#[cycle(zero)]
#[tactic(auto, unfolding(crate::specs::Answers::least))]
fn zero_in_call(function: Option<Function>, arguments: &[Expr], scope: &Scope) -> Option<Fault>
    requires { AreWhole (names_of scope.now) arguments.now }
    ensures { result ≡ least_at DivideByZero (call_zeros function (senses (names_of scope.now) arguments.now)) }
{
    match function {
        Some(Function::Clog2) => None,
        _ => own_zeros_in(arguments, scope),
    }
}

/// The same where the expression stands for itself.
#[cycle(zero)]
fn own_zero_in(expr: &Expr, scope: &Scope) -> Option<Fault>
    requires { IsWhole (names_of scope.now) expr.now }
    ensures { result ≡ least_at DivideByZero (own_zeros (sense (names_of scope.now) expr.now)) }
{
    zero_in(expr, scope, shape_of(expr, scope))
}

/// The same in several expressions.
#[cycle(zero)]
fn own_zeros_in(exprs: &[Expr], scope: &Scope) -> Option<Fault>
    requires { AreWhole (names_of scope.now) exprs.now }
    ensures { result ≡ least_at DivideByZero (all_zeros (senses (names_of scope.now) exprs.now)) }
{
    let mut found = None;
    for expr in exprs {
        found = earlier(found, own_zero_in(expr, scope));
    }
    found
}
