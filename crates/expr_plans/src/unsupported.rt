//! What is not supported in an expression that makes cells.
ghost use Rattle.std.specs.Prelude.{◌≡◌, ◌++◌, ◌&&◌};
ghost use Rattle.vlog_meaning.specs.Functions.{function_of as function_named};
ghost use Rattle.vlog_meaning.specs.Scopes.{names_of};
ghost use Rattle.vlog_meaning.specs.Senses.{sense, is_empty, is_division, index_features, binary_features};
ghost use Rattle.vlog_meaning.specs.Answers.{least};
ghost use Rattle.expr_plans.specs.Made.{plan, plans, all_unsupported, call_unsupported, base_features};

use crate::constant::is_constant;
use mcy_base::Span;
use vlog_meaning::{Cause, Fault, Function, Scope, earlier, fault_in, function_of, shape_of};
use vlog_syntax::{BinaryOperator, Expr, Identifier};

/// A variable index of a vector whose lowest bit is not number 0.
#[tactic(auto, unfolding(vlog_meaning::specs::Answers::earlier, vlog_meaning::specs::Answers::least))]
pub fn index_unsupported(
    scope: &Scope,
    name: &Identifier,
    span: Span,
    index: &Expr,
) -> Option<Fault>
    ensures { result ≡ least (index_features span (names_of scope.now name.now.name) (sense (names_of scope.now) index.now)) }
{
    if scope.low_of(name.name.as_str()) == 0 || is_constant(index, scope) {
        None
    } else {
        Some(Fault {
            cause: Cause::IndexedBase,
            span,
        })
    }
}

/// Whether nothing is wrong in an expression, and it is signed.
#[tactic(auto, using(crate::proofs::Plans::none_wrong, crate::proofs::Plans::none_told))]
fn is_signed(expr: &Expr, scope: &Scope) -> bool
    ensures { result ≡ (is_empty (sense (names_of scope.now) expr.now).faults && (sense (names_of scope.now) expr.now).shape.is_signed) }
{
    fault_in(expr, scope).is_none() && shape_of(expr, scope).is_signed
}

/// A variable base of a vector whose lowest bit is not number 0, or one that is signed.
#[tactic(auto, unfolding(vlog_meaning::specs::Answers::earlier, vlog_meaning::specs::Answers::least))]
fn base_unsupported(scope: &Scope, name: &Identifier, span: Span, base: &Expr) -> Option<Fault>
    ensures { result ≡ least (base_features span (names_of scope.now name.now.name) (sense (names_of scope.now) base.now)) }
{
    let from_0 = scope.low_of(name.name.as_str()) == 0;
    if is_constant(base, scope) || (from_0 && !is_signed(base, scope)) {
        None
    } else {
        Some(Fault {
            cause: Cause::IndexedBase,
            span,
        })
    }
}

/// Whether the operator is supported in constants alone.
fn is_division(op: BinaryOperator) -> bool
    ensures { result ≡ is_division op }
{
    match op {
        BinaryOperator::Power | BinaryOperator::Divide | BinaryOperator::Modulus => true,
        BinaryOperator::Multiply
        | BinaryOperator::Add
        | BinaryOperator::Subtract
        | BinaryOperator::LogicalShiftLeft
        | BinaryOperator::LogicalShiftRight
        | BinaryOperator::ArithmeticShiftLeft
        | BinaryOperator::ArithmeticShiftRight
        | BinaryOperator::Less
        | BinaryOperator::LessEqual
        | BinaryOperator::Greater
        | BinaryOperator::GreaterEqual
        | BinaryOperator::LogicalEquality
        | BinaryOperator::LogicalInequality
        | BinaryOperator::CaseEquality
        | BinaryOperator::CaseInequality
        | BinaryOperator::BitwiseAnd
        | BinaryOperator::BitwiseXor
        | BinaryOperator::BitwiseXnor
        | BinaryOperator::BitwiseOr
        | BinaryOperator::LogicalAnd
        | BinaryOperator::LogicalOr => false,
    }
}

/// A division or power of what is no constant.
#[tactic(auto, using(crate::proofs::Plans::both_empty), unfolding(vlog_meaning::specs::Answers::earlier, vlog_meaning::specs::Answers::least))]
pub fn division_unsupported(
    scope: &Scope,
    span: Span,
    op: BinaryOperator,
    left: &Expr,
    right: &Expr,
) -> Option<Fault>
    ensures { result ≡ least (binary_features span op (sense (names_of scope.now) left.now) (sense (names_of scope.now) right.now)) }
{
    if is_division(op) && !(is_constant(left, scope) && is_constant(right, scope)) {
        Some(Fault {
            cause: Cause::DivideOrPower,
            span,
        })
    } else {
        None
    }
}

/// The first place at which an expression holds what is not supported where it is no constant.
#[cycle(unsupported)]
pub fn unsupported_in(expr: &Expr, scope: &Scope) -> Option<Fault>
    ensures { result ≡ least (plan (names_of scope.now) expr.now).unsupported }
{
    match expr {
        Expr::Number(_) => None,
        Expr::Name(_) => None,
        Expr::PartSelect(..) => None,
        Expr::BitSelect(name, span, index) => earlier(
            index_unsupported(scope, name, *span, index.get()),
            unsupported_in(index.get(), scope),
        ),
        Expr::IndexedPartSelect(name, span, base, _) => earlier(
            base_unsupported(scope, name, *span, base.get()),
            unsupported_in(base.get(), scope),
        ),
        Expr::Parenthesized(_, inner) => unsupported_in(inner.get(), scope),
        Expr::Unary(_, _, operand) => unsupported_in(operand.get(), scope),
        Expr::Binary(span, op, left, right) => earlier(
            division_unsupported(scope, *span, *op, left.get(), right.get()),
            earlier(
                unsupported_in(left.get(), scope),
                unsupported_in(right.get(), scope),
            ),
        ),
        Expr::Conditional(_, condition, yes, no) => earlier(
            unsupported_in(condition.get(), scope),
            earlier(
                unsupported_in(yes.get(), scope),
                unsupported_in(no.get(), scope),
            ),
        ),
        Expr::Concatenation(_, parts) | Expr::MultipleConcatenation(_, _, parts) => {
            unsupported_in_all(parts.as_slice(), scope)
        }
        Expr::SystemFunctionCall(name, arguments) => {
            unsupported_in_call(name, arguments.as_slice(), scope)
        }
    }
}

/// The same in a call.
#[cycle(unsupported)]
#[tactic(auto, unfolding(vlog_meaning::specs::Answers::earlier, vlog_meaning::specs::Answers::least))]
fn unsupported_in_call(name: &Identifier, arguments: &[Expr], scope: &Scope) -> Option<Fault>
    ensures { result ≡ least (call_unsupported (function_named name.now.name) name.now.span (plans (names_of scope.now) arguments.now)) }
{
    match function_of(name.name.as_str()) {
        Some(Function::Random) | Some(Function::Time) => Some(Fault {
            cause: Cause::SystemFunction,
            span: name.span,
        }),
        Some(Function::Signed) | Some(Function::Unsigned) | Some(Function::Clog2) | None => {
            unsupported_in_all(arguments, scope)
        }
    }
}

/// The same in several expressions.
#[cycle(unsupported)]
fn unsupported_in_all(exprs: &[Expr], scope: &Scope) -> Option<Fault>
    ensures { result ≡ least (all_unsupported (plans (names_of scope.now) exprs.now)) }
{
    let mut found = None;
    for expr in exprs {
        found = earlier(found, unsupported_in(expr, scope));
    }
    found
}
