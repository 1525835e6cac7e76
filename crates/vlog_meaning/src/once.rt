//! Shapes, values and divisions by 0 of expressions, for which each bound, width and count is found once.
//!
//! `values` and `zeros` look at the constants of a select for its shape and again for its value, which in constants within
//! constants takes a time that is exponential in their depth. Where such stand in one another, they are asked of the expression
//! with literals, which says the same; where there is no memory for that, of the expression itself.
ghost use Rattle.std.specs.Prelude.{◌≡◌, ◌≤◌, ◌<◌, ◌^◌, IsTrue, IfSome};
ghost use Rattle.vlog_meaning.specs.declared.fault.Cause.TheVariants.{DivideByZero};
ghost use Rattle.vlog_meaning.specs.Integers.{natural, bound_integer};
ghost use Rattle.vlog_meaning.specs.Operators.{IsSized};
ghost use Rattle.vlog_meaning.specs.Scopes.{names_of, store_of, FitsSignals};
ghost use Rattle.vlog_meaning.specs.Senses.{sense, senses, own, index_of, constant_integer, IsWhole, AreWhole, IsContext, total_width};
ghost use Rattle.vlog_meaning.specs.Answers.{least_at};

use crate::bound::{Bound, count};
use crate::fault::Fault;
use crate::literals::with_literals;
use crate::nests::nests;
use crate::own::Own;
use crate::scope::Scope;
use crate::shapes::Shape;
use crate::{values, zeros};
use mcy_base::Word;
use vlog_syntax::Expr;

/// The expression with literals, where constants stand in one another and there is memory for it.
fn unnested(expr: &Expr, scope: &Scope) -> Option<Expr>
    requires { IsWhole (names_of scope.now) expr.now }
    ensures { IfSome result (λ x. sense (names_of scope.now) x ≡ sense (names_of scope.now) expr.now) }
{
    if !nests(expr, false) {
        return None;
    }
    match with_literals(scope.alloc(), expr, scope) {
        Ok(literal) => Some(literal),
        Err(_) => None,
    }
}

/// The width and sign of an expression.
pub fn shape_of(expr: &Expr, scope: &Scope) -> Shape
    requires { IsWhole (names_of scope.now) expr.now }
    ensures shape { result ≡ (sense (names_of scope.now) expr.now).shape }
    ensures sized { IsSized result }
{
    match unnested(expr, scope) {
        Some(literal) => values::shape_of(&literal, scope),
        None => values::shape_of(expr, scope),
    }
}

/// The shape and the value of an expression that stands for itself.
pub fn own_of(expr: &Expr, scope: &Scope, store: &[Word]) -> Own
    requires whole { IsWhole (names_of scope.now) expr.now }
    requires stored { FitsSignals (names_of scope.now) store.now }
    ensures shape { result.shape ≡ (sense (names_of scope.now) expr.now).shape }
    ensures sized { IsSized result.shape }
    ensures value { result.value ≡ own (store_of store.now) (sense (names_of scope.now) expr.now) }
    ensures fits { result.value < 2 ^ result.shape.width }
{
    match unnested(expr, scope) {
        Some(literal) => values::own_of(&literal, scope, store),
        None => values::own_of(expr, scope, store),
    }
}

/// The value of an expression that is evaluated at a width and sign.
pub fn value_of(expr: &Expr, scope: &Scope, store: &[Word], context: Shape) -> u128
    requires whole { IsWhole (names_of scope.now) expr.now }
    requires stored { FitsSignals (names_of scope.now) store.now }
    requires context { IsContext (sense (names_of scope.now) expr.now).shape context }
    ensures value { result ≡ (sense (names_of scope.now) expr.now).value (store_of store.now) context }
    ensures fits { result < 2 ^ context.width }
{
    match unnested(expr, scope) {
        Some(literal) => values::value_of(&literal, scope, store, context),
        None => values::value_of(expr, scope, store, context),
    }
}

/// The first division of constants by 0, where the expression is evaluated at a width and sign.
pub fn zero_in(expr: &Expr, scope: &Scope, context: Shape) -> Option<Fault>
    requires whole { IsWhole (names_of scope.now) expr.now }
    requires context { IsContext (sense (names_of scope.now) expr.now).shape context }
    ensures { result ≡ least_at DivideByZero ((sense (names_of scope.now) expr.now).zeros context) }
{
    match unnested(expr, scope) {
        Some(literal) => zeros::zero_in(&literal, scope, context),
        None => zeros::zero_in(expr, scope, context),
    }
}

/// The integer that an expression is by its sign, as an index.
pub fn index_of(expr: &Expr, scope: &Scope, store: &[Word]) -> Bound
    requires whole { IsWhole (names_of scope.now) expr.now }
    requires stored { FitsSignals (names_of scope.now) store.now }
    ensures value { bound_integer result ≡ index_of (store_of store.now) (sense (names_of scope.now) expr.now) }
    ensures small { IsTrue result.is_negative → result.magnitude ≤ 2 ^ 127 }
{
    let own = own_of(expr, scope, store);
    Bound::of(own.shape, own.value)
}

/// The integer that a constant is.
pub fn bound_of(expr: &Expr, scope: &Scope) -> Bound
    requires { IsWhole (names_of scope.now) expr.now }
    ensures value { bound_integer result ≡ constant_integer (sense (names_of scope.now) expr.now) }
    ensures small { IsTrue result.is_negative → result.magnitude ≤ 2 ^ 127 }
{
    index_of(expr, scope, &[])
}

/// The count that a constant is.
pub fn count_of(expr: &Expr, scope: &Scope) -> u128
    requires { IsWhole (names_of scope.now) expr.now }
    ensures { result ≡ natural (constant_integer (sense (names_of scope.now) expr.now)) }
{
    let own = own_of(expr, scope, &[]);
    count(own.shape, own.value)
}

/// The sum of the widths, however large.
pub fn sum_of_widths(parts: &[Expr], scope: &Scope) -> u128
    requires { AreWhole (names_of scope.now) parts.now }
    ensures { result ≡ total_width (senses (names_of scope.now) parts.now) }
{
    let mut total: u128 = 0;
    for part in parts {
        total += u128::from(shape_of(part, scope).width);
    }
    total
}
