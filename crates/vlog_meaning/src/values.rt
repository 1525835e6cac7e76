//! The shape of an expression, and its value at a width and sign.
//!
//! Both are asked of an expression that has a shape: one in which nothing is wrong.
ghost use Rattle.std.specs.Prelude.{◌≡◌, ◌≤◌, ◌<◌, ◌^◌, IsTrue};
ghost use Rattle.vlog_meaning.specs.Integers.{natural, bound_integer};
ghost use Rattle.vlog_meaning.specs.Operators.{IsSized};
ghost use Rattle.vlog_meaning.specs.Scopes.{names_of, store_of, FitsSignals};
ghost use Rattle.vlog_meaning.specs.Senses.{sense, senses, own, index_of, constant_integer, IsWhole, AreWhole, IsWholeCall, IsContext, total_width, joined, unsigned, call_shape, call_value};

use crate::bound::{Bound, count, part_width, window};
use crate::function::{Function, function_of};
use crate::integer::{clog2, extend, shift_left};
use crate::operator::{
    BIT, binary_value, joint, operand_context, sizing_of, unary_shape, unary_value,
};
use crate::own::{Own, indexed_of, name_shape, name_value, part_of, times_of, unary_of, unsigned};
use crate::scope::Scope;
use crate::shapes::Shape;
use mcy_base::Word;
use vlog_syntax::Expr;

/// The width and sign of an expression.
#[cycle(value)]
pub fn shape_of(expr: &Expr, scope: &Scope) -> Shape
    requires { IsWhole (names_of scope.now) expr.now }
    ensures shape { result ≡ (sense (names_of scope.now) expr.now).shape }
    ensures sized { IsSized result }
{
    match expr {
        Expr::Number(number) => Shape {
            width: number.value.width(),
            is_signed: number.is_signed,
        },
        Expr::Name(name) => name_shape(scope, name),
        Expr::BitSelect(..) => BIT,
        Expr::PartSelect(_, _, msb, lsb) => {
            let msb = bound_of(msb.get(), scope);
            unsigned(part_width(msb, bound_of(lsb.get(), scope)))
        }
        Expr::IndexedPartSelect(_, _, _, width) => unsigned(count_of(width.get(), scope) as u8),
        Expr::Parenthesized(_, inner) => shape_of(inner.get(), scope),
        Expr::Unary(_, op, operand) => unary_shape(*op, shape_of(operand.get(), scope)),
        Expr::Binary(_, op, left, right) => sizing_of(*op).pair_shape(
            shape_of(left.get(), scope),
            shape_of(right.get(), scope),
        ),
        Expr::Conditional(_, _, yes, no) => joint(
            shape_of(yes.get(), scope),
            shape_of(no.get(), scope),
        ),
        Expr::Concatenation(_, parts) => unsigned(total_width(parts.as_slice(), scope)),
        Expr::MultipleConcatenation(_, times, parts) => {
            let times = count_of(times.get(), scope) as u8;
            unsigned(times * total_width(parts.as_slice(), scope))
        }
        Expr::SystemFunctionCall(name, arguments) => {
            call_shape(function_of(name.name.as_str()), arguments.as_slice(), scope)
        }
    }
}

/// The width and sign of a call.
#[cycle(value)]
#[tactic(auto, using(crate::proofs::Whole::argument_whole))]
fn call_shape(function: Option<Function>, arguments: &[Expr], scope: &Scope) -> Shape
    requires { IsWholeCall function (senses (names_of scope.now) arguments.now) }
    ensures shape { result ≡ call_shape function (senses (names_of scope.now) arguments.now) }
    ensures sized { IsSized result }
{
    match (function, arguments) {
        (Some(Function::Signed), [argument]) => Shape {
            width: shape_of(argument, scope).width,
            is_signed: true,
        },
        (Some(Function::Unsigned), [argument]) => unsigned(shape_of(argument, scope).width),
        (Some(Function::Time), []) => unsigned(64),
        _ => Shape {
            width: 32,
            is_signed: true,
        },
    }
}

/// The shape and the value of an expression that stands for itself: those of each constant in its selects and counts
/// are found once.
#[cycle(value)]
#[tactic(auto, using(crate::proofs::Contexts::operand_own))]
pub fn own_of(expr: &Expr, scope: &Scope, store: &[Word]) -> Own
    requires whole { IsWhole (names_of scope.now) expr.now }
    requires stored { FitsSignals (names_of scope.now) store.now }
    ensures shape { result.shape ≡ (sense (names_of scope.now) expr.now).shape }
    ensures sized { IsSized result.shape }
    ensures value { result.value ≡ own (store_of store.now) (sense (names_of scope.now) expr.now) }
    ensures fits { result.value < 2 ^ result.shape.width }
{
    match expr {
        Expr::PartSelect(name, _, msb, lsb) => {
            let msb = bound_of(msb.get(), scope);
            part_of(name, msb, bound_of(lsb.get(), scope), scope, store)
        }
        Expr::IndexedPartSelect(name, _, base, width) => {
            let width = count_of(width.get(), scope) as u8;
            let at = index_of(base.get(), scope, store);
            indexed_of(name, at, width, scope, store)
        }
        Expr::Parenthesized(_, inner) => own_of(inner.get(), scope, store),
        Expr::Unary(_, op, operand) => unary_of(*op, own_of(operand.get(), scope, store)),
        Expr::Concatenation(_, parts) => joined(parts.as_slice(), scope, store),
        Expr::MultipleConcatenation(_, times, parts) => {
            let times = count_of(times.get(), scope) as u8;
            times_of(times, joined(parts.as_slice(), scope, store))
        }
        _ => {
            let shape = shape_of(expr, scope);
            let value = value_of(expr, scope, store, shape);
            Own { shape, value }
        }
    }
}

/// The value of an expression that stands for itself.
#[cycle(value)]
fn own_value(expr: &Expr, scope: &Scope, store: &[Word]) -> u128
    requires whole { IsWhole (names_of scope.now) expr.now }
    requires stored { FitsSignals (names_of scope.now) store.now }
    ensures value { result ≡ own (store_of store.now) (sense (names_of scope.now) expr.now) }
    ensures fits { result < 2 ^ (sense (names_of scope.now) expr.now).shape.width }
{
    own_of(expr, scope, store).value
}

/// The integer that an expression is by its sign, as an index.
#[cycle(value)]
fn index_of(expr: &Expr, scope: &Scope, store: &[Word]) -> Bound
    requires whole { IsWhole (names_of scope.now) expr.now }
    requires stored { FitsSignals (names_of scope.now) store.now }
    ensures value { bound_integer result ≡ index_of (store_of store.now) (sense (names_of scope.now) expr.now) }
    ensures small { IsTrue result.is_negative → result.magnitude ≤ 2 ^ 127 }
{
    let own = own_of(expr, scope, store);
    Bound::of(own.shape, own.value)
}

/// The integer that a constant is.
#[cycle(value)]
fn bound_of(expr: &Expr, scope: &Scope) -> Bound
    requires { IsWhole (names_of scope.now) expr.now }
    ensures value { bound_integer result ≡ constant_integer (sense (names_of scope.now) expr.now) }
    ensures small { IsTrue result.is_negative → result.magnitude ≤ 2 ^ 127 }
{
    index_of(expr, scope, &[])
}

/// The count that a constant is.
#[cycle(value)]
fn count_of(expr: &Expr, scope: &Scope) -> u128
    requires { IsWhole (names_of scope.now) expr.now }
    ensures { result ≡ natural (constant_integer (sense (names_of scope.now) expr.now)) }
{
    let own = own_of(expr, scope, &[]);
    count(own.shape, own.value)
}

/// The sum of the widths.
#[cycle(value)]
fn total_width(parts: &[Expr], scope: &Scope) -> u8
    requires whole { AreWhole (names_of scope.now) parts.now }
    requires narrow { total_width (senses (names_of scope.now) parts.now) ≤ 128 }
    ensures { result ≡ total_width (senses (names_of scope.now) parts.now) }
{
    let mut total = 0;
    for part in parts {
        total += shape_of(part, scope).width;
    }
    total
}

/// The value of an expression that is evaluated at a width and sign.
#[cycle(value)]
pub fn value_of(expr: &Expr, scope: &Scope, store: &[Word], context: Shape) -> u128
    requires whole { IsWhole (names_of scope.now) expr.now }
    requires stored { FitsSignals (names_of scope.now) store.now }
    requires context { IsContext (sense (names_of scope.now) expr.now).shape context }
    ensures value { result ≡ (sense (names_of scope.now) expr.now).value (store_of store.now) context }
    ensures fits { result < 2 ^ context.width }
{
    match expr {
        Expr::Number(number) => {
            let own = Shape {
                width: number.value.width(),
                is_signed: context.is_signed,
            };
            extend(own, number.value.bits(), context.width)
        }
        Expr::Name(name) => {
            let own = Shape {
                width: name_shape(scope, name).width,
                is_signed: context.is_signed,
            };
            extend(own, name_value(scope, store, name), context.width)
        }
        Expr::Parenthesized(_, inner) => value_of(inner.get(), scope, store, context),
        Expr::BitSelect(name, _, index) => {
            let place = index_of(index.get(), scope, store);
            let whole = name_value(scope, store, name);
            window(whole, place, scope.low_of(name.name.as_str()), 1)
        }
        Expr::PartSelect(name, _, msb, lsb) => {
            let msb = bound_of(msb.get(), scope);
            let lsb = bound_of(lsb.get(), scope);
            let whole = name_value(scope, store, name);
            window(
                whole,
                lsb,
                scope.low_of(name.name.as_str()),
                part_width(msb, lsb),
            )
        }
        Expr::IndexedPartSelect(name, _, base, width) => {
            let width = count_of(width.get(), scope) as u8;
            let place = index_of(base.get(), scope, store);
            let whole = name_value(scope, store, name);
            window(whole, place, scope.low_of(name.name.as_str()), width)
        }
        Expr::Unary(_, op, operand) => {
            let at = operand_context(*op, shape_of(operand.get(), scope), context);
            unary_value(*op, at, value_of(operand.get(), scope, store, at))
        }
        Expr::Binary(_, op, left, right) => {
            let left_shape = shape_of(left.get(), scope);
            let right_shape = shape_of(right.get(), scope);
            let sizing = sizing_of(*op);
            let left_at = sizing.left_context(left_shape, right_shape, context);
            let right_at = sizing.right_context(left_shape, right_shape, context);
            let left = value_of(left.get(), scope, store, left_at);
            let right = value_of(right.get(), scope, store, right_at);
            binary_value(*op, left_at, left, right_at, right)
        }
        Expr::Conditional(_, condition, yes, no) => {
            if own_value(condition.get(), scope, store) == 0 {
                value_of(no.get(), scope, store, context)
            } else {
                value_of(yes.get(), scope, store, context)
            }
        }
        Expr::Concatenation(_, parts) => joined(parts.as_slice(), scope, store).value,
        Expr::MultipleConcatenation(_, times, parts) => {
            let times = count_of(times.get(), scope) as u8;
            times_of(times, joined(parts.as_slice(), scope, store)).value
        }
        Expr::SystemFunctionCall(name, arguments) => call_value(
            function_of(name.name.as_str()),
            arguments.as_slice(),
            scope,
            store,
            context,
        ),
    }
}

/// The value of a call.
#[cycle(value)]
#[tactic(auto, using(crate::proofs::Whole::argument_whole, crate::proofs::Whole::unsigned_fits, crate::proofs::Whole::clog2_fits, crate::proofs::Whole::clog2_value))]
fn call_value(
    function: Option<Function>,
    arguments: &[Expr],
    scope: &Scope,
    store: &[Word],
    context: Shape,
) -> u128
    requires whole { IsWholeCall function (senses (names_of scope.now) arguments.now) }
    requires stored { FitsSignals (names_of scope.now) store.now }
    requires context { IsContext (call_shape function (senses (names_of scope.now) arguments.now)) context }
    ensures value { result ≡ call_value function (senses (names_of scope.now) arguments.now) (store_of store.now) context }
    ensures fits { result < 2 ^ context.width }
{
    match (function, arguments) {
        (Some(Function::Signed), [argument]) => {
            let own = Shape {
                width: shape_of(argument, scope).width,
                is_signed: context.is_signed,
            };
            extend(own, own_value(argument, scope, store), context.width)
        }
        (Some(Function::Unsigned), [argument]) => own_value(argument, scope, store),
        (Some(Function::Clog2), [argument]) => clog2(own_value(argument, scope, &[])),
        _ => 0,
    }
}

/// The width and the value of a concatenation.
#[cycle(value)]
fn joined(parts: &[Expr], scope: &Scope, store: &[Word]) -> Own
    requires whole { AreWhole (names_of scope.now) parts.now }
    requires narrow { total_width (senses (names_of scope.now) parts.now) ≤ 128 }
    requires stored { FitsSignals (names_of scope.now) store.now }
    ensures shape { result.shape ≡ unsigned (total_width (senses (names_of scope.now) parts.now)) }
    ensures value { result.value ≡ joined (store_of store.now) (senses (names_of scope.now) parts.now) }
    ensures fits { result.value < 2 ^ result.shape.width }
{
    let mut width: u8 = 0;
    let mut value = 0;
    for part in parts {
        let own = own_of(part, scope, store);
        width += own.shape.width;
        value = shift_left(value, u128::from(own.shape.width), 128) + own.value;
    }
    Own {
        shape: unsigned(width),
        value,
    }
}
