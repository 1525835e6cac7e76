//! Constants in expressions: the places and counts that they are.
ghost use Rattle.std.specs.Prelude.{◌≡◌, ◌≤◌, ◌^◌, IsTrue};
ghost use Rattle.vlog_meaning.specs.Integers.{natural, bound_integer};
ghost use Rattle.vlog_meaning.specs.Scopes.{names_of};
ghost use Rattle.vlog_meaning.specs.Senses.{sense, constant_integer, is_empty, IsWhole};
ghost use Rattle.expr_plans.specs.Made.{index_width};

use vlog_meaning::{Bound, Scope, Shape, shape_of, signal_in, value_of};
use vlog_syntax::Expr;

/// Whether the expression reads no signal, so that it makes no cell.
#[tactic(auto, using(crate::proofs::Plans::none_read))]
pub fn is_constant(expr: &Expr, scope: &Scope) -> bool
    ensures { result ≡ is_empty (sense (names_of scope.now) expr.now).signals }
{
    signal_in(expr, scope).is_none()
}

/// The integer that a constant bound or index is, by its own sign (IEEE 1364-2005, 4.1.14 and 5.2.1).
pub fn bound_of(expr: &Expr, scope: &Scope) -> Bound
    requires { IsWhole (names_of scope.now) expr.now }
    ensures value { bound_integer result ≡ constant_integer (sense (names_of scope.now) expr.now) }
    ensures small { IsTrue result.is_negative → result.magnitude ≤ 2 ^ 127 }
{
    let own = shape_of(expr, scope);
    Bound::of(own, value_of(expr, scope, &[], own))
}

/// The width of an index at a cell: a signed one has at least 9 bits there, so that what is below 0 lies outside of each vector.
pub fn index_width(own: Shape) -> u8
    ensures { result ≡ index_width own }
{
    if own.is_signed && own.width < 9 {
        9
    } else {
        own.width
    }
}

/// The count that a constant is, where it is at most 128. A negative one counts nothing.
pub fn count_of(expr: &Expr, scope: &Scope) -> u8
    requires whole { IsWhole (names_of scope.now) expr.now }
    requires few { natural (constant_integer (sense (names_of scope.now) expr.now)) ≤ 128 }
    ensures { result ≡ natural (constant_integer (sense (names_of scope.now) expr.now)) }
{
    let bound = bound_of(expr, scope);
    if bound.is_negative {
        0
    } else {
        bound.magnitude as u8
    }
}
