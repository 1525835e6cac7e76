//! One evaluation of an expression of a testbench, in a moment of its simulation.
ghost use Rattle.std.specs.Prelude.{◌≡◌, ◌<◌, ◌^◌, IfOk};
ghost use Rattle.vlog_meaning.specs.Integers.{integer, natural};
ghost use Rattle.vlog_meaning.specs.Operators.{IsSized};
ghost use Rattle.vlog_meaning.specs.Scopes.{names_of, store_of, FitsSignals};
ghost use Rattle.vlog_meaning.specs.Senses.{sense, IsWhole, IsContext};
ghost use Rattle.tb_values.specs.Values.{evaluated, condition, turns};

use crate::changing::changes;
use crate::draws::draw;
use mcy_base::Word;
use rand_pcg::Lcg64Xsh32;
use std::alloc::{AllocError, Global};
use vlog_meaning::{Bound, Scope, Shape, shape_of, value};
use vlog_syntax::Expr;

/// A moment: the names that an expression sees, the values of the signals by their numbers, and the number of the phase.
#[derive(Clone, Copy)]
pub struct Moment<'a> {
    pub alloc: Global,
    pub scope: &'a Scope,
    pub store: &'a [Word],
    pub phase: u64,
}

/// The value of an expression that has a shape, at a width and sign. Its `$random` are drawn. An expression without one takes no
/// memory.
#[tactic(auto, using(crate::proofs::Evaluating::made_value))]
pub fn evaluate(
    expr: &Expr,
    moment: &Moment<'_>,
    context: Shape,
    words: &mut Lcg64Xsh32,
) -> Result<Word, AllocError>
    requires whole { IsWhole (names_of moment.now.scope.now) expr.now }
    requires stored { FitsSignals (names_of moment.now.scope.now) moment.now.store.now }
    requires context { IsContext (sense (names_of moment.now.scope.now) expr.now).shape context }
    ensures width { IfOk result (λ w. w.width ≡ context.width) }
    ensures value { IfOk result (λ w. (w.bits, words.new) ≡ evaluated (names_of moment.now.scope.now) moment.now.phase expr.now (store_of moment.now.store.now) context words.old) }
{
    if changes(expr) {
        let drawn = draw(moment.alloc, expr, moment.phase, words)?;
        Ok(value(
            &drawn,
            moment.scope,
            moment.store,
            context.width,
            context.is_signed,
        ))
    } else {
        Ok(value(
            expr,
            moment.scope,
            moment.store,
            context.width,
            context.is_signed,
        ))
    }
}

/// Whether a condition that has a shape holds.
pub fn holds(expr: &Expr, moment: &Moment<'_>, words: &mut Lcg64Xsh32) -> Result<bool, AllocError>
    requires whole { IsWhole (names_of moment.now.scope.now) expr.now }
    requires stored { FitsSignals (names_of moment.now.scope.now) moment.now.store.now }
    ensures { IfOk result (λ b. (b, words.new) ≡ condition (names_of moment.now.scope.now) moment.now.phase expr.now (store_of moment.now.store.now) words.old) }
{
    let value = evaluate(expr, moment, shape_of(expr, moment.scope), words)?;
    Ok(value.bits() != 0)
}

/// The integer that a number is, or 0 where it is negative.
fn natural(shape: Shape, bits: u128) -> u128
    requires sized { IsSized shape }
    requires fits { bits < 2 ^ shape.width }
    ensures { result ≡ natural (integer shape bits) }
{
    let integer = Bound::of(shape, bits);
    if integer.is_negative {
        0
    } else {
        integer.magnitude
    }
}

/// How often a statement is repeated, by a count that has a shape.
pub fn count(expr: &Expr, moment: &Moment<'_>, words: &mut Lcg64Xsh32) -> Result<u128, AllocError>
    requires whole { IsWhole (names_of moment.now.scope.now) expr.now }
    requires stored { FitsSignals (names_of moment.now.scope.now) moment.now.store.now }
    ensures { IfOk result (λ n. (n, words.new) ≡ turns (names_of moment.now.scope.now) moment.now.phase expr.now (store_of moment.now.store.now) words.old) }
{
    let shape = shape_of(expr, moment.scope);
    let value = evaluate(expr, moment, shape, words)?;
    Ok(natural(shape, value.bits()))
}
