//! The formulas of expressions, by recursion on the tree.
//!
//! A part that reads no signal becomes a number at once. What each call makes has the value of its expression (`Makes`).
ghost use Rattle.std.specs.Prelude.{◌≡◌, ◌<◌, ◌≤◌, ◌^◌, ◌+◌, ◌*◌, ◌-ℤ◌, pos, ℕ, List, [], ◌∷◌, Some, IfOk, IfSome, IsTrue};
ghost use Rattle.vlog_meaning.specs.Integers.{window};
ghost use Rattle.vlog_meaning.specs.Scopes.{Names, Store, names_of, decl_low, decl_value};
ghost use Rattle.vlog_meaning.specs.Senses.{sense, senses, own, index_of, joined, repeated, total_width, call_shape, call_value, IsWhole, AreWhole, IsWholeCall, IsContext};
ghost use Rattle.tb_formulas.specs.declared.formula.Formula.TheVariants as v;
ghost use Rattle.tb_formulas.specs.Formulas.{formula_value, FitsIn, IsFormulaOf, Serves};
ghost use Rattle.tb_formulas.specs.Made.{Makes};

use crate::formula::Formula;
use crate::parts::{fixed, indexed};
use crate::signals::{name_formula, number_formula};
use expr_plans::{bound_of, count_of, is_constant};
use std::alloc::{AllocError, Global};
use vlog_meaning::{
    Bound, Decl, Function, Scope, Shape, clog2, function_of, operand_context, part_width, shape_of,
    sizing_of, value_of,
};
use vlog_syntax::{Boxed, Expr, Identifier};

/// The number that an expression is whatever the signals are, where it reads none.
fn constant(expr: &Expr, scope: &Scope, context: Shape) -> Option<u128>
    requires whole { IsWhole (names_of scope.now) expr.now }
    requires context { IsContext (sense (names_of scope.now) expr.now).shape context }
    ensures means { IfSome result (λ n. (store : Store) → n ≡ (sense (names_of scope.now) expr.now).value store context) }
    ensures fits { IfSome result (λ n. n < 2 ^ context.width) }
{
    if is_constant(expr, scope) {
        Some(value_of(expr, scope, &[], context))
    } else {
        None
    }
}

/// What a name is declared as.
fn declared(name: &Identifier, scope: &Scope) -> Option<Decl>
    ensures { result ≡ names_of scope.now name.now.name }
{
    scope.get(name.name.as_str())
}

/// Whether a formula is the number 0.
fn is_zero(formula: &Formula) -> bool
    ensures { IsTrue result → formula.now ≡ v.Number 0 }
{
    match formula {
        Formula::Number(bits) => *bits == 0,
        _ => false,
    }
}

/// A formula in front of another, which has so many bits. The number 0 in front is left out.
fn join(alloc: Global, upper: Formula, width: u8, lower: Formula) -> Result<Formula, AllocError>
    ensures means { IfOk result (λ f. (store : Store) → formula_value f store ≡ formula_value upper store * 2 ^ width + formula_value lower store) }
    ensures fits { IfOk result (λ f. (widths : List ℕ) (k : ℕ) → k + width ≤ 128 → FitsIn widths upper k → FitsIn widths lower width → FitsIn widths f (k + width)) }
{
    if is_zero(&upper) {
        return Ok(lower);
    }
    let upper = Boxed::new(alloc, upper)?;
    Ok(Formula::Joined(upper, width, Boxed::new(alloc, lower)?))
}

/// The formula of an expression that is evaluated at a width and sign. A `$random` or `$time` in it is 0.
pub fn formula_of(
    alloc: Global,
    expr: &Expr,
    scope: &Scope,
    context: Shape,
) -> Result<Formula, AllocError>
    requires whole { IsWhole (names_of scope.now) expr.now }
    requires context { IsContext (sense (names_of scope.now) expr.now).shape context }
    ensures means { IfOk result (λ f. IsFormulaOf (names_of scope.now) expr.now context f) }
    ensures fits { IfOk result (λ f. Serves (names_of scope.now) f context.width) }
{
    formula_at(alloc, expr, scope, context)
}

/// The same.
#[cycle(formula)]
fn formula_at(
    alloc: Global,
    expr: &Expr,
    scope: &Scope,
    context: Shape,
) -> Result<Formula, AllocError>
    requires whole { IsWhole (names_of scope.now) expr.now }
    requires context { IsContext (sense (names_of scope.now) expr.now).shape context }
    ensures { IfOk result (λ f. Makes (names_of scope.now) (λ store. (sense (names_of scope.now) expr.now).value store context) context.width f) }
{
    if let Some(bits) = constant(expr, scope, context) {
        return Ok(Formula::Number(bits));
    }
    match expr {
        Expr::Number(number) => {
            let word = number.value;
            Ok(number_formula(word.width(), word.bits(), context))
        }
        Expr::Name(name) => Ok(name_formula(declared(name, scope), context)),
        Expr::BitSelect(name, _, index) => selected(alloc, name, index.get(), 1, scope),
        Expr::PartSelect(name, _, msb, lsb) => {
            let place = bound_of(lsb.get(), scope);
            let width = part_width(bound_of(msb.get(), scope), place);
            fixed(alloc, declared(name, scope), width, place)
        }
        Expr::IndexedPartSelect(name, _, base, width) => {
            selected(alloc, name, base.get(), count_of(width.get(), scope), scope)
        }
        Expr::Parenthesized(_, inner) => formula_at(alloc, inner.get(), scope, context),
        Expr::Unary(_, op, operand) => {
            let at = operand_context(*op, shape_of(operand.get(), scope), context);
            let operand = boxed(alloc, operand.get(), scope, at)?;
            Ok(Formula::Unary(*op, at, operand))
        }
        Expr::Binary(_, op, left, right) => {
            let left_shape = shape_of(left.get(), scope);
            let right_shape = shape_of(right.get(), scope);
            let sizing = sizing_of(*op);
            let left_at = sizing.left_context(left_shape, right_shape, context);
            let right_at = sizing.right_context(left_shape, right_shape, context);
            let left = boxed(alloc, left.get(), scope, left_at)?;
            let right = boxed(alloc, right.get(), scope, right_at)?;
            Ok(Formula::Binary(*op, left_at, right_at, left, right))
        }
        Expr::Conditional(_, condition, yes, no) => {
            let condition = own_boxed(alloc, condition.get(), scope)?;
            let yes = boxed(alloc, yes.get(), scope, context)?;
            let no = boxed(alloc, no.get(), scope, context)?;
            Ok(Formula::Conditional(condition, yes, no))
        }
        Expr::Concatenation(_, parts) => joined(alloc, parts.as_slice(), scope),
        Expr::MultipleConcatenation(_, times, parts) => {
            repeated(alloc, count_of(times.get(), scope), parts.as_slice(), scope)
        }
        Expr::SystemFunctionCall(name, arguments) => called(
            alloc,
            function_of(name.name.as_str()),
            arguments.as_slice(),
            scope,
            context,
        ),
    }
}

/// The same in a box.
#[cycle(formula)]
fn boxed(
    alloc: Global,
    expr: &Expr,
    scope: &Scope,
    context: Shape,
) -> Result<Boxed<Formula>, AllocError>
    requires whole { IsWhole (names_of scope.now) expr.now }
    requires context { IsContext (sense (names_of scope.now) expr.now).shape context }
    ensures { IfOk result (λ f. Makes (names_of scope.now) (λ store. (sense (names_of scope.now) expr.now).value store context) context.width f) }
{
    let formula = formula_at(alloc, expr, scope, context)?;
    Boxed::new(alloc, formula)
}

/// The formula of an expression that stands for itself.
#[cycle(formula)]
fn own_boxed(alloc: Global, expr: &Expr, scope: &Scope) -> Result<Boxed<Formula>, AllocError>
    requires { IsWhole (names_of scope.now) expr.now }
    ensures { IfOk result (λ f. Makes (names_of scope.now) (λ store. own store (sense (names_of scope.now) expr.now)) (sense (names_of scope.now) expr.now).shape.width f) }
{
    boxed(alloc, expr, scope, shape_of(expr, scope))
}

/// The formula of so many bits of a name from an index on.
#[cycle(formula)]
fn selected(
    alloc: Global,
    name: &Identifier,
    index: &Expr,
    width: u8,
    scope: &Scope,
) -> Result<Formula, AllocError>
    requires whole { IsWhole (names_of scope.now) index.now }
    requires some { 1 ≤ width }
    requires narrow { width ≤ 128 }
    ensures { IfOk result (λ f. Makes (names_of scope.now) (λ store. window (index_of store (sense (names_of scope.now) index.now) -ℤ pos (decl_low (names_of scope.now name.now.name))) width (decl_value store (names_of scope.now name.now.name))) width f) }
{
    let decl = declared(name, scope);
    let shape = shape_of(index, scope);
    if let Some(bits) = constant(index, scope, shape) {
        let place = Bound::of(shape, bits);
        return fixed(alloc, decl, width, place);
    }
    let place = boxed(alloc, index, scope, shape)?;
    Ok(indexed(decl, width, shape, place))
}

/// The formula of a concatenation.
#[cycle(formula)]
fn joined(alloc: Global, parts: &[Expr], scope: &Scope) -> Result<Formula, AllocError>
    requires whole { AreWhole (names_of scope.now) parts.now }
    requires narrow { total_width (senses (names_of scope.now) parts.now) ≤ 128 }
    ensures { IfOk result (λ f. Makes (names_of scope.now) (λ store. joined store (senses (names_of scope.now) parts.now)) (total_width (senses (names_of scope.now) parts.now)) f) }
{
    let mut made = Formula::Number(0);
    for part in parts {
        let own = shape_of(part, scope);
        let formula = formula_at(alloc, part, scope, own)?;
        made = join(alloc, made, own.width, formula)?;
    }
    Ok(made)
}

/// The formula of a replication.
#[cycle(formula)]
fn repeated(alloc: Global, times: u8, parts: &[Expr], scope: &Scope) -> Result<Formula, AllocError>
    requires whole { AreWhole (names_of scope.now) parts.now }
    requires narrow { total_width (senses (names_of scope.now) parts.now) ≤ 128 }
    requires few { times * total_width (senses (names_of scope.now) parts.now) ≤ 128 }
    ensures { IfOk result (λ f. Makes (names_of scope.now) (λ store. repeated times (total_width (senses (names_of scope.now) parts.now)) (joined store (senses (names_of scope.now) parts.now))) (times * total_width (senses (names_of scope.now) parts.now)) f) }
{
    let width = total_width(parts, scope);
    let inner = joined(alloc, parts, scope)?;
    Ok(Formula::Repeated(times, width, Boxed::new(alloc, inner)?))
}

/// The formula of a call.
#[cycle(formula)]
fn called(
    alloc: Global,
    function: Option<Function>,
    arguments: &[Expr],
    scope: &Scope,
    context: Shape,
) -> Result<Formula, AllocError>
    requires whole { IsWholeCall function (senses (names_of scope.now) arguments.now) }
    requires context { IsContext (call_shape function (senses (names_of scope.now) arguments.now)) context }
    ensures { IfOk result (λ f. Makes (names_of scope.now) (λ store. call_value function (senses (names_of scope.now) arguments.now) store context) context.width f) }
{
    if arguments.len() != 1 {
        return Ok(Formula::Number(0));
    }
    match function {
        Some(function) => called_with(alloc, function, &arguments[0], scope, context),
        None => Ok(Formula::Number(0)),
    }
}

/// The formula of a call with one argument.
#[cycle(formula)]
fn called_with(
    alloc: Global,
    function: Function,
    argument: &Expr,
    scope: &Scope,
    context: Shape,
) -> Result<Formula, AllocError>
    requires whole { IsWholeCall (Some function) (sense (names_of scope.now) argument.now ∷ []) }
    requires context { IsContext (call_shape (Some function) (sense (names_of scope.now) argument.now ∷ [])) context }
    ensures { IfOk result (λ f. Makes (names_of scope.now) (λ store. call_value (Some function) (sense (names_of scope.now) argument.now ∷ []) store context) context.width f) }
{
    match function {
        Function::Signed => {
            let own = Shape {
                width: shape_of(argument, scope).width,
                is_signed: context.is_signed,
            };
            let inner = own_boxed(alloc, argument, scope)?;
            Ok(Formula::Extended(own, context.width, inner))
        }
        Function::Unsigned => formula_at(alloc, argument, scope, shape_of(argument, scope)),
        Function::Clog2 => {
            let own = shape_of(argument, scope);
            Ok(Formula::Number(clog2(value_of(argument, scope, &[], own))))
        }
        Function::Random => Ok(Formula::Number(0)),
        Function::Time => Ok(Formula::Number(0)),
    }
}

/// The sum of the widths of expressions.
fn total_width(parts: &[Expr], scope: &Scope) -> u8
    requires whole { AreWhole (names_of scope.now) parts.now }
    requires narrow { total_width (senses (names_of scope.now) parts.now) ≤ 128 }
    ensures { result ≡ total_width (senses (names_of scope.now) parts.now) }
{
    let mut total = 0;
    for part in parts {
        total += shape_of(part, scope).width;
    }
    total
}
