//! Formulas of expressions that draw nothing.
ghost use Rattle.std.specs.Prelude.{IfOk};
ghost use Rattle.vlog_meaning.specs.Scopes.{names_of};
ghost use Rattle.vlog_meaning.specs.Senses.{sense, IsWhole, IsContext};
ghost use Rattle.tb_plans.specs.Selections.{OfCondition};
ghost use Rattle.tb_plans.specs.Values.{OfValue};

use std::alloc::{AllocError, Global};
use tb_formulas::{Formula, formula_of};
use tb_values::changes;
use vlog_meaning::{Scope, Shape, shape_of};
use vlog_syntax::Expr;

/// The formula of an expression at a width and sign, if it draws nothing.
pub(crate) fn value_of(
    alloc: Global,
    expr: &Expr,
    context: Shape,
    scope: &Scope,
) -> Result<Option<Formula>, AllocError>
    requires whole { IsWhole (names_of scope.now) expr.now }
    requires context { IsContext (sense (names_of scope.now) expr.now).shape context }
    ensures { IfOk result (λ f. OfValue (names_of scope.now) expr.now context f) }
{
    if changes(expr) {
        return Ok(None);
    }
    let formula = formula_of(alloc, expr, scope, context)?;
    Ok(Some(formula))
}

/// The same where the expression stands for itself.
pub(crate) fn own_value_of(
    alloc: Global,
    expr: &Expr,
    scope: &Scope,
) -> Result<Option<Formula>, AllocError>
    requires whole { IsWhole (names_of scope.now) expr.now }
    ensures { IfOk result (λ f. OfValue (names_of scope.now) expr.now (sense (names_of scope.now) expr.now).shape f) }
{
    let shape = shape_of(expr, scope);
    value_of(alloc, expr, shape, scope)
}

/// The formula of a condition, if it draws nothing.
pub(crate) fn condition_of(
    alloc: Global,
    condition: &Expr,
    scope: &Scope,
) -> Result<Option<Formula>, AllocError>
    requires whole { IsWhole (names_of scope.now) condition.now }
    ensures { IfOk result (λ f. OfCondition (names_of scope.now) condition.now f) }
{
    let formula = own_value_of(alloc, condition, scope)?;
    Ok(formula)
}
