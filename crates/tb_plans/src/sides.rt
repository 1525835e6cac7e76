//! Plans of assignments.
ghost use Rattle.std.specs.Prelude.{◌≡◌, IfOk, Some, true};
ghost use Rattle.vlog_meaning.specs.declared.function.Function.TheVariants.{Random};
ghost use Rattle.vlog_meaning.specs.Functions.{function_of as function_named};
ghost use Rattle.vlog_meaning.specs.Scopes.{names_of};
ghost use Rattle.vlog_meaning.specs.Senses.{sense, IsContext};
ghost use Rattle.vlog_effects.specs.LeftSides.{parts_of};
ghost use Rattle.tb_assigns.specs.Updates.{CanAssign};
ghost use Rattle.tb_plans.specs.Making.{context_is, IsTargetOf};
ghost use Rattle.tb_plans.specs.Transfers.{OfTransfer, OfWriting};
ghost use Rattle.tb_plans.specs.Values.{IsRandom};

use crate::left::target_of;
use crate::target::Target;
use crate::transfer::{Draw, Transfer, Writing};
use crate::value::value_of;
use std::alloc::{AllocError, Global};
use tb_assigns::{context_of, left_width};
use vlog_meaning::{Function, Scope, Shape, function_of};
use vlog_syntax::{Assignment, Expr, Identifier};

/// Whether a name is `$random`.
fn is_named_random(name: &Identifier) -> bool
    ensures { result ≡ true → function_named name.now.name ≡ Some Random }
{
    matches!(function_of(name.name.as_str()), Some(Function::Random))
}

/// Whether an expression is `$random` alone.
fn is_random(expr: &Expr) -> bool
    ensures { result ≡ true → IsRandom expr.now }
{
    match expr {
        Expr::SystemFunctionCall(name, arguments) => {
            let is_bare = arguments.as_slice().is_empty();
            is_bare && is_named_random(name)
        }
        _ => false,
    }
}

/// The width and sign of an assignment.
fn assignment_context(assignment: &Assignment, scope: &Scope) -> Shape
    requires { CanAssign (names_of scope.now) assignment.now }
    ensures size { result ≡ context_is (names_of scope.now) assignment.now }
    ensures context { IsContext (sense (names_of scope.now) assignment.now.value).shape result }
{
    let width = left_width(&assignment.left, scope);
    context_of(assignment.value.get(), width, scope)
}

/// The plan of an assignment to a target, at its width and sign.
fn writing_to(
    alloc: Global,
    assignment: &Assignment,
    context: Shape,
    target: Target,
    scope: &Scope,
) -> Result<Option<Writing>, AllocError>
    requires can { CanAssign (names_of scope.now) assignment.now }
    requires size { context ≡ context_is (names_of scope.now) assignment.now }
    requires context { IsContext (sense (names_of scope.now) assignment.now.value).shape context }
    requires target { IsTargetOf (names_of scope.now) (parts_of assignment.now.left) context.width target }
    ensures { IfOk result (λ w. OfWriting (names_of scope.now) assignment.now w) }
{
    let right = assignment.value.get();
    if is_random(right) {
        return Ok(Some(Writing::Draw(Draw { context, target })));
    }
    match value_of(alloc, right, context, scope)? {
        Some(value) => Ok(Some(Writing::Transfer(Transfer { value, target }))),
        None => Ok(None),
    }
}

/// The plan of an assignment, where there is one.
pub(crate) fn writing_of(
    alloc: Global,
    assignment: &Assignment,
    scope: &Scope,
) -> Result<Option<Writing>, AllocError>
    requires { CanAssign (names_of scope.now) assignment.now }
    ensures { IfOk result (λ w. OfWriting (names_of scope.now) assignment.now w) }
{
    let context = assignment_context(assignment, scope);
    match target_of(alloc, &assignment.left, context.width, scope)? {
        Some(target) => writing_to(alloc, assignment, context, target, scope),
        None => Ok(None),
    }
}

/// The same where it draws nothing.
pub(crate) fn transfer_of(
    alloc: Global,
    assignment: &Assignment,
    scope: &Scope,
) -> Result<Option<Transfer>, AllocError>
    requires { CanAssign (names_of scope.now) assignment.now }
    ensures { IfOk result (λ t. OfTransfer (names_of scope.now) assignment.now t) }
{
    match writing_of(alloc, assignment, scope)? {
        Some(Writing::Transfer(transfer)) => Ok(Some(transfer)),
        _ => Ok(None),
    }
}
