//! Plans of statements.
ghost use Rattle.std.specs.Prelude.{IfOk};
ghost use Rattle.vlog_meaning.specs.Scopes.{names_of};
ghost use Rattle.vlog_meaning.specs.Senses.{IsWhole};
ghost use Rattle.tb_machine.specs.Known.{IsKnown, AllKnown};
ghost use Rattle.tb_assigns.specs.Updates.{CanAssign};
ghost use Rattle.tb_plans.specs.Making.{IsNodePlan};
ghost use Rattle.tb_plans.specs.Plans.{ArePlans};
ghost use Rattle.tb_plans.specs.Selections.{OfCondition};
ghost use Rattle.tb_plans.specs.Transfers.{OfWriting};

use crate::choices::selection_of;
use crate::plan::{Loop, Plan};
use crate::sides::writing_of;
use crate::value::condition_of;
use std::alloc::{AllocError, Global};
use tb_machine::Node;
use vlog_meaning::Scope;
use vlog_syntax::{Assignment, Boxed, Expr};

/// The plans of the parts of a `for`.
fn loop_of(
    alloc: Global,
    first: &Assignment,
    condition: &Expr,
    step: &Assignment,
    scope: &Scope,
) -> Result<Loop, AllocError>
    requires start { CanAssign (names_of scope.now) first.now }
    requires condition { IsWhole (names_of scope.now) condition.now }
    requires step { CanAssign (names_of scope.now) step.now }
    ensures start { IfOk result (λ l. OfWriting (names_of scope.now) first.now l.start) }
    ensures condition { IfOk result (λ l. OfCondition (names_of scope.now) condition.now l.condition) }
    ensures step { IfOk result (λ l. OfWriting (names_of scope.now) step.now l.step) }
{
    let start = writing_of(alloc, first, scope)?;
    let condition = condition_of(alloc, condition, scope)?;
    let step = writing_of(alloc, step, scope)?;
    Ok(Loop {
        start,
        condition,
        step,
    })
}

/// The plan of a statement.
fn plan_of(alloc: Global, node: &Node, scope: &Scope) -> Result<Plan, AllocError>
    requires { IsKnown (IsWhole (names_of scope.now)) (CanAssign (names_of scope.now)) (λ name arguments. Unit {0}) node.now }
    ensures { IfOk result (λ p. IsNodePlan (names_of scope.now) node.now p) }
{
    match node {
        Node::Conditional(condition, _, _) => {
            let plan = condition_of(alloc, condition, scope)?;
            Ok(plan.map_or(Plan::Nothing, Plan::Condition))
        }
        Node::While(condition, _) => {
            let plan = condition_of(alloc, condition, scope)?;
            Ok(plan.map_or(Plan::Nothing, Plan::Condition))
        }
        Node::Case(kind, selector, items) => {
            let plan = selection_of(alloc, *kind, selector, items.as_slice(), scope)?;
            Ok(plan.map_or(Plan::Nothing, Plan::Choice))
        }
        Node::For(start, condition, step, _) => {
            let plans = loop_of(alloc, start, condition, step, scope)?;
            Ok(Plan::Loop(Boxed::new(alloc, plans)?))
        }
        Node::Blocking(assignment) => {
            let plan = writing_of(alloc, assignment, scope)?;
            Ok(plan.map_or(Plan::Nothing, Plan::Writing))
        }
        Node::Nonblocking(assignment) => {
            let plan = writing_of(alloc, assignment, scope)?;
            Ok(plan.map_or(Plan::Nothing, Plan::Writing))
        }
        _ => Ok(Plan::Nothing),
    }
}

/// The plans of statements, by their numbers.
pub fn plan_all(alloc: Global, scope: &Scope, nodes: &[Node]) -> Result<Vec<Plan>, AllocError>
    requires { AllKnown (IsWhole (names_of scope.now)) (CanAssign (names_of scope.now)) (λ name arguments. Unit {0}) nodes.now }
    ensures { IfOk result (λ ps. ArePlans (names_of scope.now) nodes.now ps.items) }
{
    let mut plans = Vec::new(alloc);
    for node in nodes {
        plans.push(plan_of(alloc, node, scope)?)?;
    }
    Ok(plans)
}
