//! What is wrong in the statements of a testbench.
ghost use Rattle.std.specs.Prelude.{◌++◌, ◌∷◌, List, map, IfOk};
ghost use Rattle.std.specs.List.{flat_map};
ghost use Rattle.vlog_syntax.specs.declared.stmt.CaseItem.{CaseItem as Item};
ghost use Rattle.vlog_syntax.specs.declared.stmt.Stmt.{Stmt as Statement};
ghost use Rattle.vlog_refusals.specs.Cases.{labels_in};
ghost use Rattle.tb_faults.specs.declared.fault.BenchFault.{BenchFault as Reason};
ghost use Rattle.tb_faults.specs.declared.fault.BenchFault.TheVariants.{Wrong};
ghost use Rattle.tb_checks.specs.Expressions.{case_faults};
ghost use Rattle.tb_faults.specs.Order.{IsFirst};
ghost use Rattle.tb_checks.specs.Statements.{test_faults, assignment_faults, stmt_faults, item_faults};
ghost use Rattle.tb_checks.specs.Views.{rules_in};

use crate::controls::control_fault;
use crate::expressions::Values;
use crate::lefts::names_fault;
use crate::tasks::{task_fault, test_fault};
use elab_proc::same_form;
use std::alloc::{AllocError, Global};
use tb_faults::{BenchFault, earlier, wrong};
use vlog_meaning::Scope;
use vlog_refusals::{case_fault, sides_fault};
use vlog_syntax::{Assignment, CaseItem, Expr, Feature, Stmt};

/// On what the faults of statements rest: the names that they see, the name of the clock where there is a clock generator, and
/// whether they may wait, which those of an `always` behind its list may not.
#[derive(Clone, Copy)]
pub struct StatementRules<'a> {
    pub alloc: Global,
    pub scope: &'a Scope,
    pub clock: Option<&'a str>,
    pub may_wait: bool,
}

/// What is wrong first in an assignment.
pub(crate) fn assignment_fault(
    rules: &StatementRules<'_>,
    assignment: &Assignment,
) -> Result<Option<BenchFault>, AllocError>
    ensures { IfOk result (λ o. IsFirst (assignment_faults (rules_in rules.now) assignment.now) o) }
{
    let left = same_form(rules.alloc, &assignment.left)?;
    let sides = wrong(sides_fault(Values, &left, assignment.value.get(), rules.scope));
    let names = names_fault(&assignment.left, rules.scope, rules.clock);
    Ok(earlier(sides, names))
}

/// What is wrong first in a statement, by its place, if anything is.
#[cycle(walk)]
pub fn statement_fault(
    rules: &StatementRules<'_>,
    stmt: &Stmt,
) -> Result<Option<BenchFault>, AllocError>
    ensures { IfOk result (λ o. IsFirst (stmt_faults (rules_in rules.now) stmt.now) o) }
{
    match stmt {
        Stmt::Null(_) => Ok(None),
        Stmt::SeqBlock(_, _, body) => statements_fault(rules, body.as_slice()),
        Stmt::Conditional(_, condition, first, second) => {
            let chosen = first.get();
            let test = condition.get();
            let found = guarded_fault(rules, chosen, test)?;
            match second {
                Some(second) => {
                    let other = second.get();
                    fault_behind(rules, other, found)
                }
                None => Ok(found),
            }
        }
        Stmt::Case(_, _, selector, items) => {
            case_statement_fault(rules, items.as_slice(), selector.get())
        }
        Stmt::For(_, start, condition, step, body) => {
            loop_fault(rules, body.get(), start, condition.get(), step)
        }
        Stmt::While(_, condition, body) => guarded_fault(rules, body.get(), condition.get()),
        Stmt::Repeat(_, count, body) => guarded_fault(rules, body.get(), count.get()),
        Stmt::Forever(_, body) => statement_fault(rules, body.get()),
        Stmt::EventControl(at, control, body) => {
            let found = control_fault(rules.scope, rules.clock, rules.may_wait, *at, control);
            fault_behind(rules, body.get(), found)
        }
        Stmt::DelayControl(at, _, body) => {
            let found = Some(BenchFault::Unsupported(*at, Feature::Delay));
            fault_behind(rules, body.get(), found)
        }
        Stmt::SystemTaskEnable(name, arguments) => {
            task_fault(rules.alloc, rules.scope, name, arguments.as_slice())
        }
        Stmt::BlockingAssignment(assignment) => assignment_fault(rules, assignment),
        Stmt::NonblockingAssignment(assignment) => assignment_fault(rules, assignment),
    }
}

/// What is wrong first in an expression and the statement behind it.
#[cycle(walk)]
fn guarded_fault(
    rules: &StatementRules<'_>,
    body: &Stmt,
    guard: &Expr,
) -> Result<Option<BenchFault>, AllocError>
    ensures { IfOk result (λ o. IsFirst (test_faults (rules_in rules.now).names guard.now ++ stmt_faults (rules_in rules.now) body.now) o) }
{
    let first = test_fault(rules.scope, guard);
    let later = statement_fault(rules, body)?;
    Ok(earlier(first, later))
}

/// What is wrong first in a statement behind what was found before it.
#[cycle(walk)]
fn fault_behind(
    rules: &StatementRules<'_>,
    body: &Stmt,
    found: Option<BenchFault>,
) -> Result<Option<BenchFault>, AllocError>
    ensures { IfOk result (λ o. (faults : List Reason) → IsFirst faults found → IsFirst (faults ++ stmt_faults (rules_in rules.now) body.now) o) }
{
    let later = statement_fault(rules, body)?;
    Ok(earlier(found, later))
}

/// What is wrong first in several statements.
#[cycle(walk)]
pub(crate) fn statements_fault(
    rules: &StatementRules<'_>,
    body: &[Stmt],
) -> Result<Option<BenchFault>, AllocError>
    ensures { IfOk result (λ o. IsFirst (flat_map (stmt_faults (rules_in rules.now)) body.now) o) }
{
    let mut found = None;
    for stmt in body {
        found = earlier(found, statement_fault(rules, stmt)?);
    }
    Ok(found)
}

/// What is wrong first in a case.
#[cycle(walk)]
fn case_statement_fault(
    rules: &StatementRules<'_>,
    items: &[CaseItem],
    selector: &Expr,
) -> Result<Option<BenchFault>, AllocError>
    ensures { IfOk result (λ o. IsFirst (map Wrong (case_faults (rules_in rules.now).names (selector.now ∷ flat_map labels_in items.now)) ++ flat_map (λ (i : Item). (item_faults (rules_in rules.now) i).body) items.now) o) }
{
    let first = wrong(case_fault(Values, selector, items, rules.scope));
    let later = items_fault(rules, items)?;
    Ok(earlier(first, later))
}

/// What is wrong first in the statements of the items of a case.
#[cycle(walk)]
fn items_fault(
    rules: &StatementRules<'_>,
    items: &[CaseItem],
) -> Result<Option<BenchFault>, AllocError>
    ensures { IfOk result (λ o. IsFirst (flat_map (λ (i : Item). (item_faults (rules_in rules.now) i).body) items.now) o) }
{
    let mut found = None;
    for item in items {
        found = earlier(found, item_fault(rules, item)?);
    }
    Ok(found)
}

/// What is wrong first in the statement of an item of a case.
#[cycle(walk)]
fn item_fault(rules: &StatementRules<'_>, item: &CaseItem) -> Result<Option<BenchFault>, AllocError>
    ensures { IfOk result (λ o. IsFirst (item_faults (rules_in rules.now) item.now).body o) }
{
    statement_fault(rules, item.body.get())
}

/// What is wrong first in a loop with its own assignments.
#[cycle(walk)]
fn loop_fault(
    rules: &StatementRules<'_>,
    body: &Stmt,
    start: &Assignment,
    condition: &Expr,
    step: &Assignment,
) -> Result<Option<BenchFault>, AllocError>
    ensures { IfOk result (λ o. IsFirst (assignment_faults (rules_in rules.now) start.now ++ (test_faults (rules_in rules.now).names condition.now ++ (assignment_faults (rules_in rules.now) step.now ++ stmt_faults (rules_in rules.now) body.now))) o) }
{
    let first = assignment_fault(rules, start)?;
    let test = test_fault(rules.scope, condition);
    let next = assignment_fault(rules, step)?;
    let found = statement_fault(rules, body)?;
    Ok(earlier(first, earlier(test, earlier(next, found))))
}
