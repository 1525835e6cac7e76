//! Reads of the clock in statements.
ghost use Rattle.std.specs.Prelude.{◌++◌, List, IfOk};
ghost use Rattle.std.specs.List.{flat_map};
ghost use Rattle.vlog_syntax.specs.declared.left_side.LeftSide.{out-LeftSide};
ghost use Rattle.vlog_syntax.specs.declared.stmt.CaseItem.{CaseItem as Item};
ghost use Rattle.vlog_syntax.specs.declared.stmt.Stmt.{Stmt as Statement};
ghost use Rattle.vlog_effects.specs.Steps.{name_alone};
ghost use Rattle.elab_proc.specs.declared.refusal.Refusal.{Refusal as Reason};
ghost use Rattle.elab_proc.specs.Order.{IsFirst};
ghost use Rattle.flat_clocks.specs.Reads.{expr_reads, assignment_reads, turn_reads, inside, stmt_reads, item_reads};
ghost use Rattle.flat_clocks.specs.Views.{names_in};

use crate::names::{ClockNames, with_variable};
use crate::reads::{arguments_read, assignment_read, expr_read, exprs_read};
use elab_proc::{Refusal, earlier};
use std::alloc::AllocError;
use vlog_syntax::{Assignment, CaseItem, Expr, Stmt};

/// The first read in a statement.
#[cycle(walk)]
pub(crate) fn stmt_read(names: &ClockNames<'_>, stmt: &Stmt) -> Result<Option<Refusal>, AllocError>
    ensures { IfOk result (λ o. IsFirst (stmt_reads stmt.now (names_in names.now)) o) }
{
    match stmt {
        Stmt::Null(_) => Ok(None),
        Stmt::SeqBlock(_, _, body) => block_read(names, body.as_slice()),
        Stmt::Conditional(_, condition, first, second) => {
            let chosen = first.get();
            let test = condition.get();
            let found = guarded_read(names, chosen, test)?;
            match second {
                Some(second) => {
                    let other = second.get();
                    read_behind(names, other, found)
                }
                None => Ok(found),
            }
        }
        Stmt::Case(_, _, selector, items) => case_read(names, items.as_slice(), selector.get()),
        Stmt::For(_, start, condition, step, body) => {
            loop_read(names, body.get(), start, condition.get(), step)
        }
        Stmt::While(_, condition, body) => guarded_read(names, body.get(), condition.get()),
        Stmt::Repeat(_, count, body) => guarded_read(names, body.get(), count.get()),
        Stmt::Forever(_, body) => stmt_read(names, body.get()),
        Stmt::EventControl(_, _, body) => stmt_read(names, body.get()),
        Stmt::DelayControl(_, delay, body) => guarded_read(names, body.get(), delay.get()),
        Stmt::SystemTaskEnable(_, arguments) => { Ok(arguments_read(names, arguments.as_slice())) }
        Stmt::BlockingAssignment(assignment) => Ok(assignment_read(names, assignment)),
        Stmt::NonblockingAssignment(assignment) => Ok(assignment_read(names, assignment)),
    }
}

/// The first read in an expression and the statement behind it.
#[cycle(walk)]
fn guarded_read(
    names: &ClockNames<'_>,
    body: &Stmt,
    guard: &Expr,
) -> Result<Option<Refusal>, AllocError>
    ensures { IfOk result (λ o. IsFirst (expr_reads (names_in names.now) guard.now ++ stmt_reads body.now (names_in names.now)) o) }
{
    let first = expr_read(names, guard);
    let later = stmt_read(names, body)?;
    Ok(earlier(first, later))
}

/// The first read in a statement behind what was found before it.
#[cycle(walk)]
fn read_behind(
    names: &ClockNames<'_>,
    body: &Stmt,
    found: Option<Refusal>,
) -> Result<Option<Refusal>, AllocError>
    ensures { IfOk result (λ o. (reads : List Reason) → IsFirst reads found → IsFirst (reads ++ stmt_reads body.now (names_in names.now)) o) }
{
    let later = stmt_read(names, body)?;
    Ok(earlier(found, later))
}

/// The first read in the statements of a block.
#[cycle(walk)]
fn block_read(names: &ClockNames<'_>, body: &[Stmt]) -> Result<Option<Refusal>, AllocError>
    ensures { IfOk result (λ o. IsFirst (flat_map (λ (s : Statement). stmt_reads s (names_in names.now)) body.now) o) }
{
    let mut found = None;
    for stmt in body {
        found = earlier(found, stmt_read(names, stmt)?);
    }
    Ok(found)
}

/// The first read in a case.
#[cycle(walk)]
fn case_read(
    names: &ClockNames<'_>,
    items: &[CaseItem],
    selector: &Expr,
) -> Result<Option<Refusal>, AllocError>
    ensures { IfOk result (λ o. IsFirst (expr_reads (names_in names.now) selector.now ++ flat_map (λ (i : Item). item_reads i (names_in names.now)) items.now) o) }
{
    let first = expr_read(names, selector);
    let later = items_read(names, items)?;
    Ok(earlier(first, later))
}

/// The first read in the items of a case.
#[cycle(walk)]
fn items_read(names: &ClockNames<'_>, items: &[CaseItem]) -> Result<Option<Refusal>, AllocError>
    ensures { IfOk result (λ o. IsFirst (flat_map (λ (i : Item). item_reads i (names_in names.now)) items.now) o) }
{
    let mut found = None;
    for item in items {
        found = earlier(found, item_read(names, item)?);
    }
    Ok(found)
}

/// The first read in an item of a case.
#[cycle(walk)]
fn item_read(names: &ClockNames<'_>, item: &CaseItem) -> Result<Option<Refusal>, AllocError>
    ensures { IfOk result (λ o. IsFirst (item_reads item.now (names_in names.now)) o) }
{
    let labels = exprs_read(names, item.labels.as_slice());
    let body = stmt_read(names, item.body.get())?;
    Ok(earlier(labels, body))
}

/// The first read in a loop, whose variable is no clock but in its start.
#[cycle(walk)]
fn loop_read(
    names: &ClockNames<'_>,
    body: &Stmt,
    start: &Assignment,
    condition: &Expr,
    step: &Assignment,
) -> Result<Option<Refusal>, AllocError>
    ensures { IfOk result (λ o. IsFirst (assignment_reads (names_in names.now) start.now ++ turn_reads condition.now step.now (stmt_reads body.now) (inside (name_alone (out-LeftSide start.now.left)) (names_in names.now))) o) }
{
    let first = assignment_read(names, start);
    let variables = with_variable(names.variables, &start.left)?;
    let inner = ClockNames {
        clocks: names.clocks,
        scope: names.scope,
        variables: &variables,
    };
    let later = turn_read(&inner, body, condition, step)?;
    Ok(earlier(first, later))
}

/// The first read in the turns of a loop.
#[cycle(walk)]
fn turn_read(
    names: &ClockNames<'_>,
    body: &Stmt,
    condition: &Expr,
    step: &Assignment,
) -> Result<Option<Refusal>, AllocError>
    ensures { IfOk result (λ o. IsFirst (turn_reads condition.now step.now (stmt_reads body.now) (names_in names.now)) o) }
{
    let test = expr_read(names, condition);
    let next = assignment_read(names, step);
    let found = stmt_read(names, body)?;
    Ok(earlier(test, earlier(next, found)))
}
