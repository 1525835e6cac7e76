//! The left sides of the assignments in a statement.
ghost use Rattle.std.specs.Prelude.{◌≡◌, ◌++◌, map, IfOk};
ghost use Rattle.tb_writers.specs.Lefts.{joined, stmt_lefts, case_lefts};

use flat_scopes::Lent;
use std::alloc::{AllocError, Global};
use vlog_syntax::{CaseItem, LeftSide, Stmt};

/// Adds the left sides in a statement.
#[cycle(walk)]
fn add_stmt<'a>(stmt: &'a Stmt, lefts: &mut Vec<Lent<'a, LeftSide>>) -> Result<(), AllocError>
    ensures { IfOk result (λ done. lefts.new.items ≡ lefts.old.items ++ stmt_lefts stmt.now) }
{
    match stmt {
        Stmt::Null(_) => Ok(()),
        Stmt::SeqBlock(_, _, body) => add_stmts(body.as_slice(), lefts),
        Stmt::Conditional(_, _, first, None) => add_stmt(first.get(), lefts),
        Stmt::Conditional(_, _, first, Some(second)) => {
            add_stmt(first.get(), lefts)?;
            add_stmt(second.get(), lefts)
        }
        Stmt::Case(_, _, _, items) => add_cases(items.as_slice(), lefts),
        Stmt::For(_, start, _, step, body) => {
            lefts.push(Lent::of(&start.left))?;
            lefts.push(Lent::of(&step.left))?;
            add_stmt(body.get(), lefts)
        }
        Stmt::While(_, _, body) => add_stmt(body.get(), lefts),
        Stmt::Repeat(_, _, body) => add_stmt(body.get(), lefts),
        Stmt::Forever(_, body) => add_stmt(body.get(), lefts),
        Stmt::EventControl(_, _, body) => add_stmt(body.get(), lefts),
        Stmt::DelayControl(_, _, body) => add_stmt(body.get(), lefts),
        Stmt::SystemTaskEnable(..) => Ok(()),
        Stmt::BlockingAssignment(assignment) => {
            lefts.push(Lent::of(&assignment.left))?;
            Ok(())
        }
        Stmt::NonblockingAssignment(assignment) => {
            lefts.push(Lent::of(&assignment.left))?;
            Ok(())
        }
    }
}

/// Adds those in statements.
#[cycle(walk)]
fn add_stmts<'a>(body: &'a [Stmt], lefts: &mut Vec<Lent<'a, LeftSide>>) -> Result<(), AllocError>
    ensures { IfOk result (λ done. lefts.new.items ≡ lefts.old.items ++ joined (map stmt_lefts body.now)) }
{
    for stmt in body {
        add_stmt(stmt, lefts)?;
    }
    Ok(())
}

/// Adds those in an item of a case.
#[cycle(walk)]
fn add_case<'a>(item: &'a CaseItem, lefts: &mut Vec<Lent<'a, LeftSide>>) -> Result<(), AllocError>
    ensures { IfOk result (λ done. lefts.new.items ≡ lefts.old.items ++ case_lefts item.now) }
{
    add_stmt(item.body.get(), lefts)
}

/// Adds those in the items of a case.
#[cycle(walk)]
fn add_cases<'a>(
    items: &'a [CaseItem],
    lefts: &mut Vec<Lent<'a, LeftSide>>,
) -> Result<(), AllocError>
    ensures { IfOk result (λ done. lefts.new.items ≡ lefts.old.items ++ joined (map case_lefts items.now)) }
{
    for item in items {
        add_case(item, lefts)?;
    }
    Ok(())
}

/// The left sides in a statement, in order.
pub(crate) fn stmt_lefts<'a>(
    alloc: Global,
    stmt: &'a Stmt,
) -> Result<Vec<Lent<'a, LeftSide>>, AllocError>
    ensures { IfOk result (λ lefts. lefts.items ≡ stmt_lefts stmt.now) }
{
    let mut lefts = Vec::new(alloc);
    add_stmt(stmt, &mut lefts)?;
    Ok(lefts)
}
