//! Which names statements read: those in their expressions, and in the selects of left sides.
ghost use Rattle.std.specs.Prelude.{◌≡◌, ◌||◌, map};
ghost use Rattle.std.specs.Str.{bytes_eq};
ghost use Rattle.process_events.specs.Naming.{any_of, is_named, expr_reads, left_reads, assignment_reads, argument_reads, stmt_reads, item_reads};

use vlog_syntax::{Argument, Assignment, CaseItem, Expr, Identifier, LeftSide, Stmt};

/// Whether one of two is so.
pub(crate) fn either(first: bool, second: bool) -> bool
    ensures { result ≡ (first || second) }
{
    first || second
}

/// Whether the identifier is the name.
fn is_named(name: &str, identifier: &Identifier) -> bool
    ensures { result ≡ is_named name.now identifier.now }
{
    name == identifier.name.as_str()
}

/// Whether an expression reads the name.
#[cycle(reads)]
pub fn expr_reads(name: &str, expr: &Expr) -> bool
    ensures { result ≡ expr_reads name.now expr.now }
{
    match expr {
        Expr::Number(_) => false,
        Expr::Name(n) => is_named(name, n),
        Expr::BitSelect(n, _, index) => is_named(name, n) || expr_reads(name, index.get()),
        Expr::PartSelect(n, _, msb, lsb) => {
            is_named(name, n) || expr_reads(name, msb.get()) || expr_reads(name, lsb.get())
        }
        Expr::IndexedPartSelect(n, _, base, width) => {
            is_named(name, n) || expr_reads(name, base.get()) || expr_reads(name, width.get())
        }
        Expr::Parenthesized(_, inner) => expr_reads(name, inner.get()),
        Expr::Unary(_, _, operand) => expr_reads(name, operand.get()),
        Expr::Binary(_, _, left, right) => {
            expr_reads(name, left.get()) || expr_reads(name, right.get())
        }
        Expr::Conditional(_, condition, first, second) => {
            expr_reads(name, condition.get())
                || expr_reads(name, first.get())
                || expr_reads(name, second.get())
        }
        Expr::Concatenation(_, parts) => any_expr_reads(name, parts.as_slice()),
        Expr::MultipleConcatenation(_, count, parts) => {
            expr_reads(name, count.get()) || any_expr_reads(name, parts.as_slice())
        }
        Expr::SystemFunctionCall(_, arguments) => any_expr_reads(name, arguments.as_slice()),
    }
}

/// Whether one of the expressions reads it.
#[cycle(reads)]
fn any_expr_reads(name: &str, exprs: &[Expr]) -> bool
    ensures { result ≡ any_of (map (expr_reads name.now) exprs.now) }
{
    let mut found = false;
    for expr in exprs {
        found = either(expr_reads(name, expr), found);
    }
    found
}

/// Whether a select of a left side reads it.
#[cycle(left)]
fn left_reads(name: &str, left: &LeftSide) -> bool
    ensures { result ≡ left_reads name.now left.now }
{
    match left {
        LeftSide::Name(_) => false,
        LeftSide::BitSelect(_, _, index) => expr_reads(name, index.get()),
        LeftSide::PartSelect(_, _, msb, lsb) => {
            expr_reads(name, msb.get()) || expr_reads(name, lsb.get())
        }
        LeftSide::IndexedPartSelect(_, _, base, width) => {
            expr_reads(name, base.get()) || expr_reads(name, width.get())
        }
        LeftSide::Concatenation(_, parts) => any_left_reads(name, parts.as_slice()),
    }
}

/// The same of several left sides.
#[cycle(left)]
fn any_left_reads(name: &str, parts: &[LeftSide]) -> bool
    ensures { result ≡ any_of (map (left_reads name.now) parts.now) }
{
    let mut found = false;
    for part in parts {
        found = either(left_reads(name, part), found);
    }
    found
}

/// Whether an assignment reads it.
fn assignment_reads(name: &str, assignment: &Assignment) -> bool
    ensures { result ≡ assignment_reads name.now assignment.now }
{
    left_reads(name, &assignment.left) || expr_reads(name, assignment.value.get())
}

/// Whether an argument of a system task reads it.
fn argument_reads(name: &str, argument: &Argument) -> bool
    ensures { result ≡ argument_reads name.now argument.now }
{
    match argument {
        Argument::String(..) => false,
        Argument::Expr(expr) => expr_reads(name, expr.get()),
    }
}

/// Whether one of the arguments reads it.
fn any_argument_reads(name: &str, arguments: &[Argument]) -> bool
    ensures { result ≡ any_of (map (argument_reads name.now) arguments.now) }
{
    let mut found = false;
    for argument in arguments {
        found = either(argument_reads(name, argument), found);
    }
    found
}

/// Whether a statement reads the name.
#[cycle(walk)]
pub fn stmt_reads(name: &str, stmt: &Stmt) -> bool
    ensures { result ≡ stmt_reads name.now stmt.now }
{
    match stmt {
        Stmt::Null(_) => false,
        Stmt::SeqBlock(_, _, body) => any_stmt_reads(name, body.as_slice()),
        Stmt::Conditional(_, condition, first, second) => {
            expr_reads(name, condition.get())
                || stmt_reads(name, first.get())
                || match second {
                    Some(second) => stmt_reads(name, second.get()),
                    None => false,
                }
        }
        Stmt::Case(_, _, selector, items) => {
            expr_reads(name, selector.get()) || any_item_reads(name, items.as_slice())
        }
        Stmt::For(_, start, condition, step, body) => {
            assignment_reads(name, start)
                || expr_reads(name, condition.get())
                || assignment_reads(name, step)
                || stmt_reads(name, body.get())
        }
        Stmt::While(_, value, body)
        | Stmt::Repeat(_, value, body)
        | Stmt::DelayControl(_, value, body) => {
            expr_reads(name, value.get()) || stmt_reads(name, body.get())
        }
        Stmt::Forever(_, body) | Stmt::EventControl(_, _, body) => stmt_reads(name, body.get()),
        Stmt::SystemTaskEnable(_, arguments) => any_argument_reads(name, arguments.as_slice()),
        Stmt::BlockingAssignment(assignment) | Stmt::NonblockingAssignment(assignment) => {
            assignment_reads(name, assignment)
        }
    }
}

/// Whether one of the statements reads it.
#[cycle(walk)]
fn any_stmt_reads(name: &str, body: &[Stmt]) -> bool
    ensures { result ≡ any_of (map (stmt_reads name.now) body.now) }
{
    let mut found = false;
    for stmt in body {
        found = either(stmt_reads(name, stmt), found);
    }
    found
}

/// Whether an item of a case reads it.
#[cycle(walk)]
fn item_reads(name: &str, item: &CaseItem) -> bool
    ensures { result ≡ item_reads name.now item.now }
{
    any_expr_reads(name, item.labels.as_slice()) || stmt_reads(name, item.body.get())
}

/// Whether one of the items reads it.
#[cycle(walk)]
fn any_item_reads(name: &str, items: &[CaseItem]) -> bool
    ensures { result ≡ any_of (map (item_reads name.now) items.now) }
{
    let mut found = false;
    for item in items {
        found = either(item_reads(name, item), found);
    }
    found
}
