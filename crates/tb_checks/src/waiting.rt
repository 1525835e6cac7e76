//! Waits in statements.
ghost use Rattle.std.specs.Prelude.{◌≡◌, map};
ghost use Rattle.tb_checks.specs.Starts.{any_of, waits as has_wait, item_waits};

use vlog_syntax::{CaseItem, Stmt};

/// Whether a wait stands in a statement.
#[cycle(waits)]
pub(crate) fn waits(stmt: &Stmt) -> bool
    ensures { result ≡ has_wait stmt.now }
{
    match stmt {
        Stmt::Null(_) => false,
        Stmt::SeqBlock(_, _, body) => one_waits(body.as_slice()),
        Stmt::Conditional(_, _, first, None) => waits(first.get()),
        Stmt::Conditional(_, _, first, Some(second)) => waits(first.get()) || waits(second.get()),
        Stmt::Case(_, _, _, items) => one_item_waits(items.as_slice()),
        Stmt::For(_, _, _, _, body) => waits(body.get()),
        Stmt::While(_, _, body) => waits(body.get()),
        Stmt::Repeat(_, _, body) => waits(body.get()),
        Stmt::Forever(_, body) => waits(body.get()),
        Stmt::EventControl(..) => true,
        Stmt::DelayControl(..) => true,
        Stmt::SystemTaskEnable(..) => false,
        Stmt::BlockingAssignment(_) => false,
        Stmt::NonblockingAssignment(_) => false,
    }
}

/// Whether one stands in one of statements.
#[cycle(waits)]
fn one_waits(body: &[Stmt]) -> bool
    ensures { result ≡ any_of (map has_wait body.now) }
{
    for stmt in body {
        if waits(stmt) {
            return true;
        }
    }
    false
}

/// Whether one stands in the statement of an item of a case.
#[cycle(waits)]
fn item_waits(item: &CaseItem) -> bool
    ensures { result ≡ item_waits item.now }
{
    waits(item.body.get())
}

/// Whether one stands in one of the items of a case.
#[cycle(waits)]
fn one_item_waits(items: &[CaseItem]) -> bool
    ensures { result ≡ any_of (map item_waits items.now) }
{
    for item in items {
        if item_waits(item) {
            return true;
        }
    }
    false
}
