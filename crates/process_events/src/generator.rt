//! Clock generators, which a design does not have: `always #n C = ~C;`.
ghost use Rattle.std.specs.Prelude.{◌≡◌};
ghost use Rattle.vlog_syntax.specs.declared.expr.Expr.{out-Expr};
ghost use Rattle.vlog_syntax.specs.declared.left_side.LeftSide.{out-LeftSide};
ghost use Rattle.vlog_syntax.specs.declared.stmt.Stmt.{out-Stmt};
ghost use Rattle.process_events.specs.Events.{is_inversion, is_name, is_inverted, is_toggled, is_toggle};

use vlog_syntax::{Expr, LeftSide, Stmt, UnaryOperator};

/// Whether the operator is `!` or `~`.
fn is_inversion(operator: UnaryOperator) -> bool
    ensures { result ≡ is_inversion operator }
{
    match operator {
        UnaryOperator::LogicalNot | UnaryOperator::BitwiseNot => true,
        _ => false,
    }
}

/// Whether the expression is the name alone.
fn is_name(name: &str, expr: &Expr) -> bool
    ensures { result ≡ is_name name.now (out-Expr expr.now) }
{
    match expr {
        Expr::Name(identifier) => name == identifier.name.as_str(),
        _ => false,
    }
}

/// Whether the expression is the name, inverted.
fn is_inverted(name: &str, expr: &Expr) -> bool
    ensures { result ≡ is_inverted name.now (out-Expr expr.now) }
{
    match expr {
        Expr::Unary(_, operator, operand) => {
            is_inversion(*operator) && is_name(name, operand.get())
        }
        _ => false,
    }
}

/// Whether the value is the name on the left side, inverted.
fn is_toggled(left: &LeftSide, value: &Expr) -> bool
    ensures { result ≡ is_toggled (out-LeftSide left.now) value.now }
{
    match left {
        LeftSide::Name(name) => is_inverted(name.name.as_str(), value),
        _ => false,
    }
}

/// Whether the statement is `C = ~C;` or `C = !C;`.
pub(crate) fn is_toggle(stmt: &Stmt) -> bool
    ensures { result ≡ is_toggle (out-Stmt stmt.now) }
{
    match stmt {
        Stmt::BlockingAssignment(assignment) => {
            is_toggled(&assignment.left, assignment.value.get())
        }
        _ => false,
    }
}
