//! What is wrong in the expressions of statements, each at the width and sign at which it is evaluated.
ghost use Rattle.std.specs.Prelude.{◌≡◌};
ghost use Rattle.vlog_meaning.specs.Answers.{least};
ghost use Rattle.vlog_meaning.specs.Scopes.{names_of};
ghost use Rattle.elab_proc.specs.Refusals.{not_supported, wrong, own_faults};

use vlog_meaning::{Fault, Scope};
use vlog_refusals::Purpose;
use vlog_syntax::Expr;

/// Expressions that become cells.
#[derive(Clone, Copy)]
pub(crate) struct Cells;

impl Purpose for Cells {
    ghost unsupported = { λ names x. not_supported names x };

    fn unsupported_in(self, expr: &Expr, scope: &Scope) -> Option<Fault> {
        expr_plans::unsupported_in(expr, scope)
    }
}

/// What is wrong in an expression, or not supported in it.
pub fn wrong_in(expr: &Expr, scope: &Scope) -> Option<Fault>
    ensures { result ≡ least (wrong (names_of scope.now) expr.now) }
{
    vlog_refusals::wrong_in(Cells, expr, scope)
}

/// What is wrong in an expression that stands for itself.
pub fn own_fault(expr: &Expr, scope: &Scope) -> Option<Fault>
    ensures { result ≡ least (own_faults (names_of scope.now) expr.now) }
{
    vlog_refusals::own_fault(Cells, expr, scope)
}
