//! What is wrong in the expressions of a testbench.
ghost use Rattle.std.specs.Prelude.{◌≡◌};
ghost use Rattle.vlog_meaning.specs.Answers.{least};
ghost use Rattle.vlog_meaning.specs.Scopes.{names_of};
ghost use Rattle.tb_checks.specs.Expressions.{not_supported, own_faults};

use crate::features::feature_in;
use vlog_meaning::{Fault, Scope};
use vlog_refusals::Purpose;
use vlog_syntax::Expr;

/// Expressions that a testbench evaluates.
#[derive(Clone, Copy)]
pub(crate) struct Values;

impl Purpose for Values {
    ghost unsupported = { λ names x. not_supported names x };

    fn unsupported_in(self, expr: &Expr, scope: &Scope) -> Option<Fault> {
        feature_in(expr, scope)
    }
}

/// What is wrong in an expression that stands for itself, as a condition does.
pub fn own_fault(expr: &Expr, scope: &Scope) -> Option<Fault>
    ensures { result ≡ least (own_faults (names_of scope.now) expr.now) }
{
    vlog_refusals::own_fault(Values, expr, scope)
}
