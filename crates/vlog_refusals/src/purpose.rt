//! What expressions are for, on which it rests what is not supported in them.
ghost use Rattle.std.specs.Prelude.{◌≡◌, List};
ghost use Rattle.vlog_syntax.specs.declared.expr.Expr.{Expr as Expression};
ghost use Rattle.vlog_meaning.specs.declared.fault.Fault.{Fault as Wrong};
ghost use Rattle.vlog_meaning.specs.Answers.{least};
ghost use Rattle.vlog_meaning.specs.Scopes.{Names, names_of};

use vlog_meaning::{Fault, Scope};
use vlog_syntax::Expr;

/// What expressions are for.
pub trait Purpose: Copy {
    // what is not supported in an expression
    ghost unsupported: { Names → Expression → List Wrong };

    /// What is not supported first in an expression.
    fn unsupported_in(self, expr: &Expr, scope: &Scope) -> Option<Fault>
        ensures { result ≡ least (unsupported (names_of scope.now) expr.now) };
}
