//! What is only supported in constants: divisions and powers, and variable indices of vectors whose lowest bit is not number 0.
ghost use Rattle.std.specs.Prelude.{◌≡◌};
ghost use Rattle.vlog_meaning.specs.Answers.{least};
ghost use Rattle.vlog_meaning.specs.Scopes.{names_of};
ghost use Rattle.vlog_meaning.specs.Senses.{sense, senses, all_features};

use expr_plans::{division_unsupported, index_unsupported};
use vlog_meaning::{Fault, Scope, earlier};
use vlog_syntax::Expr;

/// The first place at which an expression holds what is only supported in constants.
#[cycle(feature)]
pub(crate) fn feature_in(expr: &Expr, scope: &Scope) -> Option<Fault>
    ensures { result ≡ least (sense (names_of scope.now) expr.now).features }
{
    match expr {
        Expr::Number(_) => None,
        Expr::Name(_) => None,
        Expr::PartSelect(..) => None,
        Expr::BitSelect(name, span, index) => earlier(
            index_unsupported(scope, name, *span, index.get()),
            feature_in(index.get(), scope),
        ),
        Expr::IndexedPartSelect(name, span, base, _) => earlier(
            index_unsupported(scope, name, *span, base.get()),
            feature_in(base.get(), scope),
        ),
        Expr::Parenthesized(_, inner) => feature_in(inner.get(), scope),
        Expr::Unary(_, _, operand) => feature_in(operand.get(), scope),
        Expr::Binary(span, op, left, right) => earlier(
            division_unsupported(scope, *span, *op, left.get(), right.get()),
            earlier(
                feature_in(left.get(), scope),
                feature_in(right.get(), scope),
            ),
        ),
        Expr::Conditional(_, condition, yes, no) => earlier(
            feature_in(condition.get(), scope),
            earlier(feature_in(yes.get(), scope), feature_in(no.get(), scope)),
        ),
        Expr::Concatenation(_, parts) => feature_in_all(parts.as_slice(), scope),
        Expr::MultipleConcatenation(_, _, parts) => feature_in_all(parts.as_slice(), scope),
        Expr::SystemFunctionCall(_, arguments) => feature_in_all(arguments.as_slice(), scope),
    }
}

/// The same in several expressions.
#[cycle(feature)]
fn feature_in_all(exprs: &[Expr], scope: &Scope) -> Option<Fault>
    ensures { result ≡ least (all_features (senses (names_of scope.now) exprs.now)) }
{
    let mut found = None;
    for expr in exprs {
        found = earlier(found, feature_in(expr, scope));
    }
    found
}
