//! Where an expression reads signals, which a constant does not.
ghost use Rattle.std.specs.Prelude.{◌≡◌, None};
ghost use Rattle.vlog_meaning.specs.Functions.{function_of as function_named};
ghost use Rattle.vlog_meaning.specs.Scopes.{names_of};
ghost use Rattle.vlog_meaning.specs.Senses.{sense, senses, name_signals, all_signals, call_signals};
ghost use Rattle.vlog_meaning.specs.Answers.{least};

use crate::fault::{Cause, Fault, earlier};
use crate::function::{Function, function_of};
use crate::scope::{Decl, Scope};
use vlog_syntax::{Expr, Identifier};

/// A name that is a signal's.
#[tactic(auto, unfolding(crate::specs::Answers::earlier, crate::specs::Answers::least))]
fn name_signal(scope: &Scope, name: &Identifier) -> Option<Fault>
    ensures { result ≡ least (name_signals name.now.span (names_of scope.now name.now.name)) }
{
    match scope.get(name.name.as_str()) {
        Some(Decl::Signal { .. }) => Some(Fault {
            cause: Cause::NotConstant,
            span: name.span,
        }),
        Some(Decl::Constant { .. }) | None => None,
    }
}

/// A call that changes from one evaluation to the next.
#[tactic(auto, unfolding(crate::specs::Answers::earlier, crate::specs::Answers::least))]
fn call_signal(name: &Identifier) -> Option<Fault>
    ensures { result ≡ least (call_signals (function_named name.now.name) name.now.span) }
{
    match function_of(name.name.as_str()) {
        Some(Function::Random) | Some(Function::Time) => Some(Fault {
            cause: Cause::Drawn,
            span: name.span,
        }),
        _ => None,
    }
}

/// What first makes the expression no constant: a signal that is read, or a call that has another value each time.
#[cycle(signal)]
pub fn signal_in(expr: &Expr, scope: &Scope) -> Option<Fault>
    ensures { result ≡ least (sense (names_of scope.now) expr.now).signals }
{
    match expr {
        Expr::Number(_) => None,
        Expr::Name(name) => name_signal(scope, name),
        Expr::BitSelect(name, _, index) => {
            earlier(name_signal(scope, name), signal_in(index.get(), scope))
        }
        Expr::PartSelect(name, _, msb, lsb) => earlier(
            name_signal(scope, name),
            earlier(signal_in(msb.get(), scope), signal_in(lsb.get(), scope)),
        ),
        Expr::IndexedPartSelect(name, _, base, width) => earlier(
            name_signal(scope, name),
            earlier(signal_in(base.get(), scope), signal_in(width.get(), scope)),
        ),
        Expr::Parenthesized(_, inner) => signal_in(inner.get(), scope),
        Expr::Unary(_, _, operand) => signal_in(operand.get(), scope),
        Expr::Binary(_, _, left, right) => {
            earlier(signal_in(left.get(), scope), signal_in(right.get(), scope))
        }
        Expr::Conditional(_, condition, yes, no) => earlier(
            signal_in(condition.get(), scope),
            earlier(signal_in(yes.get(), scope), signal_in(no.get(), scope)),
        ),
        Expr::Concatenation(_, parts) => signal_in_all(parts.as_slice(), scope),
        Expr::MultipleConcatenation(_, times, parts) => earlier(
            signal_in(times.get(), scope),
            signal_in_all(parts.as_slice(), scope),
        ),
        Expr::SystemFunctionCall(name, arguments) => earlier(
            call_signal(name),
            signal_in_all(arguments.as_slice(), scope),
        ),
    }
}

/// The same in several expressions.
#[cycle(signal)]
fn signal_in_all(exprs: &[Expr], scope: &Scope) -> Option<Fault>
    ensures { result ≡ least (all_signals (senses (names_of scope.now) exprs.now)) }
{
    let mut found = None;
    for expr in exprs {
        found = earlier(found, signal_in(expr, scope));
    }
    found
}
