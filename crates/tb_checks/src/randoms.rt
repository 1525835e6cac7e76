//! Where an expression draws a random number.
ghost use Rattle.std.specs.Prelude.{◌≡◌, map};
ghost use Rattle.vlog_meaning.specs.declared.fault.Cause.TheVariants.{SystemFunction};
ghost use Rattle.vlog_meaning.specs.Answers.{least_at};
ghost use Rattle.vlog_meaning.specs.Functions.{function_of as function_named};
ghost use Rattle.tb_checks.specs.Nets.{randoms, all_randoms, call_random};

use vlog_meaning::{Cause, Fault, Function, earlier, function_of};
use vlog_syntax::{Expr, Identifier};

/// A call of `$random`.
#[tactic(auto, unfolding(vlog_meaning::specs::Answers::earlier, vlog_meaning::specs::Answers::least))]
fn call_random(name: &Identifier) -> Option<Fault>
    ensures { result ≡ least_at SystemFunction (call_random (function_named name.now.name) name.now.span) }
{
    match function_of(name.name.as_str()) {
        Some(Function::Random) => Some(Fault {
            cause: Cause::SystemFunction,
            span: name.span,
        }),
        _ => None,
    }
}

/// The first `$random` of an expression.
#[cycle(random)]
pub(crate) fn random_in(expr: &Expr) -> Option<Fault>
    ensures { result ≡ least_at SystemFunction (randoms expr.now) }
{
    match expr {
        Expr::Number(_) => None,
        Expr::Name(_) => None,
        Expr::BitSelect(_, _, index) => random_in(index.get()),
        Expr::PartSelect(_, _, msb, lsb) => earlier(random_in(msb.get()), random_in(lsb.get())),
        Expr::IndexedPartSelect(_, _, base, width) => {
            earlier(random_in(base.get()), random_in(width.get()))
        }
        Expr::Parenthesized(_, inner) => random_in(inner.get()),
        Expr::Unary(_, _, operand) => random_in(operand.get()),
        Expr::Binary(_, _, left, right) => earlier(random_in(left.get()), random_in(right.get())),
        Expr::Conditional(_, condition, yes, no) => earlier(
            random_in(condition.get()),
            earlier(random_in(yes.get()), random_in(no.get())),
        ),
        Expr::Concatenation(_, parts) => random_in_all(parts.as_slice()),
        Expr::MultipleConcatenation(_, times, parts) => {
            earlier(random_in(times.get()), random_in_all(parts.as_slice()))
        }
        Expr::SystemFunctionCall(name, arguments) => {
            earlier(call_random(name), random_in_all(arguments.as_slice()))
        }
    }
}

/// The same in several expressions.
#[cycle(random)]
fn random_in_all(exprs: &[Expr]) -> Option<Fault>
    ensures { result ≡ least_at SystemFunction (all_randoms (map randoms exprs.now)) }
{
    let mut found = None;
    for expr in exprs {
        found = earlier(found, random_in(expr));
    }
    found
}
