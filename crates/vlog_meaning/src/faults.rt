//! What is wrong in an expression: the first fault, by place.
ghost use Rattle.std.specs.Prelude.{◌≡◌, ◌*◌, ◌++◌};
ghost use Rattle.vlog_meaning.specs.Integers.{natural, bound_integer};
ghost use Rattle.vlog_meaning.specs.Scopes.{names_of};
ghost use Rattle.vlog_meaning.specs.Senses.{sense, senses, name_faults, range_faults, sized, counted, all_faults, call_faults, constant_faults, not_constant, constant_integer, total_width, or_else};
ghost use Rattle.vlog_meaning.specs.Answers.{least};

use crate::bound::{Bound, is_below, is_narrow};
use crate::fault::{Cause, Fault, earlier};
use crate::function::{Function, function_of};
use crate::once::{bound_of, count_of, shape_of, sum_of_widths, zero_in};
use crate::scope::{Decl, Scope};
use crate::signals::signal_in;
use mcy_base::Span;
use vlog_syntax::{Expr, Identifier};

/// A part that has not from 1 to 128 bits.
#[tactic(auto, unfolding(crate::specs::Answers::earlier, crate::specs::Answers::least))]
fn sized(span: Span, width: u128) -> Option<Fault>
    ensures { result ≡ least (sized span width) }
{
    if width < 1 || width > 128 {
        Some(Fault {
            cause: Cause::TooWide,
            span,
        })
    } else {
        None
    }
}

/// The same of a replication, which has so many bits times a count.
#[tactic(auto, unfolding(crate::specs::Answers::earlier, crate::specs::Answers::least))]
fn product_sized(span: Span, times: u128, width: u128) -> Option<Fault>
    ensures { result ≡ least (sized span (times * width)) }
{
    match times.checked_mul(width) {
        Some(product) => sized(span, product),
        None => Some(Fault {
            cause: Cause::TooWide,
            span,
        }),
    }
}

/// A replication with a count below 1.
#[tactic(auto, unfolding(crate::specs::Answers::earlier, crate::specs::Answers::least))]
fn counted(span: Span, times: u128) -> Option<Fault>
    ensures { result ≡ least (counted span times) }
{
    if times == 0 {
        Some(Fault {
            cause: Cause::TooWide,
            span,
        })
    } else {
        None
    }
}

/// What is wrong with a name.
#[tactic(auto, unfolding(crate::specs::Answers::earlier, crate::specs::Answers::least))]
fn name_fault(scope: &Scope, name: &Identifier) -> Option<Fault>
    ensures { result ≡ least (name_faults name.now.span (names_of scope.now name.now.name)) }
{
    match scope.get(name.name.as_str()) {
        Some(Decl::Signal { width, .. }) => sized(name.span, u128::from(width)),
        Some(Decl::Constant { .. }) => None,
        None => Some(Fault {
            cause: Cause::Unknown,
            span: name.span,
        }),
    }
}

/// What is wrong with the bounds of a part select.
#[tactic(auto, unfolding(crate::specs::Answers::earlier, crate::specs::Answers::least))]
fn bounds_fault(span: Span, msb: Bound, lsb: Bound) -> Option<Fault>
    ensures { result ≡ least (range_faults span (bound_integer msb) (bound_integer lsb)) }
{
    if is_below(msb, lsb) {
        Some(Fault {
            cause: Cause::RangeForm,
            span,
        })
    } else if is_narrow(msb, lsb) {
        None
    } else {
        Some(Fault {
            cause: Cause::TooWide,
            span,
        })
    }
}

/// What is wrong with the bounds of a part select, of which `found` is wrong as constants.
#[tactic(auto, using(crate::proofs::Refusals::kept, crate::proofs::Refusals::passed, crate::proofs::Refusals::bounds_first, crate::proofs::Refusals::bounds_second))]
fn range_fault(
    span: Span,
    msb: &Expr,
    lsb: &Expr,
    scope: &Scope,
    found: Option<Fault>,
) -> Option<Fault>
    requires { found ≡ least (constant_faults (sense (names_of scope.now) msb.now) ++ constant_faults (sense (names_of scope.now) lsb.now)) }
    ensures { result ≡ least (or_else (constant_faults (sense (names_of scope.now) msb.now) ++ constant_faults (sense (names_of scope.now) lsb.now)) (range_faults span (constant_integer (sense (names_of scope.now) msb.now)) (constant_integer (sense (names_of scope.now) lsb.now)))) }
{
    match found {
        Some(fault) => Some(fault),
        None => bounds_fault(span, bound_of(msb, scope), bound_of(lsb, scope)),
    }
}

/// What is wrong with the width of an indexed part select, of which `found` is wrong as a constant.
#[tactic(auto, using(crate::proofs::Refusals::kept, crate::proofs::Refusals::passed, crate::proofs::Refusals::constant_is_whole))]
fn width_fault(span: Span, width: &Expr, scope: &Scope, found: Option<Fault>) -> Option<Fault>
    requires { found ≡ least (constant_faults (sense (names_of scope.now) width.now)) }
    ensures { result ≡ least (or_else (constant_faults (sense (names_of scope.now) width.now)) (sized span (natural (constant_integer (sense (names_of scope.now) width.now))))) }
{
    match found {
        Some(fault) => Some(fault),
        None => sized(span, count_of(width, scope)),
    }
}

/// What is wrong with the count of a replication, of which `found` is wrong as a constant.
#[tactic(auto, using(crate::proofs::Refusals::kept, crate::proofs::Refusals::passed, crate::proofs::Refusals::constant_is_whole))]
fn count_fault(span: Span, times: &Expr, scope: &Scope, found: Option<Fault>) -> Option<Fault>
    requires { found ≡ least (constant_faults (sense (names_of scope.now) times.now)) }
    ensures { result ≡ least (or_else (constant_faults (sense (names_of scope.now) times.now)) (counted span (natural (constant_integer (sense (names_of scope.now) times.now))))) }
{
    match found {
        Some(fault) => Some(fault),
        None => counted(span, count_of(times, scope)),
    }
}

/// What is wrong with a concatenation, of whose parts `found` is wrong.
#[tactic(auto, using(crate::proofs::Refusals::kept, crate::proofs::Refusals::passed, crate::proofs::Refusals::parts_are_whole))]
fn concatenation_fault(
    span: Span,
    parts: &[Expr],
    scope: &Scope,
    found: Option<Fault>,
) -> Option<Fault>
    requires { found ≡ least (all_faults (senses (names_of scope.now) parts.now)) }
    ensures { result ≡ least (or_else (all_faults (senses (names_of scope.now) parts.now)) (sized span (total_width (senses (names_of scope.now) parts.now)))) }
{
    match found {
        Some(fault) => Some(fault),
        None => sized(span, sum_of_widths(parts, scope)),
    }
}

/// What is wrong with a replication, of whose count and parts `found` is wrong.
#[tactic(auto, using(crate::proofs::Refusals::kept, crate::proofs::Refusals::passed, crate::proofs::Refusals::times_is_whole, crate::proofs::Refusals::times_parts_whole))]
fn replication_fault(
    span: Span,
    times: &Expr,
    parts: &[Expr],
    scope: &Scope,
    found: Option<Fault>,
) -> Option<Fault>
    requires { found ≡ least (or_else (constant_faults (sense (names_of scope.now) times.now)) (counted span (natural (constant_integer (sense (names_of scope.now) times.now)))) ++ all_faults (senses (names_of scope.now) parts.now)) }
    ensures { result ≡ least (or_else (or_else (constant_faults (sense (names_of scope.now) times.now)) (counted span (natural (constant_integer (sense (names_of scope.now) times.now)))) ++ all_faults (senses (names_of scope.now) parts.now)) (sized span (natural (constant_integer (sense (names_of scope.now) times.now)) * total_width (senses (names_of scope.now) parts.now)))) }
{
    match found {
        Some(fault) => Some(fault),
        None => product_sized(span, count_of(times, scope), sum_of_widths(parts, scope)),
    }
}

/// Why an expression is no constant, of which `found` is wrong or not constant: else its first division by 0.
#[tactic(auto, using(crate::proofs::Refusals::kept, crate::proofs::Refusals::passed, crate::proofs::Refusals::rest_is_whole))]
fn division_fault(expr: &Expr, scope: &Scope, found: Option<Fault>) -> Option<Fault>
    requires { found ≡ least (not_constant (sense (names_of scope.now) expr.now)) }
    ensures { result ≡ least (constant_faults (sense (names_of scope.now) expr.now)) }
{
    match found {
        Some(fault) => Some(fault),
        None => zero_in(expr, scope, shape_of(expr, scope)),
    }
}

/// The first fault of an expression, for which it has no shape.
#[cycle(fault)]
pub fn fault_in(expr: &Expr, scope: &Scope) -> Option<Fault>
    ensures { result ≡ least (sense (names_of scope.now) expr.now).faults }
{
    match expr {
        Expr::Number(_) => None,
        Expr::Name(name) => name_fault(scope, name),
        Expr::BitSelect(name, _, index) => {
            earlier(name_fault(scope, name), fault_in(index.get(), scope))
        }
        Expr::PartSelect(name, span, msb, lsb) => {
            let found = earlier(
                constant_fault(msb.get(), scope),
                constant_fault(lsb.get(), scope),
            );
            earlier(
                name_fault(scope, name),
                range_fault(*span, msb.get(), lsb.get(), scope, found),
            )
        }
        Expr::IndexedPartSelect(name, span, base, width) => {
            let found = constant_fault(width.get(), scope);
            earlier(
                name_fault(scope, name),
                earlier(
                    fault_in(base.get(), scope),
                    width_fault(*span, width.get(), scope, found),
                ),
            )
        }
        Expr::Parenthesized(_, inner) => fault_in(inner.get(), scope),
        Expr::Unary(_, _, operand) => fault_in(operand.get(), scope),
        Expr::Binary(_, _, left, right) => {
            earlier(fault_in(left.get(), scope), fault_in(right.get(), scope))
        }
        Expr::Conditional(_, condition, yes, no) => earlier(
            fault_in(condition.get(), scope),
            earlier(fault_in(yes.get(), scope), fault_in(no.get(), scope)),
        ),
        Expr::Concatenation(span, parts) => {
            let found = fault_in_all(parts.as_slice(), scope);
            concatenation_fault(*span, parts.as_slice(), scope, found)
        }
        Expr::MultipleConcatenation(span, times, parts) => {
            let count = constant_fault(times.get(), scope);
            let found = earlier(
                count_fault(*span, times.get(), scope, count),
                fault_in_all(parts.as_slice(), scope),
            );
            replication_fault(*span, times.get(), parts.as_slice(), scope, found)
        }
        Expr::SystemFunctionCall(name, arguments) => fault_in_call(
            function_of(name.name.as_str()),
            name.span,
            arguments.as_slice(),
            scope,
        ),
    }
}

/// The first fault for which an expression has no constant value.
#[cycle(fault)]
pub fn constant_fault(expr: &Expr, scope: &Scope) -> Option<Fault>
    ensures { result ≡ least (constant_faults (sense (names_of scope.now) expr.now)) }
{
    let found = earlier(signal_in(expr, scope), fault_in(expr, scope));
    division_fault(expr, scope, found)
}

/// The first fault of a call.
#[cycle(fault)]
#[tactic(auto, unfolding(crate::specs::Answers::least))]
fn fault_in_call(
    function: Option<Function>,
    span: Span,
    arguments: &[Expr],
    scope: &Scope,
) -> Option<Fault>
    ensures { result ≡ least (call_faults function span (senses (names_of scope.now) arguments.now)) }
{
    match (function, arguments) {
        (Some(Function::Signed), [argument]) => fault_in(argument, scope),
        (Some(Function::Unsigned), [argument]) => fault_in(argument, scope),
        (Some(Function::Clog2), [argument]) => constant_fault(argument, scope),
        (Some(Function::Random), []) => None,
        (Some(Function::Time), []) => None,
        _ => {
            let unknown = Fault {
                cause: Cause::SystemFunction,
                span,
            };
            earlier(Some(unknown), fault_in_all(arguments, scope))
        }
    }
}

/// The first fault of several expressions.
#[cycle(fault)]
fn fault_in_all(exprs: &[Expr], scope: &Scope) -> Option<Fault>
    ensures { result ≡ least (all_faults (senses (names_of scope.now) exprs.now)) }
{
    let mut found = None;
    for expr in exprs {
        found = earlier(found, fault_in(expr, scope));
    }
    found
}
