//! What is wrong in the selector and the labels of a case, which are brought to one size.
ghost use Rattle.std.specs.Prelude.{◌≡◌, ◌∷◌};
ghost use Rattle.std.specs.List.{flat_map};
ghost use Rattle.vlog_meaning.specs.declared.fault.Cause.TheVariants.{DivideByZero};
ghost use Rattle.vlog_meaning.specs.Answers.{least, least_at};
ghost use Rattle.vlog_meaning.specs.Scopes.{names_of};
ghost use Rattle.vlog_meaning.specs.Senses.{AreWhole};
ghost use Rattle.vlog_refusals.specs.Cases.{AllWithin, LabelsWithin, case_faults, labels_in, zeros_at};
ghost use Rattle.vlog_refusals.specs.Expressions.{wrong};

use crate::purpose::Purpose;
use crate::sides::wrong_in;
use crate::sizes::case_size;
use vlog_meaning::{Fault, Scope, Shape, earlier, zero_in};
use vlog_syntax::{CaseItem, Expr};

/// What is wrong first in several expressions.
fn all_wrong_in<P: Purpose>(purpose: P, exprs: &[Expr], scope: &Scope) -> Option<Fault>
    ensures { result ≡ least (flat_map (wrong P.unsupported (names_of scope.now)) exprs.now) }
{
    let mut found = None;
    for expr in exprs {
        found = earlier(found, wrong_in(purpose, expr, scope));
    }
    found
}

/// What is wrong first in the labels of items.
fn labels_wrong_in<P: Purpose>(purpose: P, items: &[CaseItem], scope: &Scope) -> Option<Fault>
    ensures { result ≡ least (flat_map (wrong P.unsupported (names_of scope.now)) (flat_map labels_in items.now)) }
{
    let mut found = None;
    for item in items {
        found = earlier(found, all_wrong_in(purpose, item.labels.as_slice(), scope));
    }
    found
}

/// The first division of constants by 0 in several expressions at one size.
fn all_zero_in(exprs: &[Expr], scope: &Scope, size: Shape) -> Option<Fault>
    requires whole { AreWhole (names_of scope.now) exprs.now }
    requires within { AllWithin (names_of scope.now) size exprs.now }
    ensures { result ≡ least_at DivideByZero (flat_map (zeros_at (names_of scope.now) size) exprs.now) }
{
    let mut found = None;
    for expr in exprs {
        found = earlier(found, zero_in(expr, scope, size));
    }
    found
}

/// The same in the labels of items.
fn labels_zero_in(items: &[CaseItem], scope: &Scope, size: Shape) -> Option<Fault>
    requires whole { AreWhole (names_of scope.now) (flat_map labels_in items.now) }
    requires within { LabelsWithin (names_of scope.now) size items.now }
    ensures { result ≡ least_at DivideByZero (flat_map (zeros_at (names_of scope.now) size) (flat_map labels_in items.now)) }
{
    let mut found = None;
    for item in items {
        found = earlier(found, all_zero_in(item.labels.as_slice(), scope, size));
    }
    found
}

/// What is wrong first in the selector and the labels of a case.
pub fn case_fault<P: Purpose>(
    purpose: P,
    selector: &Expr,
    items: &[CaseItem],
    scope: &Scope,
) -> Option<Fault>
    ensures { result ≡ least (case_faults P.unsupported (names_of scope.now) (selector.now ∷ flat_map labels_in items.now)) }
{
    match earlier(
        wrong_in(purpose, selector, scope),
        labels_wrong_in(purpose, items, scope),
    ) {
        Some(fault) => Some(fault),
        None => {
            let size = case_size(selector, items, scope);
            earlier(
                zero_in(selector, scope, size),
                labels_zero_in(items, scope, size),
            )
        }
    }
}
