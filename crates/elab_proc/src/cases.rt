//! What is wrong in the selector and the labels of a case, and which labels match whatever the selector is.
ghost use Rattle.std.specs.Prelude.{◌≡◌, ◌≤◌, ◌-◌, ◌^◌, nat_eq, [], ◌∷◌};
ghost use Rattle.std.specs.List.{flat_map};
ghost use Rattle.vlog_meaning.specs.Answers.{least};
ghost use Rattle.vlog_meaning.specs.Operators.{IsSized};
ghost use Rattle.vlog_meaning.specs.Scopes.{names_of};
ghost use Rattle.vlog_meaning.specs.Senses.{is_empty};
ghost use Rattle.vlog_effects.specs.Steps.{Selection, dont_care, always};
ghost use Rattle.elab_proc.specs.Refusals.{wrong, case_faults, common_size, labels_in};

use crate::sides::Cells;
use vlog_meaning::{Fault, Scope, Shape};
use vlog_refusals::dont_care;
use vlog_syntax::{CaseItem, CaseKind, Expr};

/// What is wrong first in the selector and the labels of a case.
pub fn case_fault(selector: &Expr, items: &[CaseItem], scope: &Scope) -> Option<Fault>
    ensures { result ≡ least (case_faults (names_of scope.now) (selector.now ∷ flat_map labels_in items.now)) }
{
    vlog_refusals::case_fault(Cells, selector, items, scope)
}

/// The size of a case.
pub fn case_size(selector: &Expr, items: &[CaseItem], scope: &Scope) -> Shape
    requires { flat_map (wrong (names_of scope.now)) (selector.now ∷ flat_map labels_in items.now) ≡ [] }
    ensures size { result ≡ common_size (names_of scope.now) (selector.now ∷ flat_map labels_in items.now) }
    ensures sized { IsSized result }
{
    vlog_refusals::case_size(selector, items, scope)
}

/// The greatest number of this width.
pub fn ones(width: u8) -> u128
    requires { width ≤ 128 }
    ensures { result ≡ 2 ^ width - 1 }
{
    if width < 128 {
        2u128.pow(u32::from(width)) - 1
    } else {
        u128::MAX
    }
}

/// Whether no bit of a label matters, where the selector has this width.
fn is_free(kind: CaseKind, width: u8, label: &Expr) -> bool
    requires { width ≤ 128 }
    ensures { result ≡ nat_eq (dont_care kind label.now) (2 ^ width - 1) }
{
    dont_care(kind, label) == ones(width)
}

/// Whether an item has no labels.
pub fn is_default(item: &CaseItem) -> bool
    ensures { result ≡ is_empty (labels_in item.now) }
{
    matches!(item.labels.as_slice(), [])
}

/// Whether one of the labels matches whatever a selector of this width is.
pub fn always(kind: CaseKind, width: u8, labels: &[Expr]) -> bool
    requires { width ≤ 128 }
    ensures { (c : Selection) → c.kind ≡ kind → c.width ≡ width → result ≡ always c labels.now }
{
    let mut found = false;
    for label in labels {
        if is_free(kind, width, label) {
            found = true;
        }
    }
    found
}
