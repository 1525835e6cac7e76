//! Which items of a case are arms, and which item is done where none of them matches.
//!
//! An item that matches whatever the selector is ends the arms, and its body is done where none before it matches. Else that is the
//! default; and where there is none and the labels name every value, the last item.
ghost use Rattle.std.specs.Prelude.{◌≡◌, ◌≤◌, ◌<◌, [], ◌∷◌, map, length, None, IfOk, IfSome};
ghost use Rattle.std.specs.List.{flat_map};
ghost use Rattle.std.specs.Option.{option_map};
ghost use Rattle.vlog_meaning.specs.Scopes.{names_of};
ghost use Rattle.vlog_effects.specs.Laws.{item_steps};
ghost use Rattle.vlog_effects.specs.Steps.{Selection, default_of, labelled, front, last_body, arms_of, chosen_arms, selection_of};
ghost use Rattle.elab_proc.specs.Refusals.{wrong, labels_in};
ghost use Rattle.case_arms.specs.Arms.{IsFirstFree, item_body, arms_by, arms_within};

use crate::named::names_all;
use elab_proc::{always, case_size, is_default};
use std::alloc::{AllocError, Global};
use vlog_meaning::Scope;
use vlog_syntax::{CaseItem, CaseKind, Expr};

/// The items of a case that are arms: those with labels that stand before `before`. `last` is the place of the item that is done
/// where none of them matches, if anything is.
#[derive(Clone, Copy, Debug, PartialEq, Eq)]
pub struct Chosen {
    pub before: usize,
    pub last: Option<usize>,
}

/// Where the default stands.
fn default_in(items: &[CaseItem]) -> Option<usize>
    ensures body { option_map (item_body items.now) result ≡ default_of (map item_steps items.now) }
    ensures within { IfSome result (λ k. k < length items.now) }
{
    for place in 0..items.len() {
        if is_default(&items[place]) {
            return Some(place);
        }
    }
    None
}

/// Where the first item before a place stands that matches whatever a selector of this width is.
fn free_in(kind: CaseKind, width: u8, items: &[CaseItem], before: usize) -> Option<usize>
    requires narrow { width ≤ 128 }
    requires before { before ≤ length items.now }
    ensures free { (c : Selection) → c.kind ≡ kind → c.width ≡ width → IsFirstFree c items.now before result }
    ensures within { IfSome result (λ k. k < before) }
{
    for place in 0..before {
        if always(kind, width, items[place].labels.as_slice()) {
            return Some(place);
        }
    }
    None
}

/// All items but the last are arms, and the last is done where none of them matches.
fn all_but_last(items: &[CaseItem]) -> Chosen
    ensures arms { (c : Selection) → default_of (map item_steps items.now) ≡ None → arms_within c items.now result ≡ arms_of c (front (map item_steps items.now)) (last_body (map item_steps items.now)) }
    ensures before { result.before ≤ length items.now }
    ensures last { IfSome result.last (λ k. k < length items.now) }
{
    match items.len().checked_sub(1) {
        Some(place) => Chosen {
            before: place,
            last: Some(place),
        },
        None => Chosen {
            before: 0,
            last: None,
        },
    }
}

/// The items that are arms where none of them matches whatever the selector is: all with labels, or all but the last where this one
/// is the default.
fn ends_of(
    alloc: Global,
    kind: CaseKind,
    selector: &Expr,
    items: &[CaseItem],
    scope: &Scope,
) -> Result<Chosen, AllocError>
    requires { flat_map (wrong (names_of scope.now)) (selector.now ∷ flat_map labels_in items.now) ≡ [] }
    ensures arms { IfOk result (λ ends. arms_within (selection_of (names_of scope.now) kind selector.now (map item_steps items.now)) items.now ends ≡ chosen_arms (selection_of (names_of scope.now) kind selector.now (map item_steps items.now)) (labelled (map item_steps items.now)) (default_of (map item_steps items.now))) }
    ensures before { IfOk result (λ ends. ends.before ≤ length items.now) }
    ensures last { IfOk result (λ ends. IfSome ends.last (λ k. k < length items.now)) }
{
    match default_in(items) {
        Some(place) => Ok(Chosen {
            before: items.len(),
            last: Some(place),
        }),
        None => {
            let is_full = names_all(alloc, kind, selector, items, scope)?;
            if is_full {
                Ok(all_but_last(items))
            } else {
                Ok(Chosen {
                    before: items.len(),
                    last: None,
                })
            }
        }
    }
}

/// The same up to the first item that matches whatever a selector of this width is.
fn up_to_free(kind: CaseKind, width: u8, items: &[CaseItem], ends: Chosen) -> Chosen
    requires narrow { width ≤ 128 }
    requires before { ends.before ≤ length items.now }
    requires last { IfSome ends.last (λ k. k < length items.now) }
    ensures arms { (c : Selection) → c.kind ≡ kind → c.width ≡ width → arms_by c items.now result ≡ arms_within c items.now ends }
    ensures before { result.before ≤ length items.now }
    ensures last { IfSome result.last (λ k. k < length items.now) }
{
    match free_in(kind, width, items, ends.before) {
        Some(place) => Chosen {
            before: place,
            last: Some(place),
        },
        None => ends,
    }
}

/// The arms of a case whose selector and labels have shapes (IEEE 1364-2005, 9.5): an item that matches whatever the selector is
/// ends them; where there is no default and the labels name every value that the selector can have, of at most 8 bits, the last item is the
/// default.
pub fn arms_in(
    alloc: Global,
    kind: CaseKind,
    selector: &Expr,
    items: &[CaseItem],
    scope: &Scope,
) -> Result<Chosen, AllocError>
    requires { flat_map (wrong (names_of scope.now)) (selector.now ∷ flat_map labels_in items.now) ≡ [] }
    ensures arms { IfOk result (λ chosen. arms_by (selection_of (names_of scope.now) kind selector.now (map item_steps items.now)) items.now chosen ≡ chosen_arms (selection_of (names_of scope.now) kind selector.now (map item_steps items.now)) (labelled (map item_steps items.now)) (default_of (map item_steps items.now))) }
    ensures before { IfOk result (λ chosen. chosen.before ≤ length items.now) }
    ensures last { IfOk result (λ chosen. IfSome chosen.last (λ k. k < length items.now)) }
{
    let ends = ends_of(alloc, kind, selector, items, scope)?;
    let size = case_size(selector, items, scope);
    Ok(up_to_free(kind, size.width, items, ends))
}
