//! Whether the labels of a case name every value that its selector can have: constants without bits that are no matter, and at most
//! 8 bits.
ghost use Rattle.std.specs.Prelude.{◌≡◌, ◌≤◌, ◌^◌, ℕ, Bool, ◌&&◌, ◌||◌, nat_eq, List, [], ◌∷◌, map, IfOk, OnOk};
ghost use Rattle.std.specs.List.{flat_map, list_any};
ghost use Rattle.vlog_meaning.specs.Scopes.{names_of, nothing};
ghost use Rattle.vlog_meaning.specs.Senses.{sense, IsWhole, IsContext};
ghost use Rattle.vlog_effects.specs.Expressions.{is_constant};
ghost use Rattle.vlog_effects.specs.Laws.{item_steps};
ghost use Rattle.vlog_effects.specs.Steps.{Selection, dont_care, is_named, names_all, selection_of};
ghost use Rattle.elab_proc.specs.Refusals.{wrong, labels_in, AllWithin, LabelsWithin};
ghost use Rattle.case_arms.specs.Naming.{IsOf, has, has_all};

use crate::selector::selector_bits;
use elab_proc::{case_size, dont_care};
use std::alloc::{AllocError, Global};
use vlog_meaning::{Scope, Shape, shape_of, signal_in, value_of};
use vlog_syntax::{CaseItem, CaseKind, Expr};

/// The most bits that a selector can have whose values are looked for.
const MOST_BITS: u8 = 8;

/// Whether a label names a value: a constant of which each bit matters.
#[tactic(auto, using(expr_plans::proofs::Plans::none_read))]
fn is_value(kind: CaseKind, label: &Expr, scope: &Scope) -> bool
    ensures { result ≡ (is_constant (names_of scope.now) label.now && nat_eq (dont_care kind label.now) 0) }
{
    signal_in(label, scope).is_none() && dont_care(kind, label) == 0
}

/// The value of a constant at a size.
fn value_at(label: &Expr, scope: &Scope, size: Shape) -> u128
    requires whole { IsWhole (names_of scope.now) label.now }
    requires within { IsContext (sense (names_of scope.now) label.now).shape size }
    ensures { result ≡ (sense (names_of scope.now) label.now).value nothing size }
{
    value_of(label, scope, &[], size)
}

/// Adds the values that labels name.
fn add_named(
    kind: CaseKind,
    labels: &[Expr],
    scope: &Scope,
    size: Shape,
    values: &mut Vec<u128>,
) -> Result<(), AllocError>
    requires whole { flat_map (wrong (names_of scope.now)) labels.now ≡ [] }
    requires within { AllWithin (names_of scope.now) size labels.now }
    ensures { OnOk result ((c : Selection) → IsOf c (names_of scope.now) kind size → (v : ℕ) → has values.new.items v ≡ (has values.old.items v || is_named c v labels.now)) }
{
    for label in labels {
        if !is_value(kind, label, scope) {
            continue;
        }
        values.push(value_at(label, scope, size))?;
    }
    Ok(())
}

/// Adds the values that the labels of items name.
fn add_all_named(
    kind: CaseKind,
    items: &[CaseItem],
    scope: &Scope,
    size: Shape,
    values: &mut Vec<u128>,
) -> Result<(), AllocError>
    requires whole { flat_map (wrong (names_of scope.now)) (flat_map labels_in items.now) ≡ [] }
    requires within { LabelsWithin (names_of scope.now) size items.now }
    ensures { OnOk result ((c : Selection) → IsOf c (names_of scope.now) kind size → (v : ℕ) → has values.new.items v ≡ (has values.old.items v || is_named c v (flat_map labels_in items.now))) }
{
    for item in items {
        add_named(kind, item.labels.as_slice(), scope, size, values)?;
    }
    Ok(())
}

/// Whether a number is among the values.
fn has(values: &[u128], value: u128) -> bool
    ensures { result ≡ has values.now value }
{
    values.iter().any(|x| *x == value)
}

/// Both.
fn both(a: bool, b: bool) -> bool
    ensures { result ≡ (a && b) }
{
    a && b
}

/// Whether each number of so many bits is among the values.
fn has_each(values: &[u128], bits: u8) -> bool
    requires { bits ≤ 8 }
    ensures { result ≡ has_all values.now (2 ^ bits) }
{
    let mut found = true;
    for number in 0..2u32.pow(u32::from(bits)) {
        found = both(has(values, u128::from(number)), found);
    }
    found
}

/// Whether the labels of a case name every value that its selector can have, where that has at most 8 bits. Where they do, and
/// there is no default, the last item is the default.
pub fn names_all(
    alloc: Global,
    kind: CaseKind,
    selector: &Expr,
    items: &[CaseItem],
    scope: &Scope,
) -> Result<bool, AllocError>
    requires { flat_map (wrong (names_of scope.now)) (selector.now ∷ flat_map labels_in items.now) ≡ [] }
    ensures { IfOk result (λ b. b ≡ names_all (selection_of (names_of scope.now) kind selector.now (map item_steps items.now))) }
{
    let size = case_size(selector, items, scope);
    let bits = selector_bits(selector, shape_of(selector, scope), size);
    if bits > MOST_BITS {
        return Ok(false);
    }
    let mut values = Vec::new(alloc);
    add_all_named(kind, items, scope, size, &mut values)?;
    Ok(has_each(values.as_slice(), bits))
}
