//! Plans of case statements.
ghost use Rattle.std.specs.Prelude.{◌≡◌, map, IfOk};
ghost use Rattle.std.specs.List.{All, AllZip, flat_map};
ghost use Rattle.vlog_meaning.specs.Scopes.{names_of};
ghost use Rattle.vlog_meaning.specs.Senses.{sense, IsWhole, IsContext};
ghost use Rattle.vlog_refusals.specs.Cases.{AllWithin};
ghost use Rattle.tb_machine.specs.Nodes.{choice_labels};
ghost use Rattle.tb_choices.specs.Choices.{LabelsWhole, case_size};
ghost use Rattle.tb_plans.specs.Making.{IsItemArm, OfArm, OfArms};
ghost use Rattle.tb_plans.specs.Selections.{OfChoice};

use crate::selection::{Arm, Label, Selection};
use crate::value::value_of;
use mcy_base::Items;
use std::alloc::{AllocError, Global};
use tb_choices::{case_size, default_item};
use tb_machine::Choice;
use vlog_meaning::{Scope, Shape};
use vlog_refusals::dont_care;
use vlog_syntax::{CaseKind, Expr};

/// The arm of labels, if they draw nothing.
fn arm_of(
    alloc: Global,
    kind: CaseKind,
    labels: &[Expr],
    size: Shape,
    scope: &Scope,
) -> Result<Option<Arm>, AllocError>
    requires whole { All (IsWhole (names_of scope.now)) labels.now }
    requires within { AllWithin (names_of scope.now) size labels.now }
    ensures { IfOk result (λ a. OfArm (names_of scope.now) kind size labels.now a) }
{
    let mut found = Items::from_vec(Vec::new(alloc));
    for label in labels {
        let ignored = dont_care(kind, label);
        match value_of(alloc, label, size, scope)? {
            Some(value) => found.push(Label { value, ignored })?,
            None => return Ok(None),
        }
    }
    Ok(Some(Arm { labels: found }))
}

/// The arms of items.
fn arms_of(
    alloc: Global,
    kind: CaseKind,
    items: &[Choice],
    size: Shape,
    scope: &Scope,
) -> Result<Option<Items<Arm>>, AllocError>
    requires whole { LabelsWhole (names_of scope.now) (map choice_labels items.now) }
    requires within { AllWithin (names_of scope.now) size (flat_map choice_labels items.now) }
    ensures { IfOk result (λ a. OfArms (names_of scope.now) kind size items.now a) }
{
    let mut found = Items::from_vec(Vec::new(alloc));
    for item in items {
        match arm_of(alloc, kind, item.labels.as_slice(), size, scope)? {
            Some(arm) => found.push(arm)?,
            None => return Ok(None),
        }
    }
    Ok(Some(found))
}

/// The selection with this selector.
fn selection_with(
    alloc: Global,
    kind: CaseKind,
    selector: &Expr,
    items: &[Choice],
    size: Shape,
    arms: Items<Arm>,
    scope: &Scope,
) -> Result<Option<Selection>, AllocError>
    requires selector { IsWhole (names_of scope.now) selector.now }
    requires size { size ≡ case_size (names_of scope.now) selector.now (map choice_labels items.now) }
    requires context { IsContext (sense (names_of scope.now) selector.now).shape size }
    requires arms { AllZip (IsItemArm (names_of scope.now) kind size) items.now arms }
    ensures { IfOk result (λ s. OfChoice (names_of scope.now) kind selector.now (map choice_labels items.now) s) }
{
    let default = default_item(items);
    match value_of(alloc, selector, size, scope)? {
        Some(selector) => Ok(Some(Selection {
            selector,
            arms,
            default,
        })),
        None => Ok(None),
    }
}

/// The plan of a case statement, if it draws nothing.
pub(crate) fn selection_of(
    alloc: Global,
    kind: CaseKind,
    selector: &Expr,
    items: &[Choice],
    scope: &Scope,
) -> Result<Option<Selection>, AllocError>
    requires selector { IsWhole (names_of scope.now) selector.now }
    requires labels { LabelsWhole (names_of scope.now) (map choice_labels items.now) }
    ensures { IfOk result (λ s. OfChoice (names_of scope.now) kind selector.now (map choice_labels items.now) s) }
{
    let size = case_size(selector, items, scope);
    match arms_of(alloc, kind, items, size, scope)? {
        Some(arms) => selection_with(alloc, kind, selector, items, size, arms, scope),
        None => Ok(None),
    }
}
