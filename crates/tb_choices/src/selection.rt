//! The item that a case statement takes.
ghost use Rattle.std.specs.Prelude.{◌≡◌, IfOk, map};
ghost use Rattle.std.specs.List.{flat_map};
ghost use Rattle.vlog_meaning.specs.Scopes.{names_of, store_of, FitsSignals};
ghost use Rattle.vlog_meaning.specs.Senses.{IsWhole};
ghost use Rattle.vlog_refusals.specs.Cases.{AllWithin};
ghost use Rattle.tb_machine.specs.Nodes.{choice_labels};
ghost use Rattle.tb_choices.specs.Choices.{chosen, first_match, default_item, LabelsWhole};

use crate::matching::one_matches;
use crate::sizes::case_size;
use rand_pcg::Lcg64Xsh32;
use std::alloc::AllocError;
use tb_machine::Choice;
use tb_values::{Moment, evaluate};
use vlog_meaning::Shape;
use vlog_syntax::{CaseKind, Expr};

/// The first item with a label that matches the value.
fn first_match(
    items: &[Choice],
    kind: CaseKind,
    value: u128,
    moment: &Moment<'_>,
    size: Shape,
    words: &mut Lcg64Xsh32,
) -> Result<Option<usize>, AllocError>
    requires stored { FitsSignals (names_of moment.now.scope.now) moment.now.store.now }
    requires whole { LabelsWhole (names_of moment.now.scope.now) (map choice_labels items.now) }
    requires within { AllWithin (names_of moment.now.scope.now) size (flat_map choice_labels items.now) }
    ensures { IfOk result (λ i. (i, words.new) ≡ first_match (record { names = names_of moment.now.scope.now; phase = moment.now.phase; kind = kind; store = store_of moment.now.store.now; size = size }) value 0 (map choice_labels items.now) words.old) }
{
    for (number, item) in items.iter().enumerate() {
        if one_matches(item.labels.as_slice(), kind, value, moment, size, words)? {
            return Ok(Some(number));
        }
    }
    Ok(None)
}

/// The default: the first item without labels.
pub fn default_item(items: &[Choice]) -> Option<usize>
    ensures { result ≡ default_item 0 (map choice_labels items.now) }
{
    for (number, item) in items.iter().enumerate() {
        if item.labels.as_slice().is_empty() {
            return Some(number);
        }
    }
    None
}

/// The item that is taken, by its number from 0. The selector is evaluated, and then the labels in order, up to the first that
/// matches (IEEE 1364-2005, 9.5).
pub fn choose(
    kind: CaseKind,
    selector: &Expr,
    items: &[Choice],
    moment: &Moment<'_>,
    words: &mut Lcg64Xsh32,
) -> Result<Option<usize>, AllocError>
    requires selector { IsWhole (names_of moment.now.scope.now) selector.now }
    requires labels { LabelsWhole (names_of moment.now.scope.now) (map choice_labels items.now) }
    requires stored { FitsSignals (names_of moment.now.scope.now) moment.now.store.now }
    ensures { IfOk result (λ i. (i, words.new) ≡ chosen (names_of moment.now.scope.now) moment.now.phase kind selector.now (map choice_labels items.now) (store_of moment.now.store.now) words.old) }
{
    let size = case_size(selector, items, moment.scope);
    let value = evaluate(selector, moment, size, words)?;
    match first_match(items, kind, value.bits(), moment, size, words)? {
        Some(number) => Ok(Some(number)),
        None => Ok(default_item(items)),
    }
}
