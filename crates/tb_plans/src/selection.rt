//! Case statements with a plan.
ghost use Rattle.std.specs.Prelude.{◌≡◌, map};
ghost use Rattle.std.specs.List.{All};
ghost use Rattle.vlog_meaning.specs.Scopes.{store_of};
ghost use Rattle.tb_choices.specs.Choices.{agrees};
ghost use Rattle.tb_plans.specs.Selections.{one_agrees, first_arm, selection_taken, LabelFits, ArmFits, SelectionFits};

use mcy_base::{Items, Word};
use tb_formulas::Formula;

/// A label, with the bits that are no matter.
pub struct Label {
    pub value: Formula,
    pub ignored: u128,
}

impl Drop for Label {
    fn drop(self) {
        let Label {
            value: _value,
            ignored: _ignored,
        } = self;
    }
}

/// The labels of an item.
#[derive(Drop)]
pub struct Arm {
    pub labels: Items<Label>,
}

/// A case statement: the selector, the labels of each item, and the number of the default.
pub struct Selection {
    pub selector: Formula,
    pub arms: Items<Arm>,
    pub default: Option<usize>,
}

impl Drop for Selection {
    fn drop(self) {
        let Selection {
            selector: _selector,
            arms: _arms,
            default: _default,
        } = self;
    }
}

/// Whether a label has the value's bits, but for those that are no matter.
fn agrees(ignored: u128, value: u128, label: u128) -> bool
    ensures { result ≡ agrees ignored value label }
{
    value | ignored == label | ignored
}

/// Whether one of the labels does.
fn one_agrees(labels: &[Label], value: u128, store: &[Word]) -> bool
    requires { All (LabelFits (map (λ w. w.width) store.now)) labels.now }
    ensures { result ≡ one_agrees (store_of store.now) value labels.now }
{
    for label in labels {
        let bits = label.value.value(store);
        if agrees(label.ignored, value, bits) {
            return true;
        }
    }
    false
}

/// The first arm with such a label.
fn first_arm(arms: &[Arm], value: u128, store: &[Word]) -> Option<usize>
    requires { All (ArmFits (map (λ w. w.width) store.now)) arms.now }
    ensures { result ≡ first_arm (store_of store.now) value 0 arms.now }
{
    for (number, arm) in arms.iter().enumerate() {
        if one_agrees(arm.labels.as_slice(), value, store) {
            return Some(number);
        }
    }
    None
}

impl Selection {
    /// The number of the item that is taken.
    pub fn taken(&self, store: &[Word]) -> Option<usize>
        requires { SelectionFits (map (λ w. w.width) store.now) self.now }
        ensures { result ≡ selection_taken self.now (store_of store.now) }
    {
        let value = self.selector.value(store);
        match first_arm(self.arms.as_slice(), value, store) {
            Some(number) => Some(number),
            None => self.default,
        }
    }
}
