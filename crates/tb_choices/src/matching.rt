//! Whether one of the labels of an item matches.
ghost use Rattle.std.specs.Prelude.{◌≡◌, IfOk};
ghost use Rattle.std.specs.List.{All};
ghost use Rattle.vlog_meaning.specs.Scopes.{names_of, store_of, FitsSignals};
ghost use Rattle.vlog_meaning.specs.Senses.{IsWhole};
ghost use Rattle.vlog_refusals.specs.Cases.{AllWithin};
ghost use Rattle.tb_choices.specs.Choices.{agrees, one_matches};

use rand_pcg::Lcg64Xsh32;
use std::alloc::AllocError;
use tb_values::{Moment, evaluate};
use vlog_meaning::Shape;
use vlog_refusals::dont_care;
use vlog_syntax::{CaseKind, Expr};

/// Whether a label has the selector's bits, but for those that are no matter.
fn agrees(ignored: u128, value: u128, label: u128) -> bool
    ensures { result ≡ agrees ignored value label }
{
    value | ignored == label | ignored
}

/// Whether one of the labels matches the value. They are evaluated in order, up to the one that does.
pub(crate) fn one_matches(
    labels: &[Expr],
    kind: CaseKind,
    value: u128,
    moment: &Moment<'_>,
    size: Shape,
    words: &mut Lcg64Xsh32,
) -> Result<bool, AllocError>
    requires stored { FitsSignals (names_of moment.now.scope.now) moment.now.store.now }
    requires whole { All (IsWhole (names_of moment.now.scope.now)) labels.now }
    requires within { AllWithin (names_of moment.now.scope.now) size labels.now }
    ensures { IfOk result (λ b. (b, words.new) ≡ one_matches (record { names = names_of moment.now.scope.now; phase = moment.now.phase; kind = kind; store = store_of moment.now.store.now; size = size }) value labels.now words.old) }
{
    for label in labels {
        let word = evaluate(label, moment, size, words)?;
        if agrees(dont_care(kind, label), value, word.bits()) {
            return Ok(true);
        }
    }
    Ok(false)
}
