//! Which answer it is that a design is not built.
ghost use Rattle.std.specs.Prelude.{◌≡◌, ◌⊎◌};
ghost use Rattle.flat_items.specs.Views.{flat_of};
ghost use Rattle.elab_items.specs.declared.answer.ElabError.TheVariants.{Memory};
ghost use Rattle.elab_hier.specs.Refusals.{build_answer, end_answer, full_answer};

use elab_finish::DesignError;
use elab_items::{BuildError, ElabError, item_answer, listed_before, reason_answer};
use flat_items::Flat;
use flat_scopes::Signal;
use mcy_base::Kind;
use std::alloc::Global;

/// Why a design is refused whose signals have too many bits.
pub(crate) fn full_answer(flat: &Flat<'_>) -> ElabError
    ensures { result ≡ full_answer (flat_of flat.now) }
{
    match listed_before(flat.signals(), flat.items()) {
        Some(error) => item_answer(error),
        None => ElabError::TooMany(Kind::NetBits),
    }
}

/// Why an item is not built.
pub(crate) fn build_answer(alloc: Global, signals: &[Signal], error: BuildError) -> ElabError
    ensures { (result ≡ build_answer signals.now error) ⊎ (result ≡ Memory) }
{
    match error {
        BuildError::Refused(reason) => match reason_answer(alloc, signals, reason) {
            Ok(answer) => answer,
            Err(_) => ElabError::Memory,
        },
        BuildError::TooMany(kind) => ElabError::TooMany(kind),
        BuildError::Memory => ElabError::Memory,
    }
}

/// Why what was built has no netlist.
pub(crate) fn end_answer(error: DesignError) -> ElabError
    ensures { result ≡ end_answer error }
{
    match error {
        DesignError::Loop(span) => ElabError::Loop(span),
        DesignError::TooMany(kind) => ElabError::TooMany(kind),
        DesignError::Twice(span) => ElabError::Twice(span),
        DesignError::Memory => ElabError::Memory,
    }
}
