//! Items with their use of the clock: an item is refused for what comes first in it by place.
ghost use Rattle.std.specs.Prelude.{◌≡◌, Bool, List, Some, IfErr, OnOk};
ghost use Rattle.net_builder.specs.Building.{Building};
ghost use Rattle.elab_proc.specs.declared.refusal.Refusal.{Refusal as Told};
ghost use Rattle.elab_proc.specs.Order.{IsFirst};
ghost use Rattle.flat_clocks.specs.Clocks.{Clocks as Clocking};
ghost use Rattle.flat_clocks.specs.Refusals.{clock_refusals};
ghost use Rattle.flat_clocks.specs.Views.{clocks_in};
ghost use Rattle.flat_items.specs.Flattened.{Flat as Design};
ghost use Rattle.flat_items.specs.Views.{flat_of};
ghost use Rattle.flat_instances.specs.declared.item.FlatItem.{FlatItem as Item};
ghost use Rattle.elab_items.specs.Desks.{Serves};
ghost use Rattle.elab_items.specs.Items.{Fails, Stands};
ghost use Rattle.elab_items.specs.Timed.{BuildsTimed, FailsTimed, IsSooner};
ghost use Rattle.elab_items.specs.declared.error.Reason.TheVariants.{Found};

use crate::desk::Desk;
use crate::error::{BuildError, Reason};
use crate::item::build_item;
use elab_proc::{Refusal, earlier};
use flat_clocks::Clocks;
use flat_instances::FlatItem;
use flat_items::Flat;
use net_builder::Builder;

/// The first by place of what is found in an item and of how it misuses the clock.
fn first_found(own: Refusal, late: Option<Refusal>) -> Reason
    ensures { (clock : List Told) → IsFirst clock late → IsSooner (Some (Found own)) clock (Some result) }
{
    match earlier(Some(own), late) {
        Some(first) => Reason::Found(first),
        None => Reason::Found(own),
    }
}

/// The first by place of why an item is refused and of how it misuses the clock.
fn sooner(own: Reason, late: Option<Refusal>) -> Reason
    ensures { (clock : List Told) → IsFirst clock late → IsSooner (Some own) clock (Some result) }
{
    match own {
        Reason::Found(found) => first_found(found, late),
        Reason::Listed(_) | Reason::Start(_) => own,
    }
}

/// Why an item is not built, with its misuse of the clock.
#[tactic(auto, using(crate::proofs::Timing::error_sooner, crate::proofs::Timing::error_late, crate::proofs::Timing::error_short))]
fn timed_error(error: BuildError, late: Option<Refusal>) -> BuildError
    ensures { (inputs : List Bool) (flat : Design) (clocks : Clocking) (item : Item) (old : Building) → Fails inputs flat.places item old error → IsFirst (clock_refusals clocks flat.signals flat.places item) late → FailsTimed inputs flat clocks item old result }
{
    match error {
        BuildError::Refused(own) => BuildError::Refused(sooner(own, late)),
        BuildError::TooMany(kind) => match late {
            Some(late) => BuildError::Refused(Reason::Found(late)),
            None => BuildError::TooMany(kind),
        },
        BuildError::Memory => BuildError::Memory,
    }
}

/// Builds an item that does not misuse the clock.
#[tactic(auto, using(crate::proofs::Timing::timed_built, crate::proofs::Timing::timed_late))]
pub(crate) fn build_timed(
    builder: &mut Builder,
    desk: &mut Desk,
    inputs: &[bool],
    clocks: &Clocks,
    flat: &Flat,
    item: &FlatItem,
) -> Result<(), BuildError>
    requires stands { Stands (flat_of flat.now).places builder.old }
    requires serves { Serves inputs.now (flat_of flat.now).places builder.old desk.old }
    ensures built { OnOk result (BuildsTimed inputs.now (flat_of flat.now) (clocks_in clocks.now) item.now builder.old builder.new) }
    ensures fails { IfErr result (λ e. FailsTimed inputs.now (flat_of flat.now) (clocks_in clocks.now) item.now builder.old e) }
    ensures serves { OnOk result (Serves inputs.now (flat_of flat.now).places builder.new desk.new) }
{
    let late = clocks.clock_refusal(builder.alloc(), flat, item)?;
    match build_item(builder, desk, inputs, flat, item) {
        Ok(()) => match late {
            Some(first) => Err(BuildError::Refused(Reason::Found(first))),
            None => {
                // What was built has at most as many cells as fit.
                let _cells = builder.cells();
                Ok(())
            }
        },
        Err(error) => Err(timed_error(error, late)),
    }
}
