//! The items of a flattened design, in order, up to the first one that is not built.
ghost use Rattle.std.specs.Prelude.{IfErr, OnOk};
ghost use Rattle.flat_items.specs.Views.{flat_of};
ghost use Rattle.flat_clocks.specs.Views.{clocks_in};
ghost use Rattle.elab_items.specs.Desks.{Serves};
ghost use Rattle.elab_items.specs.Items.{Stands};
ghost use Rattle.elab_items.specs.Timed.{BuildsAll, FailsSome};

use crate::desk::Desk;
use crate::error::BuildError;
use crate::timed::build_timed;
use flat_clocks::Clocks;
use flat_instances::FlatItem;
use flat_items::Flat;
use net_builder::Builder;

/// Builds items, one after the other. The first one that is refused, or for which there is no room, is
/// answered; the builder may then hold a part of it and is only to be dropped.
pub fn build_items(
    builder: &mut Builder,
    desk: &mut Desk,
    inputs: &[bool],
    clocks: &Clocks,
    flat: &Flat,
    items: &[FlatItem],
) -> Result<(), BuildError>
    requires stands { Stands (flat_of flat.now).places builder.old }
    requires serves { Serves inputs.now (flat_of flat.now).places builder.old desk.old }
    ensures built { OnOk result (BuildsAll inputs.now (flat_of flat.now) (clocks_in clocks.now) items.now builder.old builder.new) }
    ensures fails { IfErr result (λ e. FailsSome inputs.now (flat_of flat.now) (clocks_in clocks.now) items.now builder.old e) }
{
    let mut rest = items;
    while let [item, more @ ..] = rest {
        build_timed(builder, desk, inputs, clocks, flat, item)?;
        rest = more;
    }
    Ok(())
}
