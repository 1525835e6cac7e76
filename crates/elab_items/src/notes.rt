//! Which signals have a writer, told again where an item is built.
ghost use Rattle.std.specs.Prelude.{◌≡◌, ◌∷◌, [], Bool, List, length, OnOk};
ghost use Rattle.net_builder.specs.Building.{Building};
ghost use Rattle.flat_items.specs.Views.{flat_of};
ghost use Rattle.elab_items.specs.Assigned.{item_numbers};
ghost use Rattle.elab_items.specs.Desks.{AreRenewed, AreSound, Holds};
ghost use Rattle.elab_items.specs.Items.{Builds, Stands};

use crate::desk::Desk;
use crate::numbers::numbers_of;
use crate::writers::has_writer;
use flat_instances::FlatItem;
use flat_items::Flat;
use net_builder::Builder;
use std::alloc::AllocError;

/// Tells again whether a signal has a writer, unless that is known: what is written stays written.
#[tactic(auto, using(crate::proofs::Renewing::one_renewed, crate::proofs::Renewing::none_renewed, crate::proofs::Renewing::set_renewed))]
fn renew(builder: &Builder, inputs: &[bool], written: &mut Vec<bool>, number: u32)
    requires count { length written.old.items ≡ length builder.now.signals }
    requires sound { AreSound builder.now inputs.now written.old.items }
    ensures { AreRenewed builder.now inputs.now (number ∷ []) written.old.items written.new.items }
{
    if number >= builder.signal_count() {
        return;
    }
    if !written[number as usize] {
        written[number as usize] = has_writer(builder, inputs, number);
    }
}

/// Tells again which of some signals have a writer.
#[tactic(auto, using(crate::proofs::Renewing::start_renewed, crate::proofs::Renewing::more_renewed, crate::proofs::Renewing::renewed_sound))]
fn renew_all(builder: &Builder, inputs: &[bool], written: &mut Vec<bool>, numbers: &[u32])
    requires count { length written.old.items ≡ length builder.now.signals }
    requires sound { AreSound builder.now inputs.now written.old.items }
    ensures { AreRenewed builder.now inputs.now numbers.now written.old.items written.new.items }
{
    for number in numbers {
        renew(builder, inputs, written, *number);
    }
}

/// Tells again which signals have a writer, where an item was built.
pub(crate) fn note(
    builder: &Builder,
    desk: &mut Desk,
    inputs: &[bool],
    flat: &Flat,
    item: &FlatItem,
) -> Result<(), AllocError>
    requires stands { Stands (flat_of flat.now).places builder.now }
    requires holds { Holds (flat_of flat.now).places builder.now desk.old }
    requires count { length desk.old.written.items ≡ length builder.now.signals }
    requires sound { AreSound builder.now inputs.now desk.old.written.items }
    ensures holds { OnOk result (Holds (flat_of flat.now).places builder.now desk.new) }
    ensures renewed { OnOk result (AreRenewed builder.now inputs.now (item_numbers (flat_of flat.now).places item.now) desk.old.written.items desk.new.written.items) }
{
    let numbers = numbers_of(builder, &mut desk.scopes, flat, item)?;
    renew_all(builder, inputs, &mut desk.written, numbers.as_slice());
    Ok(())
}
