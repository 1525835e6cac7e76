//! The items of a flattened design: each is built in a builder that has the signals.
ghost use Rattle.std.specs.Prelude.{◌≡◌, Bool, List, IfErr, OnOk};
ghost use Rattle.flat_items.specs.Views.{flat_of};
ghost use Rattle.flat_instances.specs.declared.item.FlatItem.TheVariants.{Drives, Leaves, Starts};
ghost use Rattle.elab_items.specs.Desks.{Holds, Serves};
ghost use Rattle.elab_items.specs.Items.{Builds, Fails, Stands};

use crate::connection::{build_enter, build_open};
use crate::desk::Desk;
use crate::error::{BuildError, Reason};
use crate::left::left_of;
use crate::notes::note;
use crate::run::build_run;
use crate::sides::{build_sides, scope_at};
use crate::start::start_of;
use flat_instances::FlatItem;
use flat_items::Flat;
use net_builder::Builder;
use vlog_syntax::{Expr, Identifier, LeftSide};

/// Builds the initial value of a net of a scope.
#[tactic(auto, using(crate::proofs::Building::drives_built, crate::proofs::Building::drives_fail))]
fn build_drive(
    builder: &mut Builder,
    inputs: &[bool],
    flat: &Flat,
    place: u32,
    net: &Identifier,
    value: &Expr,
) -> Result<(), BuildError>
    requires { Stands (flat_of flat.now).places builder.old }
    ensures built { OnOk result (Builds inputs.now (flat_of flat.now).places (Drives place net.now value.now) builder.old builder.new) }
    ensures fails { IfErr result (λ e. Fails inputs.now (flat_of flat.now).places (Drives place net.now value.now) builder.old e) }
{
    let left = LeftSide::Name(net.copy(builder.alloc())?);
    build_sides(builder, inputs, flat, place, &left, place, value)
}

/// Builds what an output of an instance is connected to.
#[tactic(auto, using(crate::proofs::Building::leaves_built, crate::proofs::Building::leaves_fail))]
fn build_leave(
    builder: &mut Builder,
    inputs: &[bool],
    flat: &Flat,
    outside: u32,
    value: &Expr,
    inside: u32,
    port: &Identifier,
) -> Result<(), BuildError>
    requires { Stands (flat_of flat.now).places builder.old }
    ensures built { OnOk result (Builds inputs.now (flat_of flat.now).places (Leaves outside value.now inside port.now) builder.old builder.new) }
    ensures fails { IfErr result (λ e. Fails inputs.now (flat_of flat.now).places (Leaves outside value.now inside port.now) builder.old e) }
{
    let Some(left) = left_of(builder.alloc(), value)? else {
        return Err(BuildError::Memory);
    };
    let right = Expr::Name(port.copy(builder.alloc())?);
    build_sides(builder, inputs, flat, outside, &left, inside, &right)
}

/// Tests that a start value is a constant.
fn test_start(
    builder: &Builder,
    flat: &Flat,
    number: u32,
    place: u32,
    value: &Expr,
) -> Result<(), BuildError>
    requires { Stands (flat_of flat.now).places builder.now }
    ensures built { OnOk result ((inputs : List Bool) → Builds inputs (flat_of flat.now).places (Starts number place value.now) builder.now builder.now) }
    ensures fails { IfErr result (λ e. (inputs : List Bool) → Fails inputs (flat_of flat.now).places (Starts number place value.now) builder.now e) }
{
    let Some(scope) = scope_at(flat, place) else {
        return Err(BuildError::Memory);
    };
    if number >= builder.signal_count() {
        return Err(BuildError::Memory);
    }
    match start_of(builder, number, value, scope) {
        Ok(_) => Ok(()),
        Err(error) => Err(BuildError::Refused(Reason::Start(error))),
    }
}

/// Adds what an item means, and tells nothing of which signals have a writer then.
#[tactic(auto, using(crate::proofs::Building::declares_built, crate::proofs::Building::assigns_built, crate::proofs::Building::assigns_fail))]
fn add_item(
    builder: &mut Builder,
    desk: &mut Desk,
    inputs: &[bool],
    flat: &Flat,
    item: &FlatItem,
) -> Result<(), BuildError>
    requires stands { Stands (flat_of flat.now).places builder.old }
    requires serves { Serves inputs.now (flat_of flat.now).places builder.old desk.old }
    ensures built { OnOk result (Builds inputs.now (flat_of flat.now).places item.now builder.old builder.new) }
    ensures fails { IfErr result (λ e. Fails inputs.now (flat_of flat.now).places item.now builder.old e) }
    ensures holds { OnOk result (Holds (flat_of flat.now).places builder.new desk.new) }
    ensures written { OnOk result (desk.new.written.items ≡ desk.old.written.items) }
{
    match item {
        FlatItem::Declares(_) => Ok(()),
        FlatItem::Starts(number, place, value) => {
            test_start(builder, flat, *number, *place, value.get())
        }
        FlatItem::Assigns(place, left, right) => {
            let (left, right) = (left.get(), right.get());
            build_sides(builder, inputs, flat, *place, left, *place, right)
        }
        FlatItem::Drives(place, net, value) => {
            build_drive(builder, inputs, flat, *place, net.get(), value.get())
        }
        FlatItem::Enters(port, place, value) => {
            build_enter(builder, inputs, flat, *port, *place, value.get())
        }
        FlatItem::Open(port) => build_open(builder, inputs, flat, *port),
        FlatItem::Leaves(outside, value, inside, port) => {
            let (value, port) = (value.get(), port.get());
            build_leave(builder, inputs, flat, *outside, value, *inside, port)
        }
        FlatItem::Runs(place, process) => {
            build_run(builder, desk, inputs, flat, *place, process.get())
        }
        FlatItem::Refuses(error) => Err(BuildError::Refused(Reason::Listed(*error))),
    }
}

/// Builds an item; one that says nothing of a cycle adds nothing. `inputs` tells by their numbers which signals are inputs of the
/// top. Where it is not built, the builder may hold a part of it and is only to be dropped.
#[tactic(auto, using(crate::proofs::Standing::builds_stand, crate::proofs::Noting::note_count, crate::proofs::Noting::note_sound, crate::proofs::Noting::builds_serve))]
pub fn build_item(
    builder: &mut Builder,
    desk: &mut Desk,
    inputs: &[bool],
    flat: &Flat,
    item: &FlatItem,
) -> Result<(), BuildError>
    requires stands { Stands (flat_of flat.now).places builder.old }
    requires serves { Serves inputs.now (flat_of flat.now).places builder.old desk.old }
    ensures built { OnOk result (Builds inputs.now (flat_of flat.now).places item.now builder.old builder.new) }
    ensures fails { IfErr result (λ e. Fails inputs.now (flat_of flat.now).places item.now builder.old e) }
    ensures serves { OnOk result (Serves inputs.now (flat_of flat.now).places builder.new desk.new) }
{
    add_item(builder, desk, inputs, flat, item)?;
    note(builder, desk, inputs, flat, item)?;
    Ok(())
}
