//! The left sides of all items, in order.
ghost use Rattle.std.specs.Prelude.{◌≡◌, ◌++◌, map, OnOk, IfOk};
ghost use Rattle.flat_laws.specs.Sound.{IsSound};
ghost use Rattle.flat_items.specs.Views.{flat_of};
ghost use Rattle.elab_items.specs.Assigned.{item_targets};
ghost use Rattle.elab_items.specs.Desks.{AreCopies};
ghost use Rattle.elab_items.specs.Starts.{names_at};
ghost use Rattle.elab_lefts.specs.Lefts.{bit_left, design_lefts, item_lefts, process_lefts};

use crate::lists::{list_bits, list_port};
use crate::process::list_process;
use elab_finish::Left;
use elab_items::{assigned_bits, copy_scopes};
use flat_instances::FlatItem;
use flat_items::Flat;
use std::alloc::{AllocError, Global};
use vlog_meaning::Scope;
use vlog_syntax::Process;

/// Lists the variables of a process of the design. `scopes` has copies of scopes, each of which is given back as it was.
#[tactic(auto, using(crate::proofs::Scopes::copy_sized, crate::proofs::Scopes::run_listed, crate::proofs::Scopes::copies_stay))]
fn list_run(
    alloc: Global,
    lefts: &mut Vec<Left>,
    scopes: &mut Vec<Scope>,
    flat: &Flat,
    place: u32,
    process: &Process,
) -> Result<(), AllocError>
    requires sound { IsSound (flat_of flat.now) }
    requires copies { AreCopies (flat_of flat.now).places scopes.old.items }
    ensures lists { OnOk result (lefts.new.items ≡ lefts.old.items ++ process_lefts (flat_of flat.now).signals (names_at (flat_of flat.now).places place) process.now) }
    ensures copies { OnOk result (AreCopies (flat_of flat.now).places scopes.new.items) }
{
    copy_scopes(scopes, flat, place)?;
    if place as usize >= scopes.len() {
        return Err(AllocError);
    }
    list_process(
        alloc,
        lefts,
        flat.signals(),
        &mut scopes[place as usize],
        process,
    )
}

/// Lists the bits that the left side of an assignment writes.
#[tactic(auto, using(crate::proofs::Scopes::side_listed))]
fn list_side(
    alloc: Global,
    lefts: &mut Vec<Left>,
    flat: &Flat,
    item: &FlatItem,
) -> Result<(), AllocError>
    ensures { OnOk result (lefts.new.items ≡ lefts.old.items ++ map bit_left (item_targets (flat_of flat.now).places item.now)) }
{
    let bits = assigned_bits(alloc, flat, item)?;
    list_bits(lefts, bits.as_slice())
}

/// Lists the left sides of an item.
#[tactic(auto, using(crate::proofs::Scopes::nothing_listed))]
fn list_item(
    alloc: Global,
    lefts: &mut Vec<Left>,
    scopes: &mut Vec<Scope>,
    flat: &Flat,
    item: &FlatItem,
) -> Result<(), AllocError>
    requires sound { IsSound (flat_of flat.now) }
    requires copies { AreCopies (flat_of flat.now).places scopes.old.items }
    ensures lists { OnOk result (lefts.new.items ≡ lefts.old.items ++ item_lefts (flat_of flat.now).signals (flat_of flat.now).places item.now) }
    ensures copies { OnOk result (AreCopies (flat_of flat.now).places scopes.new.items) }
{
    match item {
        FlatItem::Enters(port, _, _) => list_port(lefts, flat.signals(), *port),
        FlatItem::Open(port) => list_port(lefts, flat.signals(), *port),
        FlatItem::Runs(place, process) => {
            list_run(alloc, lefts, scopes, flat, *place, process.get())
        }
        FlatItem::Assigns(..) => list_side(alloc, lefts, flat, item),
        FlatItem::Drives(..) => list_side(alloc, lefts, flat, item),
        FlatItem::Leaves(..) => list_side(alloc, lefts, flat, item),
        FlatItem::Declares(_) => Ok(()),
        FlatItem::Starts(..) => Ok(()),
        FlatItem::Refuses(_) => Ok(()),
    }
}

/// The left sides of a design in the order of its items, each with the place of its name. The first of them that writes a net on a
/// loop is the loop's place.
#[tactic(auto, using(crate::proofs::Scopes::items_more, elab_items::proofs::Running::none_copied))]
pub fn lefts_of(alloc: Global, flat: &Flat) -> Result<Vec<Left>, AllocError>
    requires { IsSound (flat_of flat.now) }
    ensures { IfOk result (λ lefts. lefts.items ≡ design_lefts (flat_of flat.now)) }
{
    let mut scopes = Vec::new(alloc);
    let mut lefts = Vec::new(alloc);
    for item in flat.items() {
        list_item(alloc, &mut lefts, &mut scopes, flat, item)?;
    }
    Ok(lefts)
}
