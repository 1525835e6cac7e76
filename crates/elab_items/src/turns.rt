//! The turns of all loops of a flattened design, counted item by item before any is built.
ghost use Rattle.std.specs.Prelude.{Bool, List, IfOk, OnOk};
ghost use Rattle.loop_turns.specs.Counts.{IsLeft, process_turns};
ghost use Rattle.flat_items.specs.Views.{flat_of};
ghost use Rattle.elab_items.specs.Desks.{AreCopies, Serves};
ghost use Rattle.elab_items.specs.Items.{Stands};
ghost use Rattle.elab_items.specs.Starts.{names_at};
ghost use Rattle.elab_items.specs.Turns.{IsPast, item_turns, max_turns};

use crate::desk::{Desk, copy_scopes};
use flat_instances::FlatItem;
use flat_items::Flat;
use loop_turns::process_left;
use net_builder::Builder;
use std::alloc::AllocError;
use vlog_meaning::Scope;
use vlog_syntax::Process;

/// The most turns of all loops of a design.
const MAX_TURNS: u32 = 1_000_000;

/// What is left of so many turns after those of a process of a scope; none where it takes more.
#[tactic(auto, using(crate::proofs::Running::serves_kept, crate::proofs::Turning::run_counted))]
fn run_left(
    builder: &Builder,
    scopes: &mut Vec<Scope>,
    flat: &Flat,
    place: u32,
    process: &Process,
    left: u32,
) -> Result<Option<u32>, AllocError>
    requires stands { Stands (flat_of flat.now).places builder.now }
    requires copies { AreCopies (flat_of flat.now).places scopes.old.items }
    ensures left { IfOk result (IsLeft (process_turns (names_at (flat_of flat.now).places place) process.now) left) }
    ensures copies { OnOk result (AreCopies (flat_of flat.now).places scopes.new.items) }
{
    copy_scopes(scopes, flat, place)?;
    if place as usize >= scopes.len() {
        return Err(AllocError);
    }
    Ok(process_left(process, &mut scopes[place as usize], left))
}

/// What is left of so many turns after those of an item; none where it takes more.
fn item_left(
    builder: &Builder,
    scopes: &mut Vec<Scope>,
    flat: &Flat,
    item: &FlatItem,
    left: u32,
) -> Result<Option<u32>, AllocError>
    requires stands { Stands (flat_of flat.now).places builder.now }
    requires copies { AreCopies (flat_of flat.now).places scopes.old.items }
    ensures left { IfOk result (IsLeft (item_turns (flat_of flat.now).places item.now) left) }
    ensures copies { OnOk result (AreCopies (flat_of flat.now).places scopes.new.items) }
{
    match item {
        FlatItem::Runs(place, process) => {
            run_left(builder, scopes, flat, *place, process.get(), left)
        }
        _ => Ok(Some(left)),
    }
}

/// How many items stand before the first one with which the loops of all take more than 1,000,000 turns; none where they do not. No
/// cell is built for it, and a loop within a loop is left where that many turns have been taken.
#[tactic(auto, using(crate::proofs::Turning::after_none, crate::proofs::Turning::past_nowhere, crate::proofs::Turning::serves_again))]
pub fn first_past(
    builder: &Builder,
    desk: &mut Desk,
    flat: &Flat,
    items: &[FlatItem],
) -> Result<Option<usize>, AllocError>
    requires stands { Stands (flat_of flat.now).places builder.now }
    requires copies { AreCopies (flat_of flat.now).places desk.old.scopes.items }
    ensures past { IfOk result (IsPast (flat_of flat.now).places max_turns items.now) }
    ensures serves { OnOk result ((inputs : List Bool) → Serves inputs (flat_of flat.now).places builder.now desk.old → Serves inputs (flat_of flat.now).places builder.now desk.new) }
{
    let mut left = MAX_TURNS;
    for place in 0..items.len() {
        match item_left(builder, &mut desk.scopes, flat, &items[place], left)? {
            None => return Ok(Some(place)),
            Some(rest) => left = rest,
        }
    }
    Ok(None)
}
