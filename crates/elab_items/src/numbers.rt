//! The numbers of the signals that items give values.
ghost use Rattle.std.specs.Prelude.{◌≡◌, ◌<◌, ◌∷◌, [], map, length, IfOk, OnOk};
ghost use Rattle.vlog_meaning.specs.Scopes.{names_of};
ghost use Rattle.net_builder.specs.Building.{Building};
ghost use Rattle.flat_assigns.specs.Bits.{targets_of};
ghost use Rattle.flat_items.specs.Views.{flat_of};
ghost use Rattle.elab_items.specs.Assigned.{item_numbers, item_targets, process_writes};
ghost use Rattle.elab_items.specs.Desks.{AreCopies};
ghost use Rattle.elab_items.specs.Items.{Stands};
ghost use Rattle.elab_items.specs.Starts.{names_at};

use crate::assigned::{assigned_bits, process_writes};
use flat_assigns::WrittenBit;
use flat_instances::FlatItem;
use flat_items::Flat;
use net_builder::Builder;
use process_latches::Write;
use std::alloc::{AllocError, Global};
use vlog_meaning::Scope;
use vlog_syntax::Process;

/// The signals of bits.
fn bit_numbers(alloc: Global, bits: &[WrittenBit]) -> Result<Vec<u32>, AllocError>
    ensures { IfOk result (λ numbers. numbers.items ≡ map (λ b. b.signal) bits.now) }
{
    let mut numbers = Vec::new(alloc);
    for bit in bits {
        numbers.push(bit.signal)?;
    }
    Ok(numbers)
}

/// The numbers of variables.
fn write_numbers(alloc: Global, writes: &[Write]) -> Result<Vec<u32>, AllocError>
    ensures { IfOk result (λ numbers. numbers.items ≡ map (λ w. w.number) writes.now) }
{
    let mut numbers = Vec::new(alloc);
    for write in writes {
        numbers.push(write.number)?;
    }
    Ok(numbers)
}

/// One number.
fn port_number(alloc: Global, port: u32) -> Result<Vec<u32>, AllocError>
    ensures { IfOk result (λ numbers. numbers.items ≡ port ∷ []) }
{
    let mut numbers = Vec::new(alloc);
    numbers.push(port)?;
    Ok(numbers)
}

/// The signals of what an assignment writes.
#[tactic(auto, using(crate::proofs::Assigning::bits_numbered))]
fn side_numbers(alloc: Global, flat: &Flat, item: &FlatItem) -> Result<Vec<u32>, AllocError>
    ensures { IfOk result (λ numbers. numbers.items ≡ map (λ t. t.place.signal) (item_targets (flat_of flat.now).places item.now)) }
{
    let bits = assigned_bits(alloc, flat, item)?;
    bit_numbers(alloc, bits.as_slice())
}

/// The variables of a process of the design.
#[tactic(auto, using(crate::proofs::Running::serves_kept))]
fn run_numbers(
    builder: &Builder,
    scopes: &mut Vec<Scope>,
    flat: &Flat,
    place: u32,
    process: &Process,
) -> Result<Vec<u32>, AllocError>
    requires stands { Stands (flat_of flat.now).places builder.now }
    requires copies { AreCopies (flat_of flat.now).places scopes.old.items }
    ensures numbers { IfOk result (λ numbers. numbers.items ≡ map (λ w. w.number) (process_writes (names_at (flat_of flat.now).places place) process.now)) }
    ensures copies { OnOk result (AreCopies (flat_of flat.now).places scopes.new.items) }
{
    if place as usize >= scopes.len() {
        return Err(AllocError);
    }
    let alloc = builder.alloc();
    let writes = process_writes(alloc, process, &mut scopes[place as usize])?;
    write_numbers(alloc, writes.as_slice())
}

/// The signals that an item gives values.
pub(crate) fn numbers_of(
    builder: &Builder,
    scopes: &mut Vec<Scope>,
    flat: &Flat,
    item: &FlatItem,
) -> Result<Vec<u32>, AllocError>
    requires stands { Stands (flat_of flat.now).places builder.now }
    requires copies { AreCopies (flat_of flat.now).places scopes.old.items }
    ensures numbers { IfOk result (λ numbers. numbers.items ≡ item_numbers (flat_of flat.now).places item.now) }
    ensures copies { OnOk result (AreCopies (flat_of flat.now).places scopes.new.items) }
{
    match item {
        FlatItem::Enters(port, _, _) => port_number(builder.alloc(), *port),
        FlatItem::Open(port) => port_number(builder.alloc(), *port),
        FlatItem::Runs(place, process) => {
            run_numbers(builder, scopes, flat, *place, process.get())
        }
        FlatItem::Assigns(..) => side_numbers(builder.alloc(), flat, item),
        FlatItem::Drives(..) => side_numbers(builder.alloc(), flat, item),
        FlatItem::Leaves(..) => side_numbers(builder.alloc(), flat, item),
        FlatItem::Declares(_) => Ok(Vec::new(builder.alloc())),
        FlatItem::Starts(..) => Ok(Vec::new(builder.alloc())),
        FlatItem::Refuses(_) => Ok(Vec::new(builder.alloc())),
    }
}
