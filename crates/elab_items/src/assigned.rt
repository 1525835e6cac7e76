//! What items assign: bits of nets, and variables of processes.
ghost use Rattle.std.specs.Prelude.{◌≡◌, ◌∷◌, [], map, IfOk, OnOk};
ghost use Rattle.vlog_syntax.specs.declared.left_side.LeftSide.TheVariants as l;
ghost use Rattle.vlog_syntax.specs.declared.stmt.Stmt.{out-Stmt};
ghost use Rattle.vlog_meaning.specs.Scopes.{names_of};
ghost use Rattle.vlog_effects.specs.LeftSides.{parts_of};
ghost use Rattle.elab_proc.specs.Refusals.{AreSized};
ghost use Rattle.process_cells.specs.Items.{statement};
ghost use Rattle.flat_assigns.specs.Bits.{targets_of};
ghost use Rattle.flat_assigns.specs.Forms.{form_parts};
ghost use Rattle.flat_assigns.specs.Sides.{slices};
ghost use Rattle.flat_assigns.specs.Writers.{targets};
ghost use Rattle.flat_items.specs.Views.{flat_of};
ghost use Rattle.elab_items.specs.Assigned.{item_targets, process_writes};
ghost use Rattle.elab_items.specs.Starts.{names_at};

use crate::left::left_of;
use crate::sides::scope_at;
use flat_assigns::{WrittenBit, written_bits};
use flat_instances::FlatItem;
use flat_items::Flat;
use process_latches::{Marks, Write, mark};
use std::alloc::{AllocError, Global};
use vlog_meaning::Scope;
use vlog_syntax::{Expr, Identifier, LeftSide, Process, Stmt};

/// The bits of a left side that is read in a scope of the design.
#[tactic(auto, using(crate::proofs::Assigning::bits_at))]
fn side_bits(
    alloc: Global,
    flat: &Flat,
    place: u32,
    left: &LeftSide,
) -> Result<Vec<WrittenBit>, AllocError>
    ensures { IfOk result (λ bits. targets_of bits.items ≡ targets (slices (names_at (flat_of flat.now).places place) (parts_of left.now))) }
{
    let Some(scope) = scope_at(flat, place) else {
        return Err(AllocError);
    };
    let bits = written_bits(alloc, left, scope)?;
    Ok(bits)
}

/// The bits of a net that has an initial value.
fn net_bits(
    alloc: Global,
    flat: &Flat,
    place: u32,
    net: &Identifier,
) -> Result<Vec<WrittenBit>, AllocError>
    ensures { IfOk result (λ bits. targets_of bits.items ≡ targets (slices (names_at (flat_of flat.now).places place) (parts_of (l.Name net.now)))) }
{
    let left = LeftSide::Name(net.copy(alloc)?);
    let bits = side_bits(alloc, flat, place, &left)?;
    Ok(bits)
}

/// The bits of what an output is connected to.
#[tactic(auto, using(crate::proofs::Assigning::bits_of_form))]
fn form_bits(
    alloc: Global,
    flat: &Flat,
    place: u32,
    value: &Expr,
) -> Result<Vec<WrittenBit>, AllocError>
    ensures { IfOk result (λ bits. targets_of bits.items ≡ targets (slices (names_at (flat_of flat.now).places place) (form_parts value.now))) }
{
    let Some(left) = left_of(alloc, value)? else {
        return Err(AllocError);
    };
    let bits = side_bits(alloc, flat, place, &left)?;
    Ok(bits)
}

/// The bits that the left side of an item writes, part by part from the left. An item that is no assignment has none.
pub fn assigned_bits(
    alloc: Global,
    flat: &Flat,
    item: &FlatItem,
) -> Result<Vec<WrittenBit>, AllocError>
    ensures { IfOk result (λ bits. targets_of bits.items ≡ item_targets (flat_of flat.now).places item.now) }
{
    match item {
        FlatItem::Assigns(place, left, _) => side_bits(alloc, flat, *place, left.get()),
        FlatItem::Drives(place, net, _) => net_bits(alloc, flat, *place, net.get()),
        FlatItem::Leaves(place, value, _, _) => form_bits(alloc, flat, *place, value.get()),
        FlatItem::Declares(_) => Ok(Vec::new(alloc)),
        FlatItem::Enters(..) => Ok(Vec::new(alloc)),
        FlatItem::Open(_) => Ok(Vec::new(alloc)),
        FlatItem::Runs(..) => Ok(Vec::new(alloc)),
        FlatItem::Starts(..) => Ok(Vec::new(alloc)),
        FlatItem::Refuses(_) => Ok(Vec::new(alloc)),
    }
}

/// The statement behind a list of events, where there is one.
fn statement_of(body: &Stmt) -> &Stmt
    ensures { result.now ≡ statement body.now (out-Stmt body.now) }
{
    match body {
        Stmt::EventControl(_, _, inner) => inner.get(),
        _ => body,
    }
}

/// The variables that the statements of a process assign, as often as they do. The scope has signals of 1 to 128 bits, and is given
/// back as it was; where there is no memory, it is only to be dropped.
#[tactic(auto, using(crate::proofs::Assigning::writes_marked))]
pub fn process_writes(
    alloc: Global,
    process: &Process,
    scope: &mut Scope,
) -> Result<Vec<Write>, AllocError>
    requires { AreSized (names_of scope.old) }
    ensures writes { IfOk result (λ l. l.items ≡ process_writes (names_of scope.old) process.now) }
    ensures kept { OnOk result (names_of scope.new ≡ names_of scope.old) }
{
    let mut marks = Marks::new(alloc);
    let body = statement_of(process.body.get());
    mark(alloc, body, scope, &mut marks)?;
    Ok(marks.writes)
}
