//! The cells of a design that stand in some of its instances.
ghost use Rattle.std.specs.Prelude.{◌≡◌, ◌+◌, ◌++◌, [], length, map, replicate, IfOk, OnOk};
ghost use Rattle.process_cells.specs.Items.{widths_in};
ghost use Rattle.flat_items.specs.Views.{flat_of};
ghost use Rattle.flat_laws.specs.Sound.{IsSound};
ghost use Rattle.elab_items.specs.Designs.{widths_of};
ghost use Rattle.elab_items.specs.Desks.{Serves};
ghost use Rattle.elab_items.specs.Items.{Stands, cell_count};
ghost use Rattle.project_options.specs.Instances.{is_within_some};
ghost use Rattle.cell_scopes.specs.Scopes.{AreSkipped, cell_scopes, prefix_at, scope_of};

use elab_items::{Desk, build_item, declare_signals};
use flat_instances::FlatItem;
use flat_items::{Flat, flatten};
use mcy_base::Text;
use net_builder::Builder;
use project_options::is_within_some;
use std::alloc::{AllocError, Global};
use vlog_syntax::Module;

/// The number of the scope in which an item is written.
fn scope_of(item: &FlatItem<'_>) -> u32
    ensures { result ≡ scope_of item.now }
{
    match item {
        FlatItem::Assigns(place, _, _) => *place,
        FlatItem::Drives(place, _, _) => *place,
        FlatItem::Enters(_, place, _) => *place,
        FlatItem::Leaves(place, _, _, _) => *place,
        FlatItem::Runs(place, _) => *place,
        FlatItem::Declares(_) => 0,
        FlatItem::Open(_) => 0,
        FlatItem::Starts(_, _, _) => 0,
        FlatItem::Refuses(_) => 0,
    }
}

/// Whether an item is written within one of these instances.
fn is_item_skipped(
    flat: &Flat<'_>,
    instances: &[Text],
    item: &FlatItem<'_>,
) -> Result<bool, AllocError>
    ensures { IfOk result (λ is. is ≡ is_within_some instances.now (prefix_at (flat_of flat.now).places (scope_of item.now))) }
{
    match flat.place(scope_of(item)) {
        Some(place) => Ok(is_within_some(instances, place.prefix.as_str())),
        None => Err(AllocError),
    }
}

/// Builds the next item.
fn build_next(
    builder: &mut Builder,
    desk: &mut Desk,
    flat: &Flat<'_>,
    item: &FlatItem<'_>,
) -> Result<(), AllocError>
    requires stands { Stands (flat_of flat.now).places builder.old }
    requires serves { Serves [] (flat_of flat.now).places builder.old desk.old }
    ensures stands { OnOk result (Stands (flat_of flat.now).places builder.new) }
    ensures serves { OnOk result (Serves [] (flat_of flat.now).places builder.new desk.new) }
    ensures widths { OnOk result (widths_in builder.new ≡ widths_in builder.old) }
    ensures cells { OnOk result (length builder.new.cells ≡ length builder.old.cells + cell_count (widths_in builder.old) (flat_of flat.now).places item.now) }
{
    match build_item(builder, desk, &[], flat, item) {
        Ok(()) => Ok(()),
        Err(_) => Err(AllocError),
    }
}

/// Builds the next item, and adds for each of its cells whether it is within one of these instances.
fn add_next(
    builder: &mut Builder,
    desk: &mut Desk,
    flat: &Flat<'_>,
    item: &FlatItem<'_>,
    instances: &[Text],
    flags: &mut Vec<bool>,
) -> Result<(), AllocError>
    requires stands { Stands (flat_of flat.now).places builder.old }
    requires serves { Serves [] (flat_of flat.now).places builder.old desk.old }
    requires each { length flags.old.items ≡ length builder.old.cells }
    ensures stands { OnOk result (Stands (flat_of flat.now).places builder.new) }
    ensures serves { OnOk result (Serves [] (flat_of flat.now).places builder.new desk.new) }
    ensures widths { OnOk result (widths_in builder.new ≡ widths_in builder.old) }
    ensures each { OnOk result (length flags.new.items ≡ length builder.new.cells) }
    ensures flags { OnOk result (flags.new.items ≡ flags.old.items ++ replicate (cell_count (widths_in builder.old) (flat_of flat.now).places item.now) (is_within_some instances.now (prefix_at (flat_of flat.now).places (scope_of item.now)))) }
{
    let is_skipped = is_item_skipped(flat, instances, item)?;
    build_next(builder, desk, flat, item)?;
    flags.resize(builder.cells().len(), is_skipped)?;
    Ok(())
}

/// Builds all items of a design in a builder that has its signals, and tells of each cell whether it is within one of these instances.
fn all_flags(
    mut builder: Builder,
    mut desk: Desk,
    flat: &Flat<'_>,
    instances: &[Text],
) -> Result<Vec<bool>, AllocError>
    requires stands { Stands (flat_of flat.now).places builder }
    requires serves { Serves [] (flat_of flat.now).places builder desk }
    requires widths { widths_in builder ≡ widths_of (flat_of flat.now).signals }
    requires none { builder.cells ≡ [] }
    ensures { IfOk result (λ flags. flags.items ≡ map (is_within_some instances.now) (cell_scopes (flat_of flat.now))) }
{
    let mut flags = Vec::new(builder.alloc());
    let mut rest = flat.items();
    while let [item, more @ ..] = rest {
        add_next(&mut builder, &mut desk, flat, item, instances, &mut flags)?;
        rest = more;
    }
    Ok(flags)
}

/// The same for a design whose signals are to be declared first.
fn design_flags(alloc: Global, flat: &Flat<'_>, instances: &[Text]) -> Result<Vec<bool>, AllocError>
    requires { IsSound (flat_of flat.now) }
    ensures { IfOk result (λ flags. flags.items ≡ map (is_within_some instances.now) (cell_scopes (flat_of flat.now))) }
{
    let Ok(builder) = declare_signals(alloc, flat.signals()) else {
        return Err(AllocError);
    };
    let desk = Desk::new(&builder, &[])?;
    all_flags(builder, desk, flat, instances)
}

/// For each cell of the design that modules are with the top of this name, whether it is within one of these instances. Where the
/// modules have a netlist, only want of memory is in the way.
pub fn skipped_cells(
    alloc: Global,
    modules: &[Module],
    top: &str,
    instances: &[Text],
) -> Result<Vec<bool>, AllocError>
    ensures { IfOk result (λ flags. AreSkipped modules.now top.now instances.now flags.items) }
{
    match flatten(alloc, modules, top) {
        Ok(flat) => design_flags(alloc, &flat, instances),
        Err(_) => Err(AllocError),
    }
}
