//! Start values: what declarations and `initial` processes give, one item after the other.
ghost use Rattle.std.specs.Prelude.{◌≡◌, ◌<◌, IfOk, OnOk, length};
ghost use Rattle.vlog_meaning.specs.Answers.{refusal};
ghost use Rattle.vlog_meaning.specs.Scopes.{Store, names_of};
ghost use Rattle.process_cells.specs.Items.{widths_in};
ghost use Rattle.process_cells.specs.Starts.{SameButStarts, StartsWith, assigned_value};
ghost use Rattle.flat_items.specs.Views.{flat_of};
ghost use Rattle.flat_instances.specs.declared.item.FlatItem.TheVariants.{Runs, Starts};
ghost use Rattle.elab_items.specs.Starting.{AllStart, CanStart};
ghost use Rattle.elab_items.specs.Items.{Stands};
ghost use Rattle.elab_items.specs.Starts.{start_error, started, starts_from, with_value};

use crate::error::BuildError;
use crate::sides::scope_at;
use flat_instances::FlatItem;
use flat_items::Flat;
use mcy_base::Word;
use net_builder::Builder;
use process_cells::start_process;
use vlog_meaning::{ConstError, Scope, constant_at};
use vlog_syntax::{Expr, Process};

/// The value of a constant that a signal starts with.
pub(crate) fn start_of(
    builder: &Builder,
    number: u32,
    value: &Expr,
    scope: &Scope,
) -> Result<Word, ConstError>
    requires { number < length builder.now.signals }
    ensures refused { refusal result ≡ start_error (names_of scope.now) value.now (widths_in builder.now number) }
    ensures width { IfOk result (λ w. w.width ≡ widths_in builder.now number) }
    ensures bits { IfOk result (λ w. w.bits ≡ assigned_value (names_of scope.now) value.now (widths_in builder.now number)) }
{
    let width = builder.start(number).width();
    constant_at(value, scope, width)
}

/// Gives a signal the value of a constant as its start value; one of what is no constant is left out.
fn set_value(builder: &mut Builder, number: u32, value: &Expr, scope: &Scope)
    requires { number < length builder.old.signals }
    ensures others { SameButStarts builder.old builder.new }
    ensures starts { (store : Store) → start_error (names_of scope.now) value.now (widths_in builder.old number) ≡ None → StartsWith builder.old store → StartsWith builder.new (with_value number (assigned_value (names_of scope.now) value.now (widths_in builder.old number)) store) }
{
    if let Ok(start) = start_of(builder, number, value, scope) {
        builder.set_start(number, start);
    }
}

/// Gives a signal the start value with which it is declared.
fn set_declared(
    builder: &mut Builder,
    flat: &Flat,
    number: u32,
    place: u32,
    value: &Expr,
) -> Result<(), BuildError>
    ensures others { OnOk result (SameButStarts builder.old builder.new) }
    ensures starts { OnOk result ((store : Store) → CanStart (widths_in builder.old) (flat_of flat.now).places (Starts number place value.now) → StartsWith builder.old store → StartsWith builder.new (started (widths_in builder.old) (flat_of flat.now).places (Starts number place value.now) store)) }
{
    let Some(scope) = scope_at(flat, place) else {
        return Err(BuildError::Memory);
    };
    if number >= builder.signal_count() {
        return Err(BuildError::Memory);
    }
    set_value(builder, number, value, scope);
    Ok(())
}

/// Gives variables the start values of an `initial`.
fn set_run(
    builder: &mut Builder,
    flat: &Flat,
    place: u32,
    process: &Process,
) -> Result<(), BuildError>
    requires { Stands (flat_of flat.now).places builder.old }
    ensures others { OnOk result (SameButStarts builder.old builder.new) }
    ensures starts { OnOk result ((store : Store) → CanStart (widths_in builder.old) (flat_of flat.now).places (Runs place process.now) → StartsWith builder.old store → StartsWith builder.new (started (widths_in builder.old) (flat_of flat.now).places (Runs place process.now) store)) }
{
    let Some(scope) = scope_at(flat, place) else {
        return Err(BuildError::Memory);
    };
    start_process(builder, scope, process);
    Ok(())
}

/// Gives signals the start values of an item.
fn set_item(builder: &mut Builder, flat: &Flat, item: &FlatItem) -> Result<(), BuildError>
    requires { Stands (flat_of flat.now).places builder.old }
    ensures others { OnOk result (SameButStarts builder.old builder.new) }
    ensures starts { OnOk result ((store : Store) → CanStart (widths_in builder.old) (flat_of flat.now).places item.now → StartsWith builder.old store → StartsWith builder.new (started (widths_in builder.old) (flat_of flat.now).places item.now store)) }
{
    match item {
        FlatItem::Starts(number, place, value) => {
            set_declared(builder, flat, *number, *place, value.get())
        }
        FlatItem::Runs(place, process) => set_run(builder, flat, *place, process.get()),
        _ => Ok(()),
    }
}

/// Gives signals the start values of items, one after the other: the last one of a signal counts. Values of items that are refused
/// are left out, or may be any. Nothing but start values changes.
pub fn set_starts(builder: &mut Builder, flat: &Flat, items: &[FlatItem]) -> Result<(), BuildError>
    requires { Stands (flat_of flat.now).places builder.old }
    ensures others { OnOk result (SameButStarts builder.old builder.new) }
    ensures starts { OnOk result ((store : Store) → AllStart (widths_in builder.old) (flat_of flat.now).places items.now → StartsWith builder.old store → StartsWith builder.new (starts_from (widths_in builder.old) (flat_of flat.now).places items.now store)) }
{
    let mut rest = items;
    while let [item, more @ ..] = rest {
        set_item(builder, flat, item)?;
        rest = more;
    }
    Ok(())
}
