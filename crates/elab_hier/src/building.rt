//! The items of a design, built in a builder that has its signals with their start values.
ghost use Rattle.std.specs.Prelude.{◌≡◌, None, Some, IfErr, IfOk};
ghost use Rattle.flat_items.specs.Views.{flat_of};
ghost use Rattle.flat_clocks.specs.Views.{clocks_in};
ghost use Rattle.flat_clocks.specs.Clocks.{clocks_of};
ghost use Rattle.flat_laws.specs.Sound.{IsSound};
ghost use Rattle.elab_items.specs.Desks.{Serves};
ghost use Rattle.elab_items.specs.Turns.{IsPast, max_turns};
ghost use Rattle.elab_hier.specs.Parts.{IsBegun, IsFullAs, IsBuilt, IsNotBuilt};

use crate::answers::{build_answer, full_answer};
use elab_items::{
    BuildError, Desk, ElabError, build_items, declare_signals, first_past, set_starts,
};
use flat_clocks::Clocks;
use flat_items::Flat;
use mcy_base::Kind;
use net_builder::Builder;
use std::alloc::Global;

/// A builder that has the signals of a design, with their start values.
fn begin(alloc: Global, flat: &Flat<'_>) -> Result<Builder, ElabError>
    requires { IsSound (flat_of flat.now) }
    ensures begun { IfOk result (IsBegun (flat_of flat.now)) }
    ensures full { IfErr result (IsFullAs (flat_of flat.now)) }
{
    let mut builder = match declare_signals(alloc, flat.signals()) {
        Ok(builder) => builder,
        Err(BuildError::TooMany(_)) => return Err(full_answer(flat)),
        Err(_) => return Err(ElabError::Memory),
    };
    match set_starts(&mut builder, flat, flat.items()) {
        Ok(()) => Ok(builder),
        Err(_) => Err(ElabError::Memory),
    }
}

/// Builds all items of a design whose loops do not take too many turns, up to the first one that is refused.
fn build_all(
    mut builder: Builder,
    mut desk: Desk,
    flat: &Flat<'_>,
    inputs: &[bool],
    clocks: &Clocks,
) -> Result<Builder, ElabError>
    requires sound { IsSound (flat_of flat.now) }
    requires timed { clocks_in clocks.now ≡ clocks_of inputs.now (flat_of flat.now) }
    requires begun { IsBegun (flat_of flat.now) builder }
    requires serves { Serves inputs.now (flat_of flat.now).places builder desk }
    requires few { IsPast (flat_of flat.now).places max_turns (flat_of flat.now).items None }
    ensures built { IfOk result (IsBuilt (flat_of flat.now) inputs.now) }
    ensures refused { IfErr result (IsNotBuilt (flat_of flat.now) inputs.now) }
{
    match build_items(&mut builder, &mut desk, inputs, clocks, flat, flat.items()) {
        Ok(()) => Ok(builder),
        Err(error) => Err(build_answer(builder.alloc(), flat.signals(), error)),
    }
}

/// Why a design is not built whose loops take too many turns with the item that stands behind so many: one of those before it is refused,
/// or they are all built.
fn refuse(
    mut builder: Builder,
    mut desk: Desk,
    flat: &Flat<'_>,
    inputs: &[bool],
    clocks: &Clocks,
    count: usize,
) -> ElabError
    requires sound { IsSound (flat_of flat.now) }
    requires timed { clocks_in clocks.now ≡ clocks_of inputs.now (flat_of flat.now) }
    requires begun { IsBegun (flat_of flat.now) builder }
    requires serves { Serves inputs.now (flat_of flat.now).places builder desk }
    requires many { IsPast (flat_of flat.now).places max_turns (flat_of flat.now).items (Some count) }
    ensures { IsNotBuilt (flat_of flat.now) inputs.now result }
{
    let before = &flat.items()[..count];
    match build_items(&mut builder, &mut desk, inputs, clocks, flat, before) {
        Ok(()) => ElabError::TooMany(Kind::LoopTurns),
        Err(error) => build_answer(builder.alloc(), flat.signals(), error),
    }
}

/// Builds all items of a design, up to the first one that is refused. The turns of its loops are counted before.
pub(crate) fn build(
    alloc: Global,
    flat: &Flat<'_>,
    inputs: &[bool],
    clocks: &Clocks,
) -> Result<Builder, ElabError>
    requires sound { IsSound (flat_of flat.now) }
    requires timed { clocks_in clocks.now ≡ clocks_of inputs.now (flat_of flat.now) }
    ensures built { IfOk result (IsBuilt (flat_of flat.now) inputs.now) }
    ensures refused { IfErr result (IsNotBuilt (flat_of flat.now) inputs.now) }
{
    let builder = begin(alloc, flat)?;
    let mut desk = Desk::new(&builder, inputs)?;
    match first_past(&builder, &mut desk, flat, flat.items())? {
        None => build_all(builder, desk, flat, inputs, clocks),
        Some(count) => Err(refuse(builder, desk, flat, inputs, clocks, count)),
    }
}
