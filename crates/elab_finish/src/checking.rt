//! The netlist of a builder is checked: only loops through cells can refuse it.
ghost use Rattle.std.specs.Prelude.{◌≡◌, ◌≤◌, ◌⊎◌, ℕ, length, map, IfOk, IfErr, MatchResult};
ghost use Rattle.mcy_base.specs.declared.span.Span.{Span as Place};
ghost use Rattle.netlist_core.specs.Checked.{IsFormed, IsRefused};
ghost use Rattle.netlist_core.specs.declared.netlist.NetError.{NetError as Refusal};
ghost use Rattle.netlist_core.specs.declared.netlist.NetError.TheVariants as e;
ghost use Rattle.net_builder.specs.Building.{Building};
ghost use Rattle.elab_finish.specs.Checking.{OnlyLoops, span_of};
ghost use Rattle.elab_finish.specs.Names.{AreNamedApart};
ghost use Rattle.elab_finish.specs.Refusals.{IsOver, IsWithin};

use crate::error::DesignError;
use crate::limits::test_limits;
use crate::names::test_names;
use mcy_base::Span;
use netlist_core::{Cell, NetError, Netlist, RawNetlist};
use std::alloc::{AllocError, Global};

/// The places of cells, by their numbers.
pub(crate) fn spans_of(alloc: Global, cells: &[Cell]) -> Result<Vec<Span>, AllocError>
    ensures { IfOk result (λ spans. spans.items ≡ map span_of cells.now) }
{
    let mut spans = Vec::new(alloc);
    for cell in cells {
        spans.push(cell.span)?;
    }
    Ok(spans)
}

/// There are not too many bits, and no two registers have one name.
pub(crate) fn test_netlist(alloc: Global, raw: &RawNetlist) -> Result<(), DesignError>
    ensures { (b : Building) → MatchResult result (λ _. IsWithin raw.now × AreNamedApart raw.now.registers) (IsOver b raw.now) }
{
    match test_limits(raw) {
        Ok(()) => test_names(alloc, raw),
        Err(error) => Err(error),
    }
}

/// The netlist of these parts, which can only be refused for a loop through cells, whose places are given.
pub(crate) fn checked(
    alloc: Global,
    raw: RawNetlist,
    spans: &[Span],
) -> Result<Netlist, DesignError>
    requires formed { IsFormed raw }
    requires only { OnlyLoops raw }
    requires within { IsWithin raw }
    requires apart { AreNamedApart raw.registers }
    ensures parts { IfOk result (λ n. n.raw ≡ raw) }
    ensures over { (b : Building) → spans.now ≡ map span_of b.cells → length raw.cells ≡ length b.cells → IfErr result (IsOver b raw) }
{
    match Netlist::check(alloc, raw) {
        Ok(netlist) => Ok(netlist),
        Err(NetError::Loop(cell)) => match spans.get(cell as usize) {
            Some(span) => Err(DesignError::Loop(*span)),
            None => Err(DesignError::Memory),
        },
        Err(
            NetError::Memory
            | NetError::TooMany(_)
            | NetError::BadShape(_)
            | NetError::TwoDrivers(_)
            | NetError::Undriven(_),
        ) => Err(DesignError::Memory),
    }
}
