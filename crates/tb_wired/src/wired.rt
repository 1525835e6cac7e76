//! The nets of a testbench, from its items.
ghost use Rattle.std.specs.Prelude.{◌≡◌, true, IfOk};
ghost use Rattle.vlog_meaning.specs.Scopes.{names_of};
ghost use Rattle.elab_proc.specs.Refusals.{AreSized};
ghost use Rattle.tb_refusals.specs.Refusals.{is_design, some_item};
ghost use Rattle.tb_wired.specs.Wired.{IsFaultless, IsWired};

use crate::places::place_of;
use mcy_base::Span;
use std::alloc::{AllocError, Global};
use tb_contents::nodes_of;
use tb_items::BenchItem;
use tb_nets::{Nets, Netted};
use vlog_meaning::Scope;

/// What comes of the items of a testbench: its nets, or the place of the first that is on a loop.
#[derive(Drop)]
pub enum Wired {
    Nets(Nets),
    Loop(Span),
}

/// The nets of items without a fault, among which is an instance of the design; these are the hidden signals at its inputs and
/// outputs.
pub fn wire(
    alloc: Global,
    items: &[BenchItem<'_>],
    scope: &Scope,
    inputs: &[u32],
    outputs: &[u32],
) -> Result<Wired, AllocError>
    requires sized { AreSized (names_of scope.now) }
    requires held { some_item is_design items.now ≡ true }
    requires faultless { IsFaultless (names_of scope.now) outputs.now items.now }
    ensures { IfOk result (IsWired (names_of scope.now) inputs.now outputs.now items.now) }
{
    let nodes = nodes_of(alloc, items)?;
    match Nets::new(alloc, nodes, inputs, outputs, scope)? {
        Netted::Ready(nets) => Ok(Wired::Nets(nets)),
        Netted::Loop(node) => Ok(Wired::Loop(place_of(alloc, items, node)?)),
    }
}
