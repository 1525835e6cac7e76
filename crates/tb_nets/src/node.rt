//! Nodes: what gives signals their values whenever others change. Which bits a node reads and writes.
ghost use Rattle.std.specs.Prelude.{◌≡◌, ◌||◌, ℕ, List, OnOk};
ghost use Rattle.vlog_meaning.specs.Scopes.{names_of};
ghost use Rattle.signal_masks.specs.Masks.{bits_in};
ghost use Rattle.tb_nets.specs.Nets.{wiring, signal_bits, node_reads, node_writes, IsSided};

use crate::lefts::{lowest, written_by};
use signal_masks::{Masks, indices_of, reads_of};
use std::alloc::AllocError;
use vlog_meaning::Scope;
use vlog_syntax::Assignment;

/// A node of the nets of a bench.
#[derive(Drop)]
pub enum NetNode {
    /// A continuous assignment, or a connection of the instance.
    Assign(Assignment),
    /// The design.
    Design,
}

/// Adds all bits of signals.
fn add_signals(numbers: &[u32], masks: &mut Masks) -> Result<(), AllocError>
    ensures { OnOk result ((n i : ℕ) → bits_in masks.new n i ≡ (bits_in masks.old n i || signal_bits numbers.now n i)) }
{
    for number in numbers {
        masks.add(*number, lowest(128))?;
    }
    Ok(())
}

/// Adds the bits that a node reads, where these are the signals at the design's inputs.
pub(crate) fn add_reads(
    node: &NetNode,
    inputs: &[u32],
    scope: &Scope,
    masks: &mut Masks,
) -> Result<(), AllocError>
    requires { IsSided (names_of scope.now) node.now }
    ensures { (outputs : List ℕ) → OnOk result ((n i : ℕ) → bits_in masks.new n i ≡ (bits_in masks.old n i || node_reads (wiring (names_of scope.now) inputs.now outputs) node.now n i)) }
{
    match node {
        NetNode::Assign(assignment) => {
            reads_of(assignment.value.get(), scope, masks)?;
            indices_of(&assignment.left, scope, masks)?;
        }
        NetNode::Design => add_signals(inputs, masks)?,
    }
    Ok(())
}

/// Adds the bits that a node writes, where these are the signals at the design's outputs.
pub(crate) fn add_writes(
    node: &NetNode,
    outputs: &[u32],
    scope: &Scope,
    masks: &mut Masks,
) -> Result<(), AllocError>
    requires { IsSided (names_of scope.now) node.now }
    ensures { (inputs : List ℕ) → OnOk result ((n i : ℕ) → bits_in masks.new n i ≡ (bits_in masks.old n i || node_writes (wiring (names_of scope.now) inputs outputs.now) node.now n i)) }
{
    match node {
        NetNode::Assign(assignment) => written_by(&assignment.left, scope, masks)?,
        NetNode::Design => add_signals(outputs, masks)?,
    }
    Ok(())
}
