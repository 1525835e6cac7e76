//! One pass over the nets of a bench, in their order.
//!
//! A node reads no bit that it or a later one writes, and no bit has two writers, so what a node gives its signals holds
//! from then on.
ghost use Rattle.std.specs.Prelude.{◌≡◌, map, length, slice_index, OnOk};
ghost use Rattle.netlist_core.specs.Runs.{bits_at, plain, taken};
ghost use Rattle.cycle_sim.specs.Simulated.{settled_nets};
ghost use Rattle.vlog_meaning.specs.Scopes.{names_of};
ghost use Rattle.tb_machine.specs.Phases.{Setting, Settles};
ghost use Rattle.tb_evaluator.specs.Meanings.{HasSignals};
ghost use Rattle.tb_plans.specs.Plans.{AreNetPlans};
ghost use Rattle.tb_settling.specs.Settling.{CanSettle, IsNetsOf};
ghost use Rattle.tb_settling.specs.Nodes.{IsStore};

use crate::node::settle_node;
use cycle_sim::Sim;
use std::alloc::{AllocError, Global};
use tb_machine::Scene;
use tb_nets::Nets;
use tb_plans::Transfer;
use vlog_meaning::Scope;

/// The values of a scene are those of its signals.
fn has_store(scene: &Scene, scope: &Scope)
    requires { HasSignals (names_of scope.now) scene.now.widths }
    ensures { IsStore (names_of scope.now) scene.now.widths scene.now.store }
{
    scene.store();
}

/// The nets of a bench settle in a phase: each assign, by its plan where it has one, and the design with what stands at its inputs. Where there is no memory
/// for it, they may have settled in part.
pub fn settle(
    alloc: Global,
    nets: &Nets,
    plans: &[Option<Transfer>],
    scope: &Scope,
    phase: u64,
    inputs: &[u32],
    outputs: &[u32],
    scene: &mut Scene,
    sim: &mut Sim,
) -> Result<(), AllocError>
    requires can { CanSettle (names_of scope.now) scene.old.widths inputs.now outputs.now nets.now }
    requires plans { AreNetPlans (names_of scope.now) nets.now.nodes plans.now }
    requires signals { HasSignals (names_of scope.now) scene.old.widths }
    requires entered { map (slice_index scene.old.widths) inputs.now ≡ map length (bits_at sim.old.plan.raw.inputs) }
    requires shown { map (slice_index scene.old.widths) outputs.now ≡ map length (bits_at sim.old.plan.raw.outputs) }
    ensures settles { (g : Setting) → IsNetsOf g (names_of scope.now) inputs.now outputs.now nets.now.nodes sim.old.plan.raw → OnOk result (Settles g phase sim.old.registers scene.old.store scene.new.store (taken (plain (settled_nets sim.new)) 0 sim.old.plan.raw.registers)) }
    ensures scene { OnOk result (scene.new ≡ record scene.old { store = scene.new.store }) }
    ensures plan { sim.new.plan ≡ sim.old.plan }
    ensures registers { sim.new.registers ≡ sim.old.registers }
{
    let nodes = nets.nodes.as_slice();
    has_store(scene, scope);
    for place in nets.order.as_slice() {
        settle_node(
            alloc,
            &nodes[*place],
            &plans[*place],
            scope,
            phase,
            inputs,
            outputs,
            scene,
            sim,
        )?;
        has_store(scene, scope);
    }
    Ok(())
}
