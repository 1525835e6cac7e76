//! A node settles.
ghost use Rattle.std.specs.Prelude.{◌≡◌, OnOk};
ghost use Rattle.netlist_core.specs.Runs.{bits_at};
ghost use Rattle.cycle_sim.specs.Simulated.{settled_nets};
ghost use Rattle.vlog_syntax.specs.declared.stmt.Assignment.{Assignment as Side};
ghost use Rattle.vlog_meaning.specs.Scopes.{names_of};
ghost use Rattle.tb_machine.specs.Worlds.{assigned};
ghost use Rattle.tb_evaluator.specs.Meanings.{HasSignals};
ghost use Rattle.tb_nets.specs.declared.node.NetNode.TheVariants.{Assign as IsAssign};
ghost use Rattle.tb_settling.specs.Nodes.{situation, PortsFit, IsSide, IsOfNode, node_updates, IsCycleOf};

use crate::assign::settle_assign;
use crate::design::settle_design;
use cycle_sim::Sim;
use std::alloc::{AllocError, Global};
use tb_machine::Scene;
use tb_nets::NetNode;
use tb_plans::Transfer;
use vlog_meaning::Scope;

/// A node settles: signals get the values that it gives them.
pub(crate) fn settle_node(
    alloc: Global,
    node: &NetNode,
    plan: &Option<Transfer>,
    scope: &Scope,
    phase: u64,
    inputs: &[u32],
    outputs: &[u32],
    scene: &mut Scene,
    sim: &mut Sim,
) -> Result<(), AllocError>
    requires side { IsSide (names_of scope.now) node.now }
    requires plan { IsOfNode (names_of scope.now) node.now plan.now }
    requires signals { HasSignals (names_of scope.now) scene.old.widths }
    requires entered { PortsFit scene.old.widths inputs.now (bits_at sim.old.plan.raw.inputs) }
    requires shown { PortsFit scene.old.widths outputs.now (bits_at sim.old.plan.raw.outputs) }
    ensures cycle { OnOk result (IsCycleOf (situation (names_of scope.now) inputs.now outputs.now phase sim.old) (settled_nets sim.new) scene.old.store node.now) }
    ensures scene { OnOk result (scene.new ≡ assigned scene.old (node_updates (situation (names_of scope.now) inputs.now outputs.now phase sim.old) (settled_nets sim.new) scene.old.store node.now)) }
    ensures other { OnOk result ((a : Side) → node.now ≡ IsAssign a → settled_nets sim.new ≡ settled_nets sim.old) }
    ensures plan { sim.new.plan ≡ sim.old.plan }
    ensures registers { sim.new.registers ≡ sim.old.registers }
{
    match node {
        NetNode::Assign(assignment) => settle_assign(alloc, assignment, plan, scope, phase, scene),
        NetNode::Design => {
            settle_design(inputs, outputs, scene, sim);
            Ok(())
        }
    }
}
