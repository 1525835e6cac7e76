//! The end of a phase: updates apply, registers take their D, and the nets settle.
ghost use Rattle.std.specs.Prelude.{◌≡◌, [], OnOk};
ghost use Rattle.tb_machine.specs.Worlds.{all_applied};
ghost use Rattle.tb_machine.specs.Nodes.{Tree};
ghost use Rattle.tb_machine.specs.Phases.{Settles, after_edge};
ghost use Rattle.tb_bench.specs.Settings.{setting_of, widths};
ghost use Rattle.tb_bench.specs.Runnable.{IsRunnable, FitsDesign};
ghost use Rattle.tb_process.specs.Running.{next_of};

use cycle_sim::Sim;
use std::alloc::{AllocError, Global};
use tb_bench::Parts;
use tb_machine::{Event, Scene};
use tb_settling::settle;

/// Registers take what stood at their D, where the clock rises.
fn clock_registers(event: Event, sim: &mut Sim)
    ensures registers { sim.new.registers ≡ after_edge event sim.old.registers (next_of sim.old) }
    ensures plan { sim.new.plan ≡ sim.old.plan }
{
    match event {
        Event::Rise => sim.clock(),
        Event::Start => {}
        Event::Fall => {}
    }
}

/// All nets settle.
fn settle_nets(
    alloc: Global,
    parts: &Parts,
    phase: u64,
    sim: &mut Sim,
    scene: &mut Scene,
) -> Result<(), AllocError>
    requires runnable { IsRunnable parts.now }
    requires design { FitsDesign parts.now sim.old.plan.raw }
    requires widths { scene.old.widths ≡ widths parts.now }
    ensures settles { (tree : Tree) → OnOk result (Settles (setting_of parts.now tree sim.old.plan.raw) phase sim.old.registers scene.old.store scene.new.store (next_of sim.new)) }
    ensures registers { sim.new.registers ≡ sim.old.registers }
    ensures plan { sim.new.plan ≡ sim.old.plan }
    ensures rest { OnOk result (scene.new ≡ record scene.old { store = scene.new.store }) }
{
    settle(
        alloc,
        &parts.nets,
        parts.net_plans.as_slice(),
        &parts.scope,
        phase,
        parts.inputs.as_slice(),
        parts.outputs.as_slice(),
        scene,
        sim,
    )
}

/// The updates that are to apply do so, registers take their D where the clock rises, and all nets settle.
pub(crate) fn end_phase(
    alloc: Global,
    parts: &Parts,
    phase: u64,
    event: Event,
    sim: &mut Sim,
    scene: &mut Scene,
) -> Result<(), AllocError>
    requires runnable { IsRunnable parts.now }
    requires design { FitsDesign parts.now sim.old.plan.raw }
    requires widths { scene.old.widths ≡ widths parts.now }
    ensures settles { (tree : Tree) → OnOk result (Settles (setting_of parts.now tree sim.old.plan.raw) phase sim.new.registers (all_applied scene.old.store scene.old.updates) scene.new.store (next_of sim.new)) }
    ensures registers { OnOk result (sim.new.registers ≡ after_edge event sim.old.registers (next_of sim.old)) }
    ensures plan { sim.new.plan ≡ sim.old.plan }
    ensures rest { OnOk result (scene.new ≡ record scene.old { store = scene.new.store; updates = [] }) }
{
    scene.assign_scheduled();
    clock_registers(event, sim);
    settle_nets(alloc, parts, phase, sim, scene)
}
