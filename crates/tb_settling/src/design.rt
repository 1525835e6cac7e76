//! The design settles: its inputs are read from the scene, and its outputs are shown in it.
ghost use Rattle.std.specs.Prelude.{◌≡◌, ◌<◌, [], ◌∷◌, length, slice_index};
ghost use Rattle.netlist_core.specs.Runs.{bits_at, plain, shown, Holds as IsCycle};
ghost use Rattle.cycle_sim.specs.Simulated.{settled_nets};
ghost use Rattle.tb_machine.specs.Worlds.{assigned};
ghost use Rattle.tb_settling.specs.Settling.{values_at, whole_updates};
ghost use Rattle.tb_settling.specs.Nodes.{PortsFit, whole_update};

use cycle_sim::Sim;
use mcy_base::Word;
use tb_machine::Scene;

/// A signal gets a value, whole.
pub(crate) fn set_whole(signal: u32, word: Word, scene: &mut Scene)
    requires known { signal < length scene.old.widths }
    requires width { word.width ≡ slice_index scene.old.widths signal }
    ensures { scene.new ≡ assigned scene.old (record { signal = signal; low = 0; width = word.width; value = word.bits } ∷ []) }
{
    scene.store();
    scene.set(signal, word);
}

/// How many outputs a design has.
fn output_count(sim: &Sim) -> u32
    ensures { result ≡ length sim.now.plan.raw.outputs }
{
    sim.netlist().raw().outputs.as_slice().len() as u32
}

/// A signal gets what an output shows.
fn show(port: u32, outputs: &[u32], sim: &Sim, scene: &mut Scene)
    requires port { port < length sim.now.plan.raw.outputs }
    requires ports { PortsFit scene.old.widths outputs.now (bits_at sim.now.plan.raw.outputs) }
    ensures { scene.new ≡ assigned scene.old (whole_update outputs.now (bits_at sim.now.plan.raw.outputs) (shown (plain (settled_nets sim.now)) sim.now.plan.raw) port ∷ []) }
{
    set_whole(outputs[port as usize], sim.output(port), scene);
}

/// Signals get what the outputs show.
fn show_all(outputs: &[u32], sim: &Sim, scene: &mut Scene)
    requires { PortsFit scene.old.widths outputs.now (bits_at sim.now.plan.raw.outputs) }
    ensures { scene.new ≡ assigned scene.old (whole_updates outputs.now (bits_at sim.now.plan.raw.outputs) (shown (plain (settled_nets sim.now)) sim.now.plan.raw)) }
{
    for port in 0..output_count(sim) {
        show(port, outputs, sim, scene);
    }
}

/// The nets of the design settle, with what stands at its inputs, and signals get what its outputs show.
pub(crate) fn settle_design(inputs: &[u32], outputs: &[u32], scene: &mut Scene, sim: &mut Sim)
    requires entered { PortsFit scene.old.widths inputs.now (bits_at sim.old.plan.raw.inputs) }
    requires shown { PortsFit scene.old.widths outputs.now (bits_at sim.old.plan.raw.outputs) }
    ensures cycle { IsCycle (plain (settled_nets sim.new)) (settled_nets sim.new) sim.old.plan.raw (values_at inputs.now scene.old.store) sim.old.registers }
    ensures scene { scene.new ≡ assigned scene.old (whole_updates outputs.now (bits_at sim.old.plan.raw.outputs) (shown (plain (settled_nets sim.new)) sim.old.plan.raw)) }
    ensures plan { sim.new.plan ≡ sim.old.plan }
    ensures registers { sim.new.registers ≡ sim.old.registers }
{
    sim.settle_with(scene.store(), inputs);
    show_all(outputs, sim, scene);
}
