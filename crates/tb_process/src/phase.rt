//! A phase: the clock changes, processes go on, and all settles.
ghost use Rattle.std.specs.Prelude.{◌≡◌, ◌+◌, ◌<◌, ◌-◌, ◌^◌, [], IfOk, List};
ghost use Rattle.vlog_syntax.specs.declared.stmt.Stmt.{Stmt};
ghost use Rattle.tb_machine.specs.declared.phase_end.PhaseEnd.TheVariants.{Going};
ghost use Rattle.tb_machine.specs.Nodes.{IsCode, tree_of};
ghost use Rattle.tb_machine.specs.Phases.{State};
ghost use Rattle.tb_bench.specs.Runnable.{IsRunnable};
ghost use Rattle.tb_process.specs.Running.{IsOf, Stands, Follows, running};

use crate::active::run_processes;
use crate::clock::{begin_phase, event_of};
use crate::settle::end_phase;
use cycle_sim::Sim;
use std::alloc::{AllocError, Global};
use tb_bench::Parts;
use tb_machine::{Ended, PhaseEnd, Process, Scene};

/// Runs a phase. What it prints is then the text of the scene.
pub(crate) fn run_phase(
    alloc: Global,
    parts: &Parts,
    phase: u64,
    sim: &mut Sim,
    always: &mut Vec<Process>,
    initial: &mut [Process],
    scene: &mut Scene,
) -> Result<PhaseEnd, AllocError>
    requires runnable { IsRunnable parts.now }
    requires of { IsOf parts.now (running phase sim.old scene.old initial.old) }
    ensures phase { (trees : List Stmt) (s : State) → IsCode parts.now.code trees → Stands parts.now (tree_of trees) (running phase sim.old scene.old initial.old) s → IfOk result (λ e. (t : State) × Follows parts.now (tree_of trees) sim.old.plan.raw s e (running (phase + 1) sim.new scene.new initial.new) t) }
    ensures of { IfOk result (λ e. e ≡ Going → IsOf parts.now (running (phase + 1) sim.new scene.new initial.new)) }
    ensures design { sim.new.plan ≡ sim.old.plan }
{
    let event = event_of(phase);
    begin_phase(parts.clock, event, scene);
    match run_processes(alloc, parts, phase, event, always, initial, scene)? {
        Ended::Pauses => {
            end_phase(alloc, parts, phase, event, sim, scene)?;
            Ok(PhaseEnd::Going)
        }
        Ended::Finished => Ok(PhaseEnd::Finished),
        Ended::TooLong => Ok(PhaseEnd::TooLong),
    }
}
