//! The transcript of a bench with a design.
ghost use Rattle.std.specs.Prelude.{IfOk};
ghost use Rattle.tb_machine.specs.Simulations.{outcome};
ghost use Rattle.tb_bench.specs.Runnable.{FitsDesign};
ghost use Rattle.tb_runner.specs.Simulated.{ComesTo};

use crate::simulation::Simulation;
use netlist_core::Netlist;
use std::alloc::{AllocError, Global};
use tb_bench::Bench;
use tb_process::Run;
use tb_turns::{Transcript, transcript_of};

/// What the bench prints with the design at its instance, up to `$finish` or to a limit: a phase with too many statements, or the
/// end of so many cycles.
pub fn transcript(
    alloc: Global,
    bench: &Bench,
    netlist: Netlist,
    word_seed: u64,
    cycles: u32,
) -> Result<Transcript, AllocError>
    requires { FitsDesign bench.now netlist.raw }
    ensures { IfOk result (λ t. ComesTo (record { bench = bench.now; netlist = netlist.raw; seed = word_seed }) cycles (outcome t.finished t.text)) }
{
    let run = Run::new(alloc, bench, netlist, word_seed)?;
    let mut simulation = Simulation { bench, run };
    transcript_of(alloc, &mut simulation, cycles)
}
