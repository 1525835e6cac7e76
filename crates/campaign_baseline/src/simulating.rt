//! The simulations of the design.
ghost use Rattle.std.specs.Prelude.{◌≡◌, ◌+◌, ◌<◌, IfOk, OnOk, length};
ghost use Rattle.tb_bench.specs.Runnable.{FitsDesign};
ghost use Rattle.tb_runner.specs.Simulated.{Says};
ghost use Rattle.campaign_plan.specs.Campaigns.{IsPlan};
ghost use Rattle.campaign_run.specs.Baselines.{AreBaselines, EndsIn, design_run};
ghost use Rattle.campaign_run.specs.Limits.{baseline_limit, HasBaselines};

use campaign_plan::{Prepared, Trial};
use campaign_run::Baseline;
use netlist_core::Netlist;
use std::alloc::{AllocError, Global};
use tb_bench::Bench;
use tb_runner::{SimJob, SimVerdict};

/// The most cycles of the design itself where those of a mutant are to follow from them.
const MOST_CYCLES: u32 = 100_000;

/// What the bench prints as a word with the netlist at its instance, and the cycle in which it ends: simulated cycle by cycle.
fn ended(
    alloc: Global,
    bench: &Bench,
    netlist: Netlist,
    word_seed: u64,
    limit: u32,
    pass: &[u8],
    fail: &[u8],
) -> Result<(SimVerdict, u32), AllocError>
    requires { FitsDesign bench.now netlist.raw }
    ensures says { IfOk result (λ r. Says (record { bench = bench.now; netlist = netlist.raw; seed = word_seed }) limit pass.now fail.now r.0) }
    ensures takes { IfOk result (λ r. EndsIn (record { bench = bench.now; netlist = netlist.raw; seed = word_seed }) limit r.1) }
{
    let mut job = SimJob::new(alloc, bench, netlist, word_seed, limit, pass, fail)?;
    let mut cycle = 1;
    'cycles: loop {
        if let Some(verdict) = job.turn(1)? {
            return Ok((verdict, cycle));
        }
        cycle += 1;
    }
}

/// What this bench says of the design, under this limit of cycles, as the test of this number.
fn baseline_of(
    alloc: Global,
    prepared: &Prepared,
    limit: u32,
    test: u32,
    bench: &Bench,
    pass: &[u8],
    fail: &[u8],
) -> Result<Baseline, AllocError>
    requires { FitsDesign bench.now prepared.now.netlist }
    ensures test { IfOk result (λ b. b.test ≡ test) }
    ensures says { IfOk result (λ b. Says (design_run prepared.now bench.now) limit pass.now fail.now b.verdict) }
    ensures takes { IfOk result (λ b. EndsIn (design_run prepared.now bench.now) limit b.cycles) }
{
    let netlist = prepared.netlist.netlist().copy(alloc)?;
    let (verdict, cycles) = ended(alloc, bench, netlist, prepared.word_seed, limit, pass, fail)?;
    Ok(Baseline {
        test,
        verdict,
        cycles,
    })
}

/// Adds the baseline of a test, if it is a simulation.
fn add_baseline(
    alloc: Global,
    prepared: &Prepared,
    limit: u32,
    test: u32,
    list: &mut Vec<Baseline>,
) -> Result<(), AllocError>
    requires plan { IsPlan prepared.now }
    requires test { test < length prepared.now.trials }
    requires before { AreBaselines prepared.now limit test list.old.items }
    ensures { OnOk result (AreBaselines prepared.now limit (test + 1) list.new.items) }
{
    match &prepared.trials.as_slice()[test as usize] {
        Trial::Equality => Ok(()),
        Trial::Simulation { bench, pass, fail } => {
            let baseline = baseline_of(
                alloc,
                prepared,
                limit,
                test,
                bench,
                pass.as_slice(),
                fail.as_slice(),
            )?;
            list.push(baseline)?;
            Ok(())
        }
    }
}

/// The same of all tests, under a limit of cycles.
fn baselines_under(
    alloc: Global,
    prepared: &Prepared,
    limit: u32,
) -> Result<Vec<Baseline>, AllocError>
    requires { IsPlan prepared.now }
    ensures { IfOk result (λ list. AreBaselines prepared.now limit (length prepared.now.trials) list.items) }
{
    let mut list = Vec::new(alloc);
    for test in 0..prepared.trials.as_slice().len() {
        add_baseline(alloc, prepared, limit, test as u32, &mut list)?;
    }
    Ok(list)
}

/// The limit of cycles of the design itself.
fn baseline_limit(prepared: &Prepared) -> u32
    ensures { result ≡ baseline_limit prepared.now }
{
    if prepared.auto_cycles {
        MOST_CYCLES
    } else {
        prepared.cycles
    }
}

/// What the bench of each simulation test says of the design, in the order of the tests.
pub fn baselines(alloc: Global, prepared: &Prepared) -> Result<Vec<Baseline>, AllocError>
    requires { IsPlan prepared.now }
    ensures { IfOk result (λ list. HasBaselines prepared.now list.items) }
{
    baselines_under(alloc, prepared, baseline_limit(prepared))
}
