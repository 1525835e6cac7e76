//! A job of a simulation: it simulates in turns until it has a verdict.
//!
//! Invariant: while there is neither a verdict nor a refusal for want of memory, the run is where the phases so far lead to, and the
//! watch has seen what they printed. Contracts see what is simulated, the limit, the two texts and how many phases went on.
ghost use Rattle.std.specs.Prelude.{◌≡◌, ◌<◌, ◌↔◌, true, false, IfOk, IsErr, MatchOption, ⊤};
ghost use Rattle.tb_machine.specs.Simulations.{phases_of};
ghost use Rattle.tb_bench.specs.Runnable.{FitsDesign};
ghost use Rattle.tb_turns.specs.Reached.{phases_after};
ghost use Rattle.tb_runner.specs.Simulated.{GoesOn, Ends, Says};
ghost use Rattle.tb_runner.specs.Jobs.{new_job, IsSameJob};

use crate::simulation::Simulation;
use netlist_core::Netlist;
use std::alloc::{AllocError, Global};
use std::marker::Model;
use tb_bench::Bench;
use tb_process::Run;
use tb_turns::{SimVerdict, Turns};

/// A simulation that is watched for a pass text and a fail text.
pub struct SimJob<'a> {
    turns: Turns<Simulation<'a>>,
    word_seed: u64,
    is_over: bool,
}

impl Drop for SimJob<'_> {
    fn drop(self) {
        let SimJob {
            turns: _turns,
            word_seed: _word_seed,
            is_over: _is_over,
        } = self;
    }
}

impl<'a> Model for SimJob<'a> {
    ghost use Rattle.std.specs.Coded.{codes};
    ghost use Rattle.std.specs.Prelude.{◌≡◌, false};
    ghost use Rattle.tb_bench.specs.contracts.parts.Parts as p;
    ghost use Rattle.tb_runner.specs.Simulated.{Simulated};
    ghost use Rattle.tb_runner.specs.Jobs.{Job, IsJob};

    ghost Value = { Job };

    ghost coded = { Prim.hlevel (codes, p.the_row.coded) };

    ghost view = { λ j. record { simulated = record { bench = j.turns.run.bench.now; netlist = j.turns.run.run.sim.plan.raw; seed = j.word_seed }; limit = j.turns.limit; pass = j.turns.watch.pass.word; fail = j.turns.watch.fail.word; phases = j.turns.phases; is_over = j.is_over; is_refused = j.turns.refused } };

    ghost invariant = { λ j. j.is_over ≡ false → j.turns.refused ≡ false → IsJob (record { bench = j.turns.run.bench.now; netlist = j.turns.run.run.sim.plan.raw; seed = j.word_seed }) j.turns.limit j.turns.run.run j.turns.phases j.turns.watch };
}

impl<'a> SimJob<'a> {
    /// The job of a simulation with a limit of cycles. An empty text occurs nowhere.
    pub fn new(
        alloc: Global,
        bench: &'a Bench,
        netlist: Netlist,
        word_seed: u64,
        cycles: u32,
        pass: &[u8],
        fail: &[u8],
    ) -> Result<SimJob<'a>, AllocError>
        requires { FitsDesign bench.now netlist.raw }
        ensures { IfOk result (λ j. j ≡ new_job (record { bench = bench.now; netlist = netlist.raw; seed = word_seed }) cycles pass.now fail.now) }
    {
        let run = Run::new(alloc, bench, netlist, word_seed)?;
        let turns = Turns::new(alloc, Simulation { bench, run }, cycles, pass, fail)?;
        Ok(SimJob {
            turns,
            word_seed,
            is_over: false,
        })
    }

    /// Simulates so many cycles more, or up to the verdict. The error is want of memory, and then each later turn is refused too. By
    /// `none` the phases that are left up to the limit fall with each turn without a verdict.
    pub fn turn(&mut self, cycles: u32) -> Result<Option<SimVerdict>, AllocError>
        requires positive { 0 < cycles }
        requires going { self.old.is_over ≡ false }
        ensures same { IsSameJob self.old self.new }
        ensures told { IfOk result (λ o. MatchOption o ⊤ (Says self.old.simulated self.old.limit self.old.pass self.old.fail)) }
        ensures none { IfOk result (λ o. MatchOption o (GoesOn self.old.simulated self.new.phases × (self.new.phases ≡ phases_after self.old.phases cycles) × (self.new.phases < phases_of self.old.limit)) (λ _. ⊤)) }
        ensures some { IfOk result (λ o. MatchOption o ⊤ (λ _. Ends self.old.simulated self.old.limit (phases_after self.old.phases cycles))) }
        ensures over { IfOk result (λ o. MatchOption o (self.new.is_over ≡ false) (λ _. self.new.is_over ≡ true)) }
        ensures refused { self.old.is_refused ≡ true → IsErr result }
        ensures refuses { (self.new.is_refused ≡ true) ↔ IsErr result }
    {
        let verdict = self.turns.turn(cycles)?;
        self.is_over = verdict.is_some();
        Ok(verdict)
    }
}
