//! A run of a bench over a design, phase by phase.
//!
//! It is not tied to its bench by a lifetime: each call is given the bench again. `is_refused` tells that a phase was refused
//! for want of memory, which leaves the processes in the midst of it, so that each later phase is refused too. The `always`
//! processes begin anew in each phase; they are kept for their stacks alone.
ghost use Rattle.std.specs.Prelude.{ℕ, OnOk, ◌≡◌, ◌<◌, ◌-◌, ◌+◌, ◌^◌, ◌++◌, true, IfOk, IfErr, IsErr, List};
ghost use Rattle.vlog_syntax.specs.declared.stmt.Stmt.{Stmt};
ghost use Rattle.tb_machine.specs.declared.phase_end.PhaseEnd.TheVariants.{Going};
ghost use Rattle.tb_machine.specs.Nodes.{Tree, IsCode, tree_of};
ghost use Rattle.tb_machine.specs.Phases.{State, IsPhase, ending_of};
ghost use Rattle.tb_watch.specs.Searches.{HasWatched};
ghost use Rattle.tb_bench.specs.Settings.{setting_of, start_of};
ghost use Rattle.tb_bench.specs.Runnable.{FitsDesign, IsRunnable};
ghost use Rattle.tb_process.specs.Running.{IsOf, CanGoOn, Stands, Follows, generator};

use crate::begin::begin_all;
use crate::phase::run_phase;
use cycle_sim::Sim;
use netlist_core::Netlist;
use rand_core::SeedableRng;
use rand_pcg::Lcg64Xsh32;
use std::alloc::{AllocError, Global};
use std::marker::Model;
use tb_bench::Bench;
use tb_machine::{PhaseEnd, Process, Scene};
use tb_watch::Watch;

/// A simulation of a bench with a design at its instance.
pub struct Run {
    alloc: Global,
    phase: u64,
    sim: Sim,
    scene: Scene,
    always: Vec<Process>,
    initial: Vec<Process>,
    is_refused: bool,
}

impl Drop for Run {
    fn drop(self) {
        let Run {
            alloc: _alloc,
            phase: _phase,
            sim: _sim,
            scene: _scene,
            always: _always,
            initial: _initial,
            is_refused: _is_refused,
        } = self;
    }
}

impl Model for Run {
    ghost use Rattle.tb_process.specs.Running.{Running};

    ghost Value = { Running };

    ghost view = { λ r. record { phase = r.phase; sim = r.sim; scene = r.scene; initial = r.initial.items; is_refused = r.is_refused } };
}

impl Run {
    /// The simulation before its first phase. The seed is that of `$random`.
    pub fn new(
        alloc: Global,
        bench: &Bench,
        netlist: Netlist,
        word_seed: u64,
    ) -> Result<Run, AllocError>
        requires { FitsDesign bench.now netlist.raw }
        ensures of { IfOk result (IsOf bench.now) }
        ensures design { IfOk result (λ r. r.sim.plan ≡ netlist) }
        ensures start { (tree : Tree) → IfOk result (λ r. Stands bench.now tree r (start_of bench.now tree netlist.raw (generator word_seed))) }
    {
        let parts = bench.parts();
        let store = parts.starts.as_slice().to_vec(alloc)?;
        let words = Lcg64Xsh32::seed_from_u64(word_seed);
        Ok(Run {
            alloc,
            phase: 0,
            sim: Sim::new(alloc, netlist)?,
            scene: Scene::new(alloc, store, words),
            always: begin_all(alloc, parts.always.as_slice())?,
            initial: begin_all(alloc, parts.initial.as_slice())?,
            is_refused: false,
        })
    }

    /// What the last phase printed.
    pub fn printed(&self) -> &[u8]
        ensures { result.now ≡ self.now.scene.text }
    {
        self.scene.text()
    }

    /// Shows a watch what the last phase printed.
    fn show(&self, watch: &mut Watch) -> Result<(), AllocError>
        ensures seen { (text : List ℕ) → HasWatched watch.old text → OnOk result (HasWatched watch.new (text ++ self.now.scene.text)) }
        ensures pass { watch.new.pass.word ≡ watch.old.pass.word }
        ensures fail { watch.new.fail.word ≡ watch.old.fail.word }
    {
        watch.see(self.printed())
    }

    /// Whether a phase was refused.
    pub fn is_refused(&self) -> bool
        ensures { result ≡ self.now.is_refused }
    {
        self.is_refused
    }

    /// Runs the next phase. The error is want of memory, and then each later phase is refused too.
    pub fn advance(&mut self, bench: &Bench) -> Result<PhaseEnd, AllocError>
        requires of { CanGoOn bench.now self.old }
        requires few { self.old.phase < 2 ^ 64 - 1 }
        ensures phase { (trees : List Stmt) (s : State) → IsCode bench.now.code trees → Stands bench.now (tree_of trees) self.old s → IfOk result (λ e. (t : State) × Follows bench.now (tree_of trees) self.old.sim.plan.raw s e self.new t) }
        ensures of { IfOk result (λ e. e ≡ Going → IsOf bench.now self.new) }
        ensures next { IfOk result (λ _. self.new.phase ≡ self.old.phase + 1) }
        ensures design { self.new.sim.plan ≡ self.old.sim.plan }
        ensures refused { IfErr result (λ _. self.new.is_refused ≡ true) }
        ensures refuses { self.old.is_refused ≡ true → IsErr result }
    {
        if self.is_refused {
            return Err(AllocError);
        }
        self.is_refused = true;
        let end = run_phase(
            self.alloc,
            bench.parts(),
            self.phase,
            &mut self.sim,
            &mut self.always,
            &mut self.initial,
            &mut self.scene,
        )?;
        self.phase += 1;
        self.is_refused = false;
        Ok(end)
    }

    /// Runs the next phase, and shows the watch what it printed. The error is want of memory, and then each later phase is
    /// refused too.
    pub fn phase(&mut self, bench: &Bench, watch: &mut Watch) -> Result<PhaseEnd, AllocError>
        requires of { CanGoOn bench.now self.old }
        requires few { self.old.phase < 2 ^ 64 - 1 }
        ensures phase { (trees : List Stmt) (s : State) → IsCode bench.now.code trees → Stands bench.now (tree_of trees) self.old s → HasWatched watch.old s.text → IfOk result (λ e. (t : State) × Follows bench.now (tree_of trees) self.old.sim.plan.raw s e self.new t × HasWatched watch.new t.text) }
        ensures pass { watch.new.pass.word ≡ watch.old.pass.word }
        ensures fail { watch.new.fail.word ≡ watch.old.fail.word }
        ensures of { IfOk result (λ e. e ≡ Going → IsOf bench.now self.new) }
        ensures next { IfOk result (λ _. self.new.phase ≡ self.old.phase + 1) }
        ensures design { self.new.sim.plan ≡ self.old.sim.plan }
        ensures refused { IfErr result (λ _. self.new.is_refused ≡ true) }
        ensures refuses { self.old.is_refused ≡ true → IsErr result }
    {
        let end = self.advance(bench)?;
        match self.show(watch) {
            Ok(()) => Ok(end),
            Err(error) => {
                self.is_refused = true;
                Err(error)
            }
        }
    }
}
