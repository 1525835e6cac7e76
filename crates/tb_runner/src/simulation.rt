//! A run together with its bench, as phases one after the other.
ghost use Rattle.std.specs.Prelude.{◌≡◌};
ghost use Rattle.std.proofs.Common.{refl, ◌∙◌};
ghost use Rattle.tb_process.specs.Running.{CanGoOn};
ghost use Rattle.tb_runner.specs.Simulated.{StandsIn};

use std::alloc::AllocError;
use tb_bench::Bench;
use tb_machine::PhaseEnd;
use tb_process::Run;
use tb_turns::Phases;

/// A run of this bench.
#[derive(Drop)]
pub(crate) struct Simulation<'a> {
    pub(crate) bench: &'a Bench,
    pub(crate) run: Run,
}

impl<'a> Phases for Simulation<'a> {
    ghost stands = { λ s g state. StandsIn s.bench.now s.run g state };

    ghost phases = { λ s. s.run.phase };

    ghost is_going = { λ s. CanGoOn s.bench.now s.run };

    ghost is_same = { λ s t. (t.bench.now ≡ s.bench.now) × (t.run.sim.plan ≡ s.run.sim.plan) };

    ghost printed = { λ s. s.run.scene.text };

    fn phase(&mut self) -> Result<PhaseEnd, AllocError> {
        self.run.advance(self.bench)
    }

    fn printed(&self) -> &[u8] {
        self.run.printed()
    }

    ghost same_self = { λ x. (refl, refl) };

    ghost same_on = { λ x y z h k. (k.0 ∙ h.0, k.1 ∙ h.1) };
}
