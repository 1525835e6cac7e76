//! A run of a simulation, phase by phase.
ghost use Rattle.std.specs.Prelude.{◌≡◌, ◌<◌, ◌+◌, ◌-◌, ◌^◌, ◌++◌, ℕ, IfOk, List};
ghost use Rattle.tb_machine.specs.Phases.{Setting, State, IsPhase, ending_of};
ghost use Rattle.tb_turns.specs.Ends.{IfGoing};

use std::alloc::AllocError;
use tb_machine::PhaseEnd;

/// What simulates a bench with a design.
pub trait Phases {
    // it stands at this state of a simulation in this setting
    ghost stands: { Self → Setting → State → Type 0 };

    // how many phases went on so far, and that none was the last one
    ghost phases: { Self → ℕ };

    ghost is_going: { Self → Type 0 };

    // a later state of the same run
    ghost is_same: { Self → Self → Type 0 };

    // what the last phase printed
    ghost printed: { Self → List ℕ };

    /// Simulates the next phase. After an error, want of memory, it is only to be dropped.
    fn phase(&mut self) -> Result<PhaseEnd, AllocError>
        requires going { is_going self.old }
        requires few { phases self.old < 2 ^ 64 - 1 }
        ensures phase { (g : Setting) (s : State) → stands self.old g s → IfOk result (λ e. (t : State) × IsPhase g s (ending_of e) t × IfGoing e (stands self.new g t) × (t.text ≡ s.text ++ printed self.new)) }
        ensures going { IfOk result (λ e. IfGoing e (is_going self.new × (phases self.new ≡ phases self.old + 1))) }
        ensures same { is_same self.old self.new };

    /// What the last phase printed.
    fn printed(&self) -> &[u8]
        ensures { result.now ≡ printed self.now };

    ghost same_self: { (x : Self) → is_same x x };

    ghost same_on: { (x y z : Self) → is_same x y → is_same y z → is_same x z };
}
