//! Phases one after the other, and what is heard of them.
ghost use Rattle.std.specs.Prelude.{◌≡◌, ◌<◌, ◌+◌, ◌-◌, ◌^◌, ◌≤◌, ℕ, IfOk};
ghost use Rattle.tb_machine.specs.Phases.{Setting, State};
ghost use Rattle.tb_turns.specs.Ends.{IfGoing};
ghost use Rattle.tb_turns.specs.Reached.{IsAt, IsRunTo};

use crate::listener::Listener;
use crate::phases::Phases;
use std::alloc::AllocError;
use tb_machine::{PhaseEnd, simulations_go_on};

/// Simulates one phase, and has its text heard.
fn phase_heard<R: Phases, L: Listener>(
    run: &mut R,
    listener: &mut L,
) -> Result<PhaseEnd, AllocError>
    requires going { R.is_going run.old }
    requires few { R.phases run.old < 2 ^ 64 - 1 }
    ensures at { (g : Setting) (start : State) (phases : ℕ) → IsAt g (R.stands run.old g) (L.heard listener.old) start phases → IfOk result (IsRunTo g (R.stands run.new g) (L.heard listener.new) start (phases + 1)) }
    ensures going { IfOk result (λ e. IfGoing e (R.is_going run.new × (R.phases run.new ≡ R.phases run.old + 1))) }
    ensures run { R.is_same run.old run.new }
    ensures same { L.listens_for listener.new ≡ L.listens_for listener.old }
{
    simulations_go_on();
    let end = run.phase()?;
    listener.hear(run.printed())?;
    Ok(end)
}

/// Simulates from the one phase on up to the other, or to the last one of the simulation.
pub(crate) fn run_to<R: Phases, L: Listener>(
    run: &mut R,
    listener: &mut L,
    from: u64,
    to: u64,
) -> Result<PhaseEnd, AllocError>
    requires ordered { from ≤ to }
    requires going { R.is_going run.old }
    requires phases { R.phases run.old ≡ from }
    ensures at { (g : Setting) (start : State) → IsAt g (R.stands run.old g) (L.heard listener.old) start from → IfOk result (IsRunTo g (R.stands run.new g) (L.heard listener.new) start to) }
    ensures going { IfOk result (λ e. IfGoing e (R.is_going run.new × (R.phases run.new ≡ to))) }
    ensures run { R.is_same run.old run.new }
    ensures same { L.listens_for listener.new ≡ L.listens_for listener.old }
{
    for _phase in from..to {
        match phase_heard(run, listener)? {
            PhaseEnd::Going => {}
            PhaseEnd::Finished => return Ok(PhaseEnd::Finished),
            PhaseEnd::TooLong => return Ok(PhaseEnd::TooLong),
        }
    }
    Ok(PhaseEnd::Going)
}
