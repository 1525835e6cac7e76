//! The transcript of a simulation.
ghost use Rattle.std.specs.Prelude.{◌≡◌, [], IfOk};
ghost use Rattle.tb_machine.specs.Phases.{Setting, State};
ghost use Rattle.tb_machine.specs.Simulations.{IsSimulation, outcome, phases_of};
ghost use Rattle.tb_turns.specs.Ends.{finishes};

use crate::phases::Phases;
use crate::running::run_to;
use mcy_base::Bytes;
use std::alloc::{AllocError, Global};
use tb_machine::{PhaseEnd, simulations_go_on};

/// What a simulation prints, and whether it reaches `$finish`.
#[derive(Drop)]
pub struct Transcript {
    pub text: Bytes,
    pub finished: bool,
}

/// Whether `$finish` was reached.
fn finishes(end: PhaseEnd) -> bool
    ensures { result ≡ finishes end }
{
    match end {
        PhaseEnd::Going => false,
        PhaseEnd::Finished => true,
        PhaseEnd::TooLong => false,
    }
}

/// Simulates up to `$finish` or to a limit: a phase with too many statements, or the end of so many cycles.
pub fn transcript_of<R: Phases>(
    alloc: Global,
    run: &mut R,
    cycles: u32,
) -> Result<Transcript, AllocError>
    requires going { R.is_going run.old }
    requires begins { R.phases run.old ≡ 0 }
    ensures { (g : Setting) (start : State) → R.stands run.old g start → start.text ≡ [] → IfOk result (λ t. IsSimulation g (phases_of cycles) start (outcome t.finished t.text)) }
{
    simulations_go_on();
    let mut text = Vec::new(alloc);
    let end = run_to(run, &mut text, 0, 2 * u64::from(cycles) + 1)?;
    Ok(Transcript {
        text: Bytes::from_vec(text),
        finished: finishes(end),
    })
}
