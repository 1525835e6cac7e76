//! The simulation of a mutant, by turns.
ghost use Rattle.std.specs.Prelude.{◌≡◌, false, IfOk};
ghost use Rattle.tb_runner.specs.Jobs.{IsSameJob};
ghost use Rattle.result_book.specs.Scripts.{word_code};
ghost use Rattle.campaign_run.specs.Simulated.{told_verdict};
ghost use Rattle.project_tester.specs.JobTurns.{SimulatesTo};

use crate::job::Ended;
use result_book::TestWord;
use std::alloc::AllocError;
use tb_runner::{SimJob, SimVerdict};

/// How many cycles a turn may simulate.
const CYCLES_A_TURN: u32 = 256;

/// The word that tells a verdict.
fn word_of(verdict: SimVerdict) -> TestWord
    ensures { word_code result ≡ told_verdict verdict }
{
    match verdict {
        SimVerdict::Pass => TestWord::Pass,
        SimVerdict::Fail => TestWord::Fail,
        SimVerdict::Hang => TestWord::Hang,
    }
}

/// Lets a simulation take a turn.
pub(crate) fn simulate(test: &mut SimJob<'_>) -> Result<Option<Ended>, AllocError>
    requires { test.old.is_over ≡ false }
    ensures same { IsSameJob test.old test.new }
    ensures turned { IfOk result (SimulatesTo test.old test.new) }
{
    match test.turn(CYCLES_A_TURN)? {
        None => Ok(None),
        Some(verdict) => Ok(Some(Ended {
            word: word_of(verdict),
            attempt: None,
        })),
    }
}
