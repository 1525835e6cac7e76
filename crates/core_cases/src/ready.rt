//! A tester whose tests give FAIL after so many turns.
ghost use Rattle.std.specs.Prelude.{◌≡◌, ◌<◌, replicate};

use campaign_core::Tester;
use mcy_base::Steps;
use std::alloc::AllocError;
use std::sync::ledger::Ledger;

/// The code of FAIL.
const FAIL: u32 = 1;

/// So many mutations and tests, and the most turns without a word that a test takes.
#[derive(Drop)]
pub(crate) struct Ready {
    pub(crate) mutations: u32,
    pub(crate) tests: u32,
    pub(crate) turns: u32,
}

/// A test under way, with the turns that it has left and the word that it gave.
#[derive(Drop)]
pub(crate) struct ReadyJob {
    mutation: u32,
    test: u32,
    bound: u32,
    left: u64,
    word: Option<u32>,
}

impl Tester for Ready {
    type Job = ReadyJob;

    ghost mutations = { λ t. t.mutations };

    ghost kinds = { λ t. replicate t.tests 0 };

    ghost gives = { λ t asked word. word ≡ 1 };

    ghost most = { λ t asked. t.turns };

    ghost has = { λ t job. job.test < t.tests };

    ghost asked = { λ job. record { mutation = job.mutation; test = job.test; bound = job.bound } };

    ghost word = { λ job. job.word };

    ghost left = { λ job. job.left };

    fn start<L: Ledger>(
        &mut self,
        mutation: u32,
        test: u32,
        bound: u32,
        steps: &mut Steps<L>,
    ) -> Result<ReadyJob, AllocError> {
        steps.tick();
        Ok(ReadyJob {
            mutation,
            test,
            bound,
            left: u64::from(self.turns).saturating_sub(u64::from(mutation) + u64::from(test)),
            word: None,
        })
    }

    fn turn(&mut self, job: &mut ReadyJob) -> Result<Option<u32>, AllocError> {
        if job.left == 0 {
            job.word = Some(FAIL);
            return Ok(Some(FAIL));
        }
        job.left -= 1;
        Ok(None)
    }
}
