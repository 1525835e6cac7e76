//! The equality of a mutant: a search by turns.
ghost use Rattle.std.specs.Prelude.{◌≡◌, ◌<◌, ◌≤◌, IfOk, MatchResult, Some, slice_get};
ghost use Rattle.netlist_core.specs.Checked.{IsSound};
ghost use Rattle.pair_gates.specs.Refusals.{IsAccepted};
ghost use Rattle.equiv_test.specs.Jobs.{IsGoing, IsNew, IsSameTest};
ghost use Rattle.campaign_plan.specs.Campaigns.{IsPlan};
ghost use Rattle.campaign_plan.specs.declared.trial.Trial.TheVariants.{Equality};
ghost use Rattle.campaign_run.specs.Rows.{IsBrokenAt};
ghost use Rattle.project_tester.specs.ProjectJobs.{IsComparing, asked_of, lemma_turns, turns_in};
ghost use Rattle.project_tester.specs.JobTurns.{ComparesTo, IsToldBy};

use crate::job::Ended;
use campaign_plan::Prepared;
use equiv_test::{EqJob, EqVerdict};
use netlist_core::Netlist;
use pair_gates::{EncodeError, mutants_are_accepted};
use result_book::{TestWord, Want};
use std::alloc::{AllocError, Global};

/// How many lemmas a turn may add.
const LEMMAS_A_TURN: u32 = 256;

/// A search of a pair that has clauses.
fn new_job(
    alloc: Global,
    original: &Netlist,
    mutant: &Netlist,
    limit: u32,
) -> Result<EqJob, AllocError>
    requires limit { (1 ≤ limit) × (limit ≤ 100000) }
    requires accepted { IsAccepted original.now mutant.now }
    ensures { IfOk result (IsNew original.now mutant.now limit) }
{
    mutants_are_accepted();
    match EqJob::new(alloc, original, mutant, limit) {
        Ok(job) => Ok(job),
        Err(refusal) => {
            prove!(matches!(refusal, EncodeError::Memory));
            Err(AllocError)
        }
    }
}

/// The equality of a mutation, whose mutant is this, under a bound.
pub(crate) fn begin(
    alloc: Global,
    prepared: &Prepared,
    mutation: u32,
    want: Want,
    mutant: &Netlist,
) -> Result<EqJob, AllocError>
    requires plan { IsPlan prepared.now }
    requires test { slice_get prepared.now.trials want.test ≡ Some Equality }
    requires bound { (1 ≤ want.bound) × (want.bound ≤ 100000) }
    requires sound { IsSound mutant.now }
    requires broken { IsBrokenAt prepared.now mutation mutant.now.raw }
    ensures is { IfOk result (IsComparing prepared.now (asked_of mutation want)) }
    ensures few { IfOk result (λ job. lemma_turns job ≤ turns_in want.bound) }
{
    // By this law the mutant has clauses beside the netlist, which by its clauses is sound.
    mutants_are_accepted();
    let original = prepared.netlist.netlist();
    let _parts = original.raw();
    new_job(alloc, original, mutant, want.bound)
}

/// How an equality ended with a verdict.
fn told(verdict: EqVerdict) -> Ended
    ensures { IsToldBy verdict result }
{
    match verdict {
        EqVerdict::NoChange(_refutation) => Ended {
            word: TestWord::Pass,
            attempt: None,
        },
        EqVerdict::Change(_difference) => Ended {
            word: TestWord::Fail,
            attempt: None,
        },
        EqVerdict::Unknown(attempt) => Ended {
            word: TestWord::Unknown,
            attempt: Some(attempt),
        },
    }
}

/// Lets the search of an equality take a turn.
pub(crate) fn compare(test: &mut EqJob) -> Result<Option<Ended>, AllocError>
    requires { IsGoing test.old }
    ensures same { IsSameTest test.old test.new }
    ensures turned { MatchResult result (ComparesTo test.old test.new) (λ _. IsGoing test.new) }
{
    match test.turn(LEMMAS_A_TURN)? {
        None => Ok(None),
        Some(verdict) => Ok(Some(told(verdict))),
    }
}
