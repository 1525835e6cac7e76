//! The work of a job: its start on the mutant of its mutation, and its turns.
ghost use Rattle.std.specs.Prelude.{◌≡◌, ◌<◌, IfOk, MatchResult, None, length};
ghost use Rattle.netlist_core.specs.Checked.{IsSound};
ghost use Rattle.campaign_plan.specs.Campaigns.{IsPlan};
ghost use Rattle.campaign_plan.specs.declared.prepared.Prepared.{Prepared as Planned};
ghost use Rattle.campaign_run.specs.Limits.{IsTestable};
ghost use Rattle.campaign_run.specs.Rows.{IsBrokenAt};
ghost use Rattle.campaign_core.specs.Testers.{Asked, IsAskable};
ghost use Rattle.project_tester.specs.ProjectJobs.{HasBegun, IsWorkOf, asked_of, word_in};
ghost use Rattle.project_tester.specs.JobTurns.{CanGoOn, ComesTo, GoesOn};

use crate::equality::{self, compare};
use crate::job::{Ended, Work};
use crate::simulation::simulate;
use campaign_plan::{Prepared, Trial};
use mutation_sites::mutate;
use netlist_core::Netlist;
use result_book::Want;
use std::alloc::{AllocError, Global};
use step_trials::mutants_are_netlists;
use tb_runner::SimJob;

/// The mutant of a mutation.
fn mutant(alloc: Global, prepared: &Prepared, mutation: u32) -> Result<Netlist, AllocError>
    requires plan { IsPlan prepared.now }
    requires mutation { mutation < length prepared.now.campaign.mutations }
    ensures sound { IfOk result IsSound }
    ensures broken { IfOk result (λ mutant. IsBrokenAt prepared.now mutation mutant.raw) }
{
    let site = &prepared.sites.as_slice()[mutation as usize];
    mutate(alloc, prepared.netlist.netlist(), site)
}

/// The work of a test of a mutation under a bound, at its start.
pub(crate) fn begin<'a>(
    alloc: Global,
    prepared: &'a Prepared,
    mutation: u32,
    want: Want,
) -> Result<Work<'a>, AllocError>
    requires testable { IsTestable prepared.now }
    requires askable { IsAskable (length prepared.now.campaign.mutations) prepared.now.campaign.kinds (asked_of mutation want) }
    ensures { IfOk result (HasBegun prepared.now (asked_of mutation want)) }
{
    let mutant = mutant(alloc, prepared, mutation)?;
    match &prepared.trials.as_slice()[want.test as usize] {
        Trial::Equality => {
            let job = equality::begin(alloc, prepared, mutation, want, &mutant)?;
            Ok(Work::Equality(job))
        }
        Trial::Simulation { bench, pass, fail } => {
            // By its clauses the bench can run.
            let _parts = bench.parts();
            let job = SimJob::new(
                alloc,
                bench,
                mutant,
                prepared.word_seed,
                prepared.cycles,
                pass.as_slice(),
                fail.as_slice(),
            )?;
            Ok(Work::Simulation(job))
        }
    }
}

/// Lets the work of a job go on: how its test ended, or none yet. A simulation that was refused for want of memory is let go.
pub(crate) fn go_on(work: &mut Work<'_>) -> Result<Option<Ended>, AllocError>
    requires going { CanGoOn work.old }
    ensures turned { MatchResult result (GoesOn work.old work.new) (λ _. word_in work.new ≡ None) }
    ensures kept { (c : Planned) (asked : Asked) → IsWorkOf c asked work.old → MatchResult result (ComesTo c asked work.new) (λ _. IsWorkOf c asked work.new) }
{
    // By this law a verdict on the mutant's netlist is one on the mutation.
    mutants_are_netlists();
    match work {
        Work::Equality(test) => compare(test),
        Work::Simulation(test) => match simulate(test) {
            Ok(ended) => Ok(ended),
            Err(error) => {
                *work = Work::Refused;
                Err(error)
            }
        },
        Work::Refused => Err(AllocError),
        Work::Over(_) => Ok(None),
    }
}
