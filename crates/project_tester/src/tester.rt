//! The tester of a prepared campaign.
ghost use Rattle.std.specs.Prelude.{◌≡◌, IfOk, length};
ghost use Rattle.campaign_run.specs.Limits.{IsTestable};
ghost use Rattle.campaign_core.specs.Testers.{IsAskable};
ghost use Rattle.project_tester.specs.ProjectJobs.{HasBegun, IsJobOf, asked_in, asked_of, left_in, may_give, most_of, word_in};

use crate::job::{ProjectJob, Work};
use crate::working::{begin, go_on};
use campaign_core::Tester;
use campaign_plan::Prepared;
use mcy_base::Steps;
use result_book::Want;
use std::alloc::{AllocError, Global};
use std::marker::Model;
use std::sync::ledger::Ledger;

/// What runs the tests of a prepared campaign.
#[derive(Drop)]
pub struct ProjectTester<'a> {
    alloc: Global,
    prepared: &'a Prepared,
}

impl<'a> Model for ProjectTester<'a> {
    ghost use Rattle.campaign_plan.specs.contracts.prepared.Prepared as p;
    ghost use Rattle.campaign_plan.specs.declared.prepared.Prepared.{Prepared};
    ghost use Rattle.campaign_run.specs.Limits.{IsTestable};
    ghost use Rattle.std.specs.Coded.{codes};

    ghost Value = { Prepared };

    ghost coded = { Prim.hlevel (codes, p.the_row.coded) };

    ghost view = { λ t. t.prepared.now };

    ghost invariant = { λ t. IsTestable t.prepared.now };
}

impl<'a> ProjectTester<'a> {
    /// The tester of this campaign, whose tests can be run.
    pub fn new(alloc: Global, prepared: &'a Prepared) -> ProjectTester<'a>
        requires { IsTestable prepared.now }
        ensures { result ≡ prepared.now }
    {
        ProjectTester { alloc, prepared }
    }

    /// The campaign, which is prepared.
    fn prepared(&self) -> &'a Prepared
        ensures { IsTestable self.now }
    {
        self.prepared
    }

    /// The work of a test of a mutation under a bound, at its start.
    fn begin(&self, mutation: u32, want: Want) -> Result<Work<'a>, AllocError>
        requires { IsAskable (length self.now.campaign.mutations) self.now.campaign.kinds (asked_of mutation want) }
        ensures { IfOk result (HasBegun self.now (asked_of mutation want)) }
    {
        begin(self.alloc, self.prepared, mutation, want)
    }
}

impl<'a> Tester for ProjectTester<'a> {
    type Job = ProjectJob<'a>;

    ghost mutations = { λ t. length t.campaign.mutations };

    ghost kinds = { λ t. t.campaign.kinds };

    ghost gives = { may_give };

    ghost most = { most_of };

    ghost has = { IsJobOf };

    ghost asked = { asked_in };

    ghost word = { λ job. word_in job.work };

    ghost left = { λ job. left_in job.work };

    fn start<L: Ledger>(
        &mut self,
        mutation: u32,
        test: u32,
        bound: u32,
        steps: &mut Steps<L>,
    ) -> Result<ProjectJob<'a>, AllocError> {
        let want = Want { test, bound };
        let work = self.begin(mutation, want)?;
        steps.tick();
        Ok(ProjectJob {
            mutation,
            want,
            work,
        })
    }

    fn turn(&mut self, job: &mut ProjectJob<'a>) -> Result<Option<u32>, AllocError> {
        // By its clause the campaign is a plan, so that a right word is one of its test's kind.
        let _prepared = self.prepared();
        match go_on(&mut job.work)? {
            None => Ok(None),
            Some(ended) => {
                let word = ended.word.code();
                job.work = Work::Over(ended);
                Ok(Some(word))
            }
        }
    }
}
