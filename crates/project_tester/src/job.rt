//! A test of a mutation under way, and how it ended.
ghost use Rattle.std.specs.Prelude.{◌≡◌, option_copied};
ghost use Rattle.campaign_plan.specs.declared.prepared.Prepared.{Prepared as Planned};
ghost use Rattle.project_tester.specs.ProjectJobs.{IsJobOf, TellsAttempt, asked_in, attempt_in, word_in};

use equiv_test::EqJob;
use result_book::{TestWord, Want};
use sat_solver::Attempt;
use tb_runner::SimJob;

/// How a test ended: its word, and the attempt with which it was given up, if it was.
#[derive(Drop)]
pub(crate) struct Ended {
    pub(crate) word: TestWord,
    pub(crate) attempt: Option<Attempt>,
}

/// What a job is at. The memory of what it worked with is given back once it has its word.
#[derive(Drop)]
pub(crate) enum Work<'a> {
    Equality(EqJob),
    Simulation(SimJob<'a>),
    /// A simulation that was refused for want of memory does not go on.
    Refused,
    Over(Ended),
}

impl Work<'_> {
    /// The attempt with which the test was given up.
    fn attempt(&self) -> Option<&Attempt>
        ensures { option_copied result ≡ attempt_in self.now }
    {
        match self {
            Work::Equality(_) => None,
            Work::Simulation(_) => None,
            Work::Refused => None,
            Work::Over(ended) => ended.attempt.as_ref(),
        }
    }
}

/// A test of a mutation under a bound.
#[derive(Drop)]
pub struct ProjectJob<'a> {
    pub(crate) mutation: u32,
    pub(crate) want: Want,
    pub(crate) work: Work<'a>,
}

impl ProjectJob<'_> {
    /// The attempt with which the test was given up: there is one just where the job gave UNKNOWN. It takes no memory.
    pub fn attempt(&self) -> Option<&Attempt>
        ensures same { option_copied result ≡ attempt_in self.now.work }
        ensures given { (c : Planned) → IsJobOf c self.now → TellsAttempt c (asked_in self.now) (word_in self.now.work) (option_copied result) }
    {
        self.work.attempt()
    }
}
