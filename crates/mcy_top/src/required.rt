//! How a command ends that is done: what is required of the campaign is met, or missed.
ghost use Rattle.std.specs.Prelude.{◌≡◌};
ghost use Rattle.result_book.specs.Rows.{groups};
ghost use Rattle.result_book.specs.States.{IsStateOf};
ghost use Rattle.campaign_plan.specs.Campaigns.{IsPlan};
ghost use Rattle.mcy_top.specs.Endings.{done_outcome};
ghost use Rattle.mcy_top.specs.Requirements.{is_missed, falls_short, misses};

use crate::work::Task;
use campaign_outcomes::Outcome;
use command_words::Command;
use result_book::State;
use source_report::{are_finished, has_faults, is_met};

/// The outcome of a command that is done, where its text is written.
fn done(missed: bool) -> Outcome
    ensures { result ≡ done_outcome missed }
{
    if missed {
        Outcome::RequirementMissed
    } else {
        Outcome::Done
    }
}

impl Task<'_> {
    /// Whether what the project requires of the tags is missed, where it requires something.
    fn is_missed(&self, state: &State) -> bool
        requires plan { IsPlan self.now.prepared.now }
        requires state { IsStateOf self.now.prepared.now.campaign state.now.rows state.now }
        ensures { result ≡ is_missed self.now.prepared.now.requirement self.now.prepared.now.campaign (groups self.now.prepared.now.campaign state.now.rows) }
    {
        match &self.prepared.requirement {
            None => false,
            Some(requirement) => !is_met(
                &self.prepared.campaign,
                state,
                requirement.percent,
                &requirement.counted,
                requirement.among.as_slice(),
            ),
        }
    }

    /// Whether the campaign is finished, and that is missed.
    fn falls_short(&self, state: &State) -> bool
        requires plan { IsPlan self.now.prepared.now }
        requires state { IsStateOf self.now.prepared.now.campaign state.now.rows state.now }
        ensures { result ≡ falls_short self.now.prepared.now (groups self.now.prepared.now.campaign state.now.rows) }
    {
        are_finished(&self.prepared.campaign, state) && self.is_missed(state)
    }

    /// Whether a command finds what it is to look at missed.
    fn misses(&self, command: Command, state: &State) -> bool
        requires plan { IsPlan self.now.prepared.now }
        requires state { IsStateOf self.now.prepared.now.campaign state.now.rows state.now }
        ensures { result ≡ misses command self.now.prepared.now (groups self.now.prepared.now.campaign state.now.rows) }
    {
        match command {
            Command::Status { strict } => {
                (strict && has_faults(&self.prepared.campaign, state)) || self.falls_short(state)
            }
            Command::Run { .. } => self.falls_short(state),
            Command::Init => false,
            Command::List => false,
            Command::Source => false,
            Command::Baseline => false,
            Command::Demo { .. } => false,
        }
    }

    /// How a command ends that is done, where its text is written.
    pub(crate) fn done_outcome(&self, command: Command, state: &State) -> Outcome
        requires plan { IsPlan self.now.prepared.now }
        requires state { IsStateOf self.now.prepared.now.campaign state.now.rows state.now }
        ensures { result ≡ done_outcome (misses command self.now.prepared.now (groups self.now.prepared.now.campaign state.now.rows)) }
    {
        done(self.misses(command, state))
    }

    /// How a run ends in which no mutation wants a test, where its text is written.
    pub(crate) fn run_done(&self, state: &State) -> Outcome
        requires plan { IsPlan self.now.prepared.now }
        requires state { IsStateOf self.now.prepared.now.campaign state.now.rows state.now }
        ensures { result ≡ done_outcome (falls_short self.now.prepared.now (groups self.now.prepared.now.campaign state.now.rows)) }
    {
        done(self.falls_short(state))
    }
}
