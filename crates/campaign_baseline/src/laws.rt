//! The law of baselines, as the contract of a function that does nothing else.
ghost use Rattle.campaign_baseline.specs.Laws.{BaselinesAreOne};

use tb_once::{benches_end_once, benches_have_one_outcome};

/// A project and its sources have one baseline of each simulation, under a limit of cycles.
pub fn baselines_are_one()
    ensures { BaselinesAreOne }
{
    benches_have_one_outcome();
    benches_end_once();
}
