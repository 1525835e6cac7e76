//! The word of a simulation.
ghost use Rattle.std.specs.Prelude.{ℕ, List, true};
ghost use Rattle.tb_machine.specs.Simulations.{outcome};
ghost use Rattle.tb_turns.specs.Verdicts.{IsWord};
ghost use Rattle.tb_watch.specs.Searches.{HasWatched};

use tb_watch::Watch;

/// What a simulation says of its design.
#[derive(Clone, Copy, Debug, PartialEq, Eq)]
pub enum SimVerdict {
    /// It was finished, and printed the pass text and not the fail text.
    Pass,
    /// It was finished otherwise.
    Fail,
    /// It met a limit.
    Hang,
}

/// The word of a simulation that was finished.
pub(crate) fn finished(watch: &Watch) -> SimVerdict
    ensures { (text : List ℕ) → HasWatched watch.now text → IsWord (outcome true text) watch.now.pass.word watch.now.fail.word result }
{
    if !watch.saw_pass() {
        return SimVerdict::Fail;
    }
    if watch.saw_fail() {
        SimVerdict::Fail
    } else {
        SimVerdict::Pass
    }
}
