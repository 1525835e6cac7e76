//! What a script asks for next, or how it ends.
ghost use Rattle.std.specs.Prelude.{◌≡◌, List, true, ℕ};
ghost use Rattle.tag_script.specs.Hearing.{ask_told, heard};
ghost use Rattle.tag_script.specs.Courses.{course_of};
ghost use Rattle.tag_script.specs.Fits.{NeedsBelow, script_fits};
ghost use Rattle.tag_script.specs.Outcomes.{AreAmong, script_outcome, told};

use crate::answer::Ask;
use crate::evaluation::{Asked, Stop, tags_of};
use crate::results::Results;
use crate::script::Script;

/// What an evaluation tells.
fn ask_told(tags: Result<u32, Stop>) -> Ask
    ensures { result ≡ ask_told tags }
{
    match tags {
        Ok(tags) => Ask::Done(tags),
        Err(Stop::Need(test)) => Ask::Need(test),
        Err(Stop::AssertFailed(line)) => Ask::AssertFailed(line),
        Err(Stop::Unexpected(test)) => Ask::Unexpected(test),
    }
}

/// What a script asks for where these words are expected of each test, word w in bit w, and those of `results` are there, or how it
/// ended. Whatever the words are that are not there yet: it is the first test among those that the script asks that has none, or
/// where all have one the end. A script that names only so many tests needs one of these.
#[tactic(auto, using(crate::proofs::Telling::told_heard), unfolding(crate::specs::Outcomes::script_outcome))]
pub fn ask(script: &Script, expect: &[u32], results: &Results) -> Ask
    ensures told { (words : List ℕ) → AreAmong results.now words → result ≡ told results.now (script_outcome expect.now words script.now) }
    ensures below { (tests : ℕ) (tags : ℕ) → script_fits tests tags script.now ≡ true → NeedsBelow tests result }
{
    let asked = Asked {
        expect,
        results: *results,
    };
    ask_told(tags_of(&asked, script))
}
