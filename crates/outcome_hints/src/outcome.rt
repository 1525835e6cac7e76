//! Where a refusal is, and what could be done.
ghost use Rattle.outcome_hints.specs.Filled.{IsFilled};
ghost use Rattle.outcome_hints.specs.Spots.{IsRefused};

use crate::book::book_hint;
use crate::design::source_told;
use crate::project::{project_told, script_told};
use crate::told::{Told, nowhere};
use campaign_outcomes::Outcome;

/// For how a call ended. The hint is empty where the command was carried out.
pub(crate) fn outcome_told(outcome: &Outcome) -> Told
    ensures { IsRefused outcome.now → IsFilled result.hint.now }
{
    match outcome {
        Outcome::Done | Outcome::Unfinished(_) => nowhere(""),
        Outcome::ProjectBad(error) => project_told(*error),
        Outcome::ScriptBad(error) => script_told(*error),
        Outcome::SourceBad(error) => source_told(&error.fault),
        Outcome::BookBad(error) => nowhere(book_hint(error)),
        _ => nowhere(call_hint(outcome)),
    }
}

/// For a refusal that is no fault of the project, a source or a book.
fn call_hint(outcome: &Outcome) -> &'static str
    ensures { IsFilled result.now }
{
    match outcome {
        Outcome::Usage => {
            "run begins the campaign of config.mcy or goes on with it, and status, list and source tell of it (README.md has all words)"
        }
        Outcome::Missing(_) => {
            "call mcy in the folder of config.mcy; the paths in it begin there"
        }
        Outcome::TooLarge(_) => "a file has at most 1,048,576 bytes: make two of it",
        Outcome::NoCampaign => "run or init begins one",
        Outcome::AlreadyBegun => "run goes on with it",
        Outcome::ReadFault(_) => "this may not be read, or is no regular file",
        Outcome::KeeperFault => "once the cause is gone, run goes on with what mcy.db holds",
        Outcome::WriteFault => {
            "standard output took no more, as where its disk is full; what was kept stays, and status, list and source tell it again"
        }
        Outcome::BaselineBad => {
            "a bench does not pass with the design itself, so that each mutant would look noticed: mcy baseline tells which, and its text, its cycles or the design is to be mended"
        }
        Outcome::RequirementMissed => {
            "status tells the counts, and list which mutations they are"
        }
        Outcome::NoMutation(_) => "list numbers the mutations, from 1",
        _ => "there was no memory: run fewer tests at once (-j N), or give the process more",
    }
}
