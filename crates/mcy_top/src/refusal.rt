//! How a call ends that is refused for its files, or for the book that was loaded.
ghost use Rattle.std.specs.Prelude.{◌≡◌, []};
ghost use Rattle.mcy_keeper.specs.Books.{IsBlank};
ghost use Rattle.command_words.specs.declared.command.Command.{Command as Asked};
ghost use Rattle.result_book.specs.declared.goal.Goal.{Goal as Aim};
ghost use Rattle.campaign_plan.specs.declared.prepared.Prepared.{Prepared as Planned};
ghost use Rattle.mcy_top.specs.BookRefusals.{told, RefusesBook};
ghost use Rattle.mcy_top.specs.Outcomes.{book_outcome, outcome_of};

use campaign_outcomes::Outcome;
use campaign_reading::Refusal;
use mcy_keeper::Book;
use result_book::BookError;

/// How a call ends whose files make no campaign.
pub(crate) fn refused(refusal: Refusal) -> Outcome
    ensures { result ≡ outcome_of refusal }
{
    match refusal {
        Refusal::ProjectBad(error) => Outcome::ProjectBad(error),
        Refusal::ScriptBad(error) => Outcome::ScriptBad(error),
        Refusal::SourceBad(error) => Outcome::SourceBad(error),
        Refusal::Missing(name) => Outcome::Missing(name),
        Refusal::TooLarge(name) => Outcome::TooLarge(name),
        Refusal::ReadFault(name) => Outcome::ReadFault(name),
        Refusal::Memory => Outcome::Memory,
    }
}

/// Why a command refuses the loaded book.
#[derive(Drop)]
pub(crate) enum BookRefusal {
    NoCampaign,
    AlreadyBegun,
    BookBad(BookError),
    /// The command names a mutation of this number, and the campaign has fewer.
    NoMutation(u32),
    Memory,
}

impl BookRefusal {
    /// How a call ends that is refused so.
    pub(crate) fn into_outcome(self) -> Outcome
        ensures { result ≡ book_outcome self }
    {
        match self {
            BookRefusal::NoCampaign => Outcome::NoCampaign,
            BookRefusal::AlreadyBegun => Outcome::AlreadyBegun,
            BookRefusal::BookBad(error) => Outcome::BookBad(error),
            BookRefusal::NoMutation(number) => Outcome::NoMutation(number),
            BookRefusal::Memory => Outcome::Memory,
        }
    }
}

/// A count as it is told, at most 4,294,967,295.
fn told(count: usize) -> u32
    ensures { result ≡ told count }
{
    u32::try_from(count).unwrap_or(u32::MAX)
}

/// What is wrong with a book that is not empty and has no meta.
pub(crate) fn stray(loaded: &Book) -> BookError
    requires meta { loaded.now.meta ≡ [] }
    requires some { ¬ IsBlank loaded.now }
    ensures { (command : Asked) (aim : Aim) (prepared : Planned) → RefusesBook command aim prepared loaded.now (BookRefusal.BookBad result) }
{
    let mutations = told(loaded.mutations.as_slice().len());
    let rows = told(loaded.journal.as_slice().len());
    BookError::Stray(mutations, rows)
}
