//! How a call ends.
ghost use Rattle.std.specs.Prelude.{◌≡◌};
ghost use Rattle.campaign_outcomes.specs.Outcomes.{status_of};

use mcy_base::Text;
use project_file::ProjectError;
use result_book::BookError;
use source_faults::SourceError;
use tag_script::ScriptError;

/// How a call ended.
pub enum Outcome {
    /// The command was carried out, and its whole text was written.
    Done,
    /// As many tests were run as were asked for, the text was written, and so many mutations want a test still.
    Unfinished(u32),
    /// The words give no command.
    Usage,
    /// The project file is refused.
    ProjectBad(ProjectError),
    /// The logic is no tag script, or the report no report.
    ScriptBad(ScriptError),
    /// The sources are refused.
    SourceBad(SourceError),
    /// There is no file of this name.
    Missing(Text),
    /// The file of this name has more than 1,048,576 bytes.
    TooLarge(Text),
    /// The database holds no campaign, and the command would show one.
    NoCampaign,
    /// The database holds a campaign already, and the command would begin one.
    AlreadyBegun,
    /// What the database holds is not the campaign of the project and its sources.
    BookBad(BookError),
    /// The file of this name could not be read.
    ReadFault(Text),
    /// The database failed.
    KeeperFault,
    /// The text could not be written.
    WriteFault,
    /// There was no memory.
    Memory,
    /// A bench does not pass with the design itself.
    BaselineBad,
    /// The command was carried out, and its whole text was written; what is required of the campaign is missed.
    RequirementMissed,
    /// The run names a mutation of this number, and the campaign has fewer.
    NoMutation(u32),
}

impl Drop for Outcome {
    fn drop(self) {
        match self {
            Outcome::Done => {}
            Outcome::Unfinished(_left) => {}
            Outcome::Usage => {}
            Outcome::ProjectBad(_error) => {}
            Outcome::ScriptBad(_error) => {}
            Outcome::SourceBad(_error) => {}
            Outcome::Missing(_name) => {}
            Outcome::TooLarge(_name) => {}
            Outcome::NoCampaign => {}
            Outcome::AlreadyBegun => {}
            Outcome::BookBad(_error) => {}
            Outcome::ReadFault(_name) => {}
            Outcome::KeeperFault => {}
            Outcome::WriteFault => {}
            Outcome::Memory => {}
            Outcome::BaselineBad => {}
            Outcome::RequirementMissed => {}
            Outcome::NoMutation(_number) => {}
        }
    }
}

/// The exit status of a program whose call ended so.
pub fn exit_status(outcome: &Outcome) -> u8
    ensures { result ≡ status_of outcome.now }
{
    match outcome {
        Outcome::Done => 0,
        Outcome::Unfinished(_) => 1,
        Outcome::Usage => 2,
        Outcome::ProjectBad(_) => 3,
        Outcome::ScriptBad(_) => 4,
        Outcome::SourceBad(_) => 5,
        Outcome::Missing(_) => 6,
        Outcome::TooLarge(_) => 7,
        Outcome::NoCampaign => 8,
        Outcome::AlreadyBegun => 9,
        Outcome::BookBad(_) => 10,
        Outcome::ReadFault(_) => 11,
        Outcome::KeeperFault => 12,
        Outcome::WriteFault => 13,
        Outcome::Memory => 14,
        Outcome::BaselineBad => 20,
        Outcome::RequirementMissed => 21,
        Outcome::NoMutation(_) => 22,
    }
}
