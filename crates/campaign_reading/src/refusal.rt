//! Why files make no campaign.
ghost use Rattle.std.specs.Prelude.{◌≡◌};

use mcy_base::Text;
use project_file::ProjectError;
use source_faults::SourceError;
use std::alloc::AllocError;
use tag_script::ScriptError;

/// Why the files make no campaign.
#[derive(Drop)]
pub enum Refusal {
    /// The project file is refused.
    ProjectBad(ProjectError),
    /// The logic is no tag script, or the report no report.
    ScriptBad(ScriptError),
    /// The sources are refused.
    SourceBad(SourceError),
    /// There is no file of this name.
    Missing(Text),
    /// The file of this name has more than 1,048,576 bytes.
    TooLarge(Text),
    /// The file of this name could not be read.
    ReadFault(Text),
    /// There was no memory.
    Memory,
}

impl From<AllocError> for Refusal {
    ghost use Rattle.campaign_reading.specs.declared.refusal.Refusal.TheVariants.{Memory};

    ghost from_gives = { λ _ e. e ≡ Memory };

    fn from(_: AllocError) -> Refusal {
        Refusal::Memory
    }
}
