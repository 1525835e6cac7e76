//! The texts of a made project, read.
ghost use Rattle.std.specs.Prelude.{◌≡◌, ◌≤◌, false, IfOk, IfErr, Some};
ghost use Rattle.campaign_reading.specs.Files.{IsMade};
ghost use Rattle.campaign_reading.specs.Reads.{IsUnmade};
ghost use Rattle.made_campaign.specs.Made.{made_held, made_limit, IsOfTexts};

use campaign_reading::{Prepared, Refusal, read_campaign};
use made_project::made_files;
use mcy_outside::CleanFiles;
use std::alloc::Global;

/// The campaign of the project of a seed whose design has so many drawn cells, or why its texts make none. No text is missing, and none
/// is too large.
pub fn made_campaign(alloc: Global, seed: u64, cells: u32) -> Result<Prepared, Refusal>
    requires { cells ≤ 400 }
    ensures made { IfOk result (IsMade (Some (made_held seed cells))) }
    ensures limit { IfOk result (λ prepared. prepared.campaign.conflicts ≡ made_limit) }
    ensures fixed { IfOk result (λ prepared. prepared.auto_cycles ≡ false) }
    ensures refused { IfErr result (IsUnmade (Some (made_held seed cells))) }
    ensures texts { IfErr result IsOfTexts }
{
    let files = made_files(alloc, seed, cells)?;
    read_campaign(alloc, &mut CleanFiles::new(alloc, files))
}
