//! Whether a campaign can be run by its baselines, and under which limit of cycles.
ghost use Rattle.std.specs.Prelude.{◌≡◌, ◌↔◌, IfOk, IsTrue, MatchOption};
ghost use Rattle.campaign_plan.specs.Campaigns.{IsPlan};
ghost use Rattle.campaign_run.specs.Limits.{cycles_by, AsksBaselines, FailsBaselines, IsLimitOf};

use crate::auto::auto_cycles;
use crate::simulating::baselines;
use crate::told::all_pass;
use campaign_plan::Prepared;
use campaign_run::Baseline;
use std::alloc::{AllocError, Global};

/// Whether the project asks that each bench passes with the design.
fn asks_baselines(prepared: &Prepared) -> bool
    ensures { IsTrue result ↔ AsksBaselines prepared.now }
{
    prepared.baseline || prepared.auto_cycles
}

/// The limit of cycles by these baselines.
fn cycles_by(prepared: &Prepared, list: &[Baseline]) -> u32
    ensures { result ≡ cycles_by prepared.now list.now }
{
    if prepared.auto_cycles {
        auto_cycles(list)
    } else {
        prepared.cycles
    }
}

/// The limit of cycles under which the tests of a campaign are run; there is none where the project asks that each bench passes with
/// the design, and one does not.
pub fn cycle_limit(alloc: Global, prepared: &Prepared) -> Result<Option<u32>, AllocError>
    requires { IsPlan prepared.now }
    ensures { IfOk result (λ found. MatchOption found (FailsBaselines prepared.now) (IsLimitOf prepared.now)) }
{
    if !asks_baselines(prepared) {
        return Ok(Some(prepared.cycles));
    }
    let list = baselines(alloc, prepared)?;
    if all_pass(&list) {
        Ok(Some(cycles_by(prepared, &list)))
    } else {
        Ok(None)
    }
}
