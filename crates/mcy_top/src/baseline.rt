//! `baseline`: what the benches of a campaign say of the design itself.
//!
//! No test is run and no book is looked at: each bench is simulated with the design in the mutants' place.
ghost use Rattle.std.specs.Prelude.{◌≡◌, ◌≢◌, ℕ, List, [], Option, IfOk};
ghost use Rattle.mcy_outside.specs.Files.{Held};
ghost use Rattle.campaign_plan.specs.Campaigns.{IsPlan};
ghost use Rattle.mcy_top.specs.Baselines.{baseline_outcome, IsFailingText, TellsBaselines};
ghost use Rattle.mcy_top.specs.Life.{Answered, HasCause, IsAccepted, IsQuiet};

use crate::ending::deliver;
use campaign_baseline::{all_pass, baseline_text, baselines, failing_text};
use campaign_outcomes::Outcome;
use campaign_plan::Prepared;
use campaign_reading::{Refusal, read_campaign};
use mcy_base::Bytes;
use mcy_outside::{Sink, SourceFiles};
use std::alloc::{AllocError, Global};

/// How a call ends that has told whether all benches pass.
fn told(pass: bool) -> Outcome
    ensures { result ≡ baseline_outcome pass }
{
    if pass {
        Outcome::Done
    } else {
        Outcome::BaselineBad
    }
}

/// Writes a line for each bench: what it says of the design, and in which cycle it ended.
pub(crate) fn baseline<O: Sink>(alloc: Global, prepared: &Prepared, out: &mut O) -> Outcome
    requires plan { IsPlan prepared.now }
    ensures told { TellsBaselines prepared.now (O.written out.old) (O.written out.new) result }
    ensures quiet { IsQuiet (O.written out.old) (O.written out.new) result }
    ensures cause { (files files' keeper : ℕ) → HasCause files files' keeper keeper (O.faults out.old) (O.faults out.new) result }
    ensures answered { (words : List (List ℕ)) (held : Option Held) → IsAccepted words held → Answered words held result }
{
    let Ok(list) = baselines(alloc, prepared) else {
        return Outcome::Memory;
    };
    let Ok(text) = baseline_text(alloc, &prepared.campaign.test_names, &list) else {
        return Outcome::Memory;
    };
    deliver(text.as_slice(), out).outcome(told(all_pass(&list)))
}

/// No line, where the files make no campaign; or there is no memory.
fn none_told(alloc: Global, refusal: Refusal) -> Result<Bytes, AllocError>
    ensures { IfOk result (λ text. (text ≡ []) × (refusal ≢ Refusal.Memory)) }
{
    match refusal {
        Refusal::Memory => Err(AllocError),
        _ => Ok(Bytes::from_vec(Vec::new(alloc))),
    }
}

/// The lines of those benches that do not pass with the design. There is none where the files make no campaign.
pub fn failing_baselines<F: SourceFiles>(alloc: Global, files: &mut F) -> Result<Bytes, AllocError>
    ensures same { F.held files.new ≡ F.held files.old }
    ensures text { IfOk result (IsFailingText (F.held files.old) (F.faults files.old) (F.faults files.new)) }
{
    let prepared = match read_campaign(alloc, files) {
        Ok(prepared) => prepared,
        Err(refusal) => return none_told(alloc, refusal),
    };
    let list = baselines(alloc, &prepared)?;
    failing_text(alloc, &prepared.campaign.test_names, &list)
}
