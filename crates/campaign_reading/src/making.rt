//! The campaign of a project and its sources, once these are judged.
ghost use Rattle.std.specs.Prelude.{◌≡◌, false, All, IfOk};
ghost use Rattle.project_file.specs.Projects.{IsProject};
ghost use Rattle.project_limits.specs.Files.{all_files};
ghost use Rattle.project_sources.specs.Netlists.{HasNetlist};
ghost use Rattle.mutation_sites.specs.Mutants.{IsSite};
ghost use Rattle.campaign_choice.specs.Campaigns.{names_of};
ghost use Rattle.campaign_choice.specs.Limits.{IsWithinLimits};
ghost use Rattle.campaign_choice.specs.Mutations.{all_sites as sites_at};
ghost use Rattle.campaign_choice.specs.Omitted.{lacks_sites};
ghost use Rattle.campaign_choice.specs.Projects.{design_part, HasScripts};
ghost use Rattle.campaign_plan.specs.Campaigns.{IsPrepared, LeavesOut};
ghost use Rattle.campaign_plan.specs.Trials.{AreTrials, IsReading, Reading};

use campaign_choice::{Scripted, choose};
use campaign_plan::{Prepared, TrialList};
use mcy_base::SourceFile;
use mutation_sites::Site;
use project_file::{Project, Requirement};
use project_sources::CheckedNetlist;
use std::alloc::{AllocError, Global};

/// What the sources of a project give: the netlist of the design with all its sites, for each of these whether the project leaves it
/// out, and the tests as they are run.
#[derive(Drop)]
pub(crate) struct Judged {
    pub netlist: CheckedNetlist,
    pub sites: Vec<Site>,
    pub omitted: Vec<bool>,
    pub trials: TrialList,
}

/// What a project requires of the tags, if something.
fn requirement_of(alloc: Global, project: &Project) -> Result<Option<Requirement>, AllocError>
    ensures { IfOk result (λ requirement. requirement ≡ project.now.requirement) }
{
    match &project.requirement {
        Some(requirement) => Ok(Some(requirement.copy(alloc)?)),
        None => Ok(None),
    }
}

/// The campaign of a project with its scripts and its sources, from what these give.
pub(crate) fn make_campaign(
    alloc: Global,
    config: &[u8],
    taken: Scripted,
    files: &[SourceFile],
    judged: Judged,
) -> Result<Prepared, AllocError>
    requires says { IsProject config.now taken.project }
    requires scripts { HasScripts taken.project taken.script taken.report }
    requires names { names_of files.now ≡ all_files taken.project }
    requires design { HasNetlist (design_part taken.project files.now) taken.project.top judged.netlist }
    requires trials { (r : Reading) × IsReading files.now (names_of files.now) taken.project.top judged.netlist r × AreTrials r taken.project.tests judged.trials }
    requires sites { judged.sites.items ≡ sites_at taken.project judged.netlist }
    requires placed { All (IsSite judged.netlist) judged.sites.items }
    requires few { IsWithinLimits taken.project judged.netlist }
    requires left_out { LeavesOut taken.project files.now judged.netlist judged.omitted.items }
    requires some { lacks_sites judged.omitted.items ≡ false }
    ensures { IfOk result (λ prepared. IsPrepared config.now files.now prepared) }
{
    let cycles = taken.project.cycles;
    let word_seed = taken.project.word_seed;
    let auto_cycles = taken.project.auto_cycles;
    let baseline = taken.project.baseline;
    let requirement = requirement_of(alloc, &taken.project)?;
    let Judged {
        netlist,
        sites,
        omitted,
        trials,
    } = judged;
    let all = sites.as_slice();
    let choice = choose(
        alloc,
        config,
        taken,
        files,
        netlist.netlist(),
        all,
        &omitted,
    )?;
    Ok(Prepared {
        campaign: choice.campaign,
        site_count: all.len(),
        sites: choice.sites,
        netlist,
        trials,
        cycles,
        word_seed,
        files: choice.files,
        requirement,
        baseline,
        auto_cycles,
    })
}
