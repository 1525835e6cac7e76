//! From a project and the bytes of its sources to their campaign.
//!
//! The sources are judged in this order: their files, their modules, the design's netlist, the limit on sites, where a test
//! is an equality those on gates and on free bits, the sites that the project leaves, and then the benches of the tests.
ghost use Rattle.std.specs.Prelude.{◌≡◌, ◌≤◌, false, List, length, All, IfOk, IfErr, OnOk};
ghost use Rattle.mutation_sites.specs.Mutants.{IsSite};
ghost use Rattle.project_file.specs.Projects.{IsProject};
ghost use Rattle.project_limits.specs.Files.{all_files};
ghost use Rattle.source_trees.specs.Files.{AreRead};
ghost use Rattle.vlog_syntax.specs.declared.module.Module.{Module as Tree};
ghost use Rattle.project_sources.specs.Netlists.{HasNetlist};
ghost use Rattle.campaign_choice.specs.Limits.{max_bytes, IsWithinLimits};
ghost use Rattle.campaign_choice.specs.Mutations.{all_sites as sites_at};
ghost use Rattle.campaign_choice.specs.Omitted.{lacks_sites as leaves_none};
ghost use Rattle.campaign_choice.specs.Projects.{design_part, HasScripts};
ghost use Rattle.campaign_plan.specs.Trials.{AreTrials, IsReading, Reading};
ghost use Rattle.campaign_choice.specs.Campaigns.{names_of};
ghost use Rattle.campaign_plan.specs.Campaigns.{IsPrepared, LeavesOut};
ghost use Rattle.campaign_reading.specs.Reads.{IsRefusedAsLarge, IsRefusedWithoutSites, IsUnbenched, IsUnprepared};

use crate::making::{Judged, make_campaign};
use crate::refusal::Refusal;
use crate::trials;
use campaign_choice::{Scripted, all_sites, design_part, excess, lacks_sites, omitted_sites};
use campaign_plan::{Prepared, TrialList};
use flat_items::top_of;
use mcy_base::SourceFile;
use mutation_sites::Site;
use netlist_core::Netlist;
use project_file::Project;
use project_sources::{CheckedNetlist, NetlistError, read_netlist, read_sources, skipped_cells};
use report_script::Report;
use source_faults::{SourceError, no_sites, too_many};
use std::alloc::{AllocError, Global};
use tag_script::Script;
use vlog_syntax::Module;

/// Why sources make no campaign.
#[derive(Drop)]
pub enum PrepareError {
    /// The first thing that is wrong with them.
    Source(SourceError),
    /// There was no memory.
    Memory,
}

impl From<AllocError> for PrepareError {
    ghost use Rattle.campaign_reading.specs.declared.preparing.PrepareError.TheVariants.{Memory};

    ghost from_gives = { λ _ e. e ≡ Memory };

    fn from(_: AllocError) -> PrepareError {
        PrepareError::Memory
    }
}

impl From<PrepareError> for Refusal {
    ghost use Rattle.campaign_reading.specs.Reads.{refused_as};

    ghost from_gives = { λ error refusal. refusal ≡ refused_as error };

    fn from(error: PrepareError) -> Refusal {
        match error {
            PrepareError::Source(error) => Refusal::SourceBad(error),
            PrepareError::Memory => Refusal::Memory,
        }
    }
}

impl From<NetlistError> for PrepareError {
    ghost use Rattle.campaign_reading.specs.Reads.{prepare_error};

    ghost from_gives = { λ error refusal. refusal ≡ prepare_error error };

    fn from(error: NetlistError) -> PrepareError {
        match error {
            NetlistError::Source(error) => PrepareError::Source(error),
            NetlistError::Memory => PrepareError::Memory,
        }
    }
}

/// The campaign of a project, of its tag script and report, and of its sources: the files of its design, and behind them those of its
/// tests. `config` are the bytes of the project file.
pub fn prepare(
    alloc: Global,
    project: Project,
    script: Script,
    report: Report,
    sources: &[SourceFile],
    config: &[u8],
) -> Result<Prepared, PrepareError>
    requires says { IsProject config.now project }
    requires scripts { HasScripts project script report }
    requires names { names_of sources.now ≡ all_files project }
    requires short { All (λ file. length file.bytes ≤ max_bytes) sources.now }
    ensures made { IfOk result (IsPrepared config.now sources.now) }
    ensures refused { IfErr result (IsUnprepared project sources.now) }
{
    let taken = Scripted {
        project,
        script,
        report,
    };
    prepare_scripted(alloc, taken, sources, config)
}

/// The same of a project that has its scripts.
pub(crate) fn prepare_scripted(
    alloc: Global,
    taken: Scripted,
    sources: &[SourceFile],
    config: &[u8],
) -> Result<Prepared, PrepareError>
    requires says { IsProject config.now taken.project }
    requires scripts { HasScripts taken.project taken.script taken.report }
    requires names { names_of sources.now ≡ all_files taken.project }
    requires short { All (λ file. length file.bytes ≤ max_bytes) sources.now }
    ensures made { IfOk result (IsPrepared config.now sources.now) }
    ensures refused { IfErr result (IsUnprepared taken.project sources.now) }
{
    let judged = judge(alloc, &taken.project, sources)?;
    Ok(make_campaign(alloc, config, taken, sources, judged)?)
}

/// Judges the sources of a project.
fn judge(alloc: Global, project: &Project, sources: &[SourceFile]) -> Result<Judged, PrepareError>
    requires few { length sources.now ≤ 65536 }
    requires tests { length project.now.tests ≤ 16 }
    requires short { All (λ file. length file.bytes ≤ max_bytes) sources.now }
    ensures design { IfOk result (λ judged. HasNetlist (design_part project.now sources.now) project.now.top judged.netlist) }
    ensures sites { IfOk result (λ judged. judged.sites.items ≡ sites_at project.now judged.netlist) }
    ensures placed { IfOk result (λ judged. All (IsSite judged.netlist) judged.sites.items) }
    ensures within { IfOk result (λ judged. IsWithinLimits project.now judged.netlist) }
    ensures left_out { IfOk result (λ judged. LeavesOut project.now sources.now judged.netlist judged.omitted.items) }
    ensures some { IfOk result (λ judged. leaves_none judged.omitted.items ≡ false) }
    ensures trials { IfOk result (λ judged. (r : Reading) × IsReading sources.now (names_of sources.now) project.now.top judged.netlist r × AreTrials r project.now.tests judged.trials) }
    ensures refused { IfErr result (IsUnprepared project.now sources.now) }
{
    let modules = take_modules(alloc, project, sources)?;
    let netlist = take_netlist(alloc, project, sources)?;
    let all = take_sites(alloc, project, netlist.netlist())?;
    let omitted = take_omitted(alloc, project, sources, netlist.netlist(), &all)?;
    let trials = take_trials(alloc, project, sources, &modules, netlist.netlist())?;
    Ok(Judged {
        netlist,
        sites: all,
        omitted,
        trials,
    })
}

/// The modules of all files.
fn take_modules(
    alloc: Global,
    project: &Project,
    files: &[SourceFile],
) -> Result<Vec<Module>, PrepareError>
    requires few { length files.now ≤ 65536 }
    requires short { All (λ file. length file.bytes ≤ max_bytes) files.now }
    ensures modules { IfOk result (λ modules. AreRead files.now modules.items) }
    ensures refused { IfErr result (IsUnprepared project.now files.now) }
{
    Ok(read_sources(alloc, files)?)
}

/// The netlist of the design's files, where all files are modules.
fn take_netlist(
    alloc: Global,
    project: &Project,
    files: &[SourceFile],
) -> Result<CheckedNetlist, PrepareError>
    requires few { length files.now ≤ 65536 }
    requires short { All (λ file. length file.bytes ≤ max_bytes) files.now }
    requires read { (modules : List Tree) × AreRead files.now modules }
    ensures netlist { IfOk result (HasNetlist (design_part project.now files.now) project.now.top) }
    ensures refused { IfErr result (IsUnprepared project.now files.now) }
{
    Ok(read_netlist(
        alloc,
        design_part(alloc, project, files)?,
        project.top.as_str(),
    )?)
}

/// The tests of a project as they are run.
fn take_trials(
    alloc: Global,
    project: &Project,
    files: &[SourceFile],
    modules: &[Module],
    netlist: &Netlist,
) -> Result<TrialList, PrepareError>
    requires few { length files.now ≤ 65536 }
    requires tests { length project.now.tests ≤ 16 }
    requires read { AreRead files.now modules.now }
    requires design { HasNetlist (design_part project.now files.now) project.now.top netlist.now.raw }
    ensures trials { IfOk result (λ trials. (r : Reading) × IsReading files.now (names_of files.now) project.now.top netlist.now.raw r × AreTrials r project.now.tests trials) }
    ensures refused { IfErr result (λ error. IsUnbenched project.now files.now netlist.now.raw error) }
{
    // The design has a netlist, so its top is a module of its files, which stand first among all.
    let top = top_of(modules, project.top.as_str()).unwrap();
    let reading = trials::Reading {
        alloc,
        files,
        modules,
        top,
        netlist,
    };
    Ok(reading.trials(project.tests.as_slice())?)
}

/// All sites of a netlist that is not too large.
fn take_sites(
    alloc: Global,
    project: &Project,
    netlist: &Netlist,
) -> Result<Vec<Site>, PrepareError>
    ensures sites { IfOk result (λ list. list.items ≡ sites_at project.now netlist.now.raw) }
    ensures placed { IfOk result (λ list. All (IsSite netlist.now.raw) list.items) }
    ensures few { OnOk result (IsWithinLimits project.now netlist.now.raw) }
    ensures refused { IfErr result (IsRefusedAsLarge project.now netlist.now.raw) }
{
    match excess(project, netlist) {
        None => Ok(all_sites(alloc, project, netlist)?),
        Some(kind) => Err(PrepareError::Source(too_many(alloc, kind)?)),
    }
}

/// For each site of a netlist, whether the project leaves it out.
fn left_out(
    alloc: Global,
    project: &Project,
    files: &[SourceFile],
    netlist: &Netlist,
    all: &[Site],
) -> Result<Vec<bool>, AllocError>
    requires few { length files.now ≤ 65536 }
    requires short { All (λ file. length file.bytes ≤ max_bytes) files.now }
    requires sites { all.now ≡ sites_at project.now netlist.now.raw }
    ensures { IfOk result (λ omitted. LeavesOut project.now files.now netlist.now.raw omitted.items) }
{
    let design = design_part(alloc, project, files)?;
    let top = project.top.as_str();
    let instances = project.skip.as_slice();
    let skipped = skipped_cells(alloc, design, top, instances)?;
    omitted_sites(alloc, project, &skipped, netlist, all)
}

/// The same, where it does not leave out all.
fn take_omitted(
    alloc: Global,
    project: &Project,
    files: &[SourceFile],
    netlist: &Netlist,
    all: &[Site],
) -> Result<Vec<bool>, PrepareError>
    requires few { length files.now ≤ 65536 }
    requires short { All (λ file. length file.bytes ≤ max_bytes) files.now }
    requires sites { all.now ≡ sites_at project.now netlist.now.raw }
    ensures left_out { IfOk result (λ omitted. LeavesOut project.now files.now netlist.now.raw omitted.items) }
    ensures some { IfOk result (λ omitted. leaves_none omitted.items ≡ false) }
    ensures refused { IfErr result (IsRefusedWithoutSites project.now files.now netlist.now.raw) }
{
    let omitted = left_out(alloc, project, files, netlist, all)?;
    if lacks_sites(&omitted) {
        return Err(PrepareError::Source(no_sites(alloc)?));
    }
    Ok(omitted)
}
