//! What a project chooses of its netlist: the sites of its mutations, and the campaign of these.
ghost use Rattle.std.specs.Prelude.{◌≡◌, ◌≤◌, length, All, IfOk};
ghost use Rattle.mutation_sites.specs.Mutants.{IsSite};
ghost use Rattle.campaign_choice.specs.Campaigns.{campaign_of};
ghost use Rattle.campaign_choice.specs.Mutations.{all_sites as sites_at, picked_sites as sites_picked};
ghost use Rattle.campaign_choice.specs.Projects.{design_part};

use crate::campaign::{design_copies, new_campaign};
use crate::mutations::picked_sites;
use crate::project::Scripted;
use mcy_base::{FileList, Items, SourceFile};
use mutation_sites::Site;
use netlist_core::Netlist;
use result_book::Campaign;
use std::alloc::{AllocError, Global};

/// Sites by number, from 0.
pub type SiteList = Items<Site>;

/// A campaign, the sites of its mutations, and the sources of its design in the order of reading.
#[derive(Drop)]
pub struct Choice {
    pub campaign: Campaign,
    pub sites: SiteList,
    pub files: FileList,
}

/// The choice of a project with its scripts and its sources, from their netlist and all its sites in the modes of the project.
/// `omitted` tells by their numbers which sites are left out.
pub fn choose(
    alloc: Global,
    config: &[u8],
    taken: Scripted,
    files: &[SourceFile],
    netlist: &Netlist,
    all: &[Site],
    omitted: &[bool],
) -> Result<Choice, AllocError>
    requires few { length all.now ≤ 4294967295 }
    requires all { all.now ≡ sites_at taken.project netlist.now.raw }
    requires placed { All (IsSite netlist.now.raw) all.now }
    ensures campaign { IfOk result (λ choice. choice.campaign ≡ campaign_of config.now taken.project taken.script taken.report files.now netlist.now.raw choice.sites) }
    ensures sites { IfOk result (λ choice. choice.sites ≡ sites_picked taken.project omitted.now netlist.now.raw) }
    ensures placed { IfOk result (λ choice. All (IsSite netlist.now.raw) choice.sites) }
    ensures files { IfOk result (λ choice. choice.files ≡ design_part taken.project files.now) }
{
    let design = design_copies(alloc, &taken.project, files)?;
    let sites = picked_sites(alloc, &taken.project, netlist, all, omitted)?;
    let campaign = new_campaign(alloc, config, taken, files, netlist, &sites)?;
    Ok(Choice {
        campaign,
        sites: SiteList::from_vec(sites),
        files: design,
    })
}
