//! What a project and its sources define before any test is run.
//!
//! `campaign` is what the book and the texts are made of. Mutation n of it is `netlist` broken at site n of `sites`, which
//! are picked of the `site_count` sites that there are.
ghost use Rattle.std.specs.Prelude.{◌≡◌};

use crate::trial::TrialList;
use campaign_choice::SiteList;
use mcy_base::FileList;
use project_benches::CheckedNetlist;
use project_file::Requirement;
use result_book::Campaign;

/// A campaign, and its sources with their netlist, how many sites that has, and those at which the mutations break it.
pub struct Prepared {
    pub campaign: Campaign,
    pub site_count: usize,
    pub sites: SiteList,
    pub netlist: CheckedNetlist,
    /// The tests in the order of the project, how many cycles a simulation may take, and where `$random` begins. How many lemmas an
    /// equality may add at first is said by `campaign`.
    pub trials: TrialList,
    pub cycles: u32,
    pub word_seed: u64,
    /// The sources of the design in the order of reading.
    pub files: FileList,
    /// What is required of the tags, if something is; and whether nothing is run where a bench does not pass with the design itself.
    pub requirement: Option<Requirement>,
    pub baseline: bool,
    /// Whether `cycles` is to follow from those that the benches take with the design itself.
    pub auto_cycles: bool,
}

impl Drop for Prepared {
    fn drop(self) {
        let Prepared {
            campaign: _campaign,
            site_count: _,
            sites: _sites,
            netlist: _netlist,
            trials: _trials,
            cycles: _,
            word_seed: _,
            files: _files,
            requirement: _requirement,
            baseline: _,
            auto_cycles: _,
        } = self;
    }
}

impl Prepared {
    /// The same with this limit of cycles.
    pub fn with_cycles(self, cycles: u32) -> Prepared
        ensures { result ≡ record self { cycles = cycles } }
    {
        let Prepared {
            campaign,
            site_count,
            sites,
            netlist,
            trials,
            cycles: _,
            word_seed,
            files,
            requirement,
            baseline,
            auto_cycles,
        } = self;
        Prepared {
            campaign,
            site_count,
            sites,
            netlist,
            trials,
            cycles,
            word_seed,
            files,
            requirement,
            baseline,
            auto_cycles,
        }
    }
}
