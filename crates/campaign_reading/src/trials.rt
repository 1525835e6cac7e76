//! From the tests of a project to tests that can be run: the bench of each simulation is read.
ghost use Rattle.std.specs.Prelude.{◌≡◌, ◌≤◌, length, IfOk, IfErr};
ghost use Rattle.project_lines.specs.Words.{is_among};
ghost use Rattle.campaign_choice.specs.Campaigns.{names_of};
ghost use Rattle.campaign_plan.specs.Trials.{numbers_in, AreTrials, IsTrial, HasNoTrialFor, HasNoTrials, reading_of};

use campaign_plan::{Trial, TrialList, read_bench_of};
use mcy_base::{Bytes, SourceFile, Text};
use netlist_core::Netlist;
use project_file::{TestKind, TestPlan};
use project_sources::NetlistError;
use std::alloc::{AllocError, Global};
use vlog_syntax::Module;

/// What the benches are read from: all sources and their modules, and the design's top and netlist.
#[derive(Clone, Copy)]
pub(crate) struct Reading<'a> {
    pub(crate) alloc: Global,
    pub(crate) files: &'a [SourceFile],
    pub(crate) modules: &'a [Module],
    pub(crate) top: &'a Module,
    pub(crate) netlist: &'a Netlist,
}

/// Whether a file of this name is among these.
fn is_listed(name: &str, files: &[Text]) -> bool
    ensures { result ≡ is_among name.now files.now }
{
    files.iter().any(|file| file.as_str() == name)
}

/// The numbers of those files that have one of these names.
fn numbers_in(alloc: Global, files: &[SourceFile], names: &[Text]) -> Result<Vec<u32>, AllocError>
    requires few { length files.now ≤ 65536 }
    ensures { IfOk result (λ list. list.items ≡ numbers_in (names_of files.now) names.now) }
{
    let mut numbers = Vec::new(alloc);
    for number in 0..files.len() {
        if is_listed(files[number].name.as_str(), names) {
            numbers.push(number as u32)?;
        }
    }
    Ok(numbers)
}

impl Reading<'_> {
    /// The test of this number and kind.
    fn trial(&self, number: u32, kind: &TestKind) -> Result<Trial, NetlistError>
        requires few { length self.now.files.now ≤ 65536 }
        ensures trial { IfOk result (IsTrial (reading_of self.now.files.now self.now.modules.now self.now.top.now self.now.netlist.now.raw) kind.now) }
        ensures refused { IfErr result (HasNoTrialFor (reading_of self.now.files.now self.now.modules.now self.now.top.now self.now.netlist.now.raw) number kind.now) }
    {
        let TestKind::Sim {
            bench,
            files,
            pass,
            fail,
        } = kind
        else {
            return Ok(Trial::Equality);
        };
        let numbers = numbers_in(self.alloc, self.files, files.as_slice())?;
        let bench = read_bench_of(
            self.alloc,
            number,
            self.files,
            self.modules,
            &numbers,
            bench.as_str(),
            self.top,
            self.netlist,
        )?;
        Ok(Trial::Simulation {
            bench,
            pass: Bytes::copy(self.alloc, pass.as_slice())?,
            fail: Bytes::copy(self.alloc, fail.as_slice())?,
        })
    }

    /// All tests, in their order, or why the first of them that has no bench has none.
    pub(crate) fn trials(&self, tests: &[TestPlan]) -> Result<TrialList, NetlistError>
        requires few { length self.now.files.now ≤ 65536 }
        requires tests { length tests.now ≤ 16 }
        ensures trials { IfOk result (AreTrials (reading_of self.now.files.now self.now.modules.now self.now.top.now self.now.netlist.now.raw) tests.now) }
        ensures refused { IfErr result (HasNoTrials (reading_of self.now.files.now self.now.modules.now self.now.top.now self.now.netlist.now.raw) tests.now) }
    {
        let mut trials = TrialList::from_vec(Vec::new(self.alloc));
        for number in 0..tests.len() {
            trials.push(self.trial(number as u32, &tests[number].kind)?)?;
        }
        Ok(trials)
    }
}
