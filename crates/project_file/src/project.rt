//! Projects.
ghost use Rattle.std.specs.Prelude.{◌≡◌, IfOk, map};
ghost use Rattle.project_file.specs.Projects.{design_files};

use mcy_base::{Bytes, Items, LineList, Text, TextList};
use project_lines::names_once;
use std::alloc::{AllocError, Global};

/// For each mode of mutation, whether it is asked for.
#[derive(Clone, Copy, Debug, PartialEq, Eq)]
pub struct ModeFlags {
    pub inv: bool,
    pub const0: bool,
    pub const1: bool,
    pub cnot0: bool,
    pub cnot1: bool,
}

/// What a test does with a mutant.
#[derive(Drop)]
pub enum TestKind {
    /// It compares the mutant with the design.
    Eq,
    /// It runs a bench: the name of its module and its files, the text by which it passes, and the one by which it fails,
    /// which is empty where there is none.
    Sim {
        bench: Text,
        files: TextList,
        pass: Bytes,
        fail: Bytes,
    },
}

/// A test.
#[derive(Drop)]
pub struct TestPlan {
    pub name: Text,
    pub kind: TestKind,
    /// The words that are expected: PASS in bit 0, FAIL in bit 1, HANG in bit 2, UNKNOWN in bit 3.
    pub expect: u32,
}

/// Tests.
pub type TestPlanList = Items<TestPlan>;

/// What is required of the tags: a share of those that are counted, in percent.
#[derive(Drop)]
pub struct Requirement {
    /// From 1 to 100.
    pub percent: u32,
    /// The tag whose mutations are counted.
    pub counted: Text,
    /// The tags whose mutations are the whole.
    pub among: TextList,
}

impl Requirement {
    /// The same requirement.
    pub fn copy(&self, alloc: Global) -> Result<Requirement, AllocError>
        ensures { IfOk result (λ requirement. requirement ≡ self.now) }
    {
        let mut among = Vec::new(alloc);
        for tag in self.among.as_slice() {
            among.push(Text::copy(alloc, tag.as_str())?)?;
        }
        Ok(Requirement {
            percent: self.percent,
            counted: Text::copy(alloc, self.counted.as_str())?,
            among: TextList::from_vec(among),
        })
    }
}

/// Lines of a file, from 1; the first is not above the last.
#[derive(Drop)]
pub struct LineRange {
    /// The path of a file of the design.
    pub file: Text,
    pub from: u32,
    pub to: u32,
}

/// Lines of files.
pub type LineRangeList = Items<LineRange>;

/// A project.
#[derive(Drop)]
pub struct Project {
    /// How many mutations are taken, from 1 to 10,000.
    pub size: u32,
    /// The tags, at most 32. A tag may stand there twice.
    pub tags: TextList,
    /// The seed of the selection and of `$random`.
    pub word_seed: u64,
    pub modes: ModeFlags,
    /// Whether lines of the sources are taken evenly.
    pub even: bool,
    /// The most lemmas of an equivalence test, from 1 to 100,000.
    pub conflicts: u32,
    /// The most cycles of a simulation, from 1 to 1,000,000. With `auto_cycles` it is that of the design's own, and ten times as many
    /// as the longest of these takes are the most for a mutant.
    pub cycles: u32,
    pub auto_cycles: bool,
    /// Whether a campaign is refused where a bench does not pass with the design itself.
    pub baseline: bool,
    /// What is required of the tags, if something is.
    pub requirement: Option<Requirement>,
    /// The lines whose sites are taken, at most 64; where there are none, all.
    pub only: LineRangeList,
    /// The instances whose sites are left out, at most 64.
    pub skip: TextList,
    /// The files of the design, in the order in which they are named. A file may stand there twice.
    pub design: TextList,
    /// The name of the design's top module.
    pub top: Text,
    /// The lines of `[logic]` as they stand, with their numbers in the file.
    pub logic: LineList,
    /// The lines of `[report]` as they stand, with their numbers in the file.
    pub report: LineList,
    /// The tests, at most 16, each of another name.
    pub tests: TestPlanList,
}

impl Project {
    /// The files of the design in the order in which they are first named, each once.
    pub fn design_files(&self, alloc: Global) -> Result<Vec<&str>, AllocError>
        ensures { IfOk result (λ names. map (λ name. name.now) names.items ≡ design_files self.now) }
    {
        names_once(alloc, self.design.as_slice())
    }
}
