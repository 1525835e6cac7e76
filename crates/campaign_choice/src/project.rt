//! A project with its tag script and its report, and the files that it reads.
ghost use Rattle.std.specs.Prelude.{◌≡◌, ◌≢◌, ◌↔◌, IfErr, IfOk, IsTrue, OnOk, map};
ghost use Rattle.project_lines.specs.Words.{is_among};
ghost use Rattle.project_lines.specs.Paths.{with_name, with_names};
ghost use Rattle.project_file.specs.declared.project.TestKind.TheVariants.{Eq};
ghost use Rattle.tag_script.specs.Checks.{Reads};
ghost use Rattle.project_limits.specs.Files.{all_files, kind_files};
ghost use Rattle.campaign_choice.specs.Projects.{design_part, HasEquality, HasScripts, IsScriptFault, kind_of, logic_read};

use mcy_base::{SourceFile, Text, TextList};
use project_file::{Project, TestKind, TestPlan};
use report_script::{Report, read_report};
use result_book::{EQ_KIND, NumberList, SIM_KIND};
use std::alloc::{AllocError, Global};
use tag_script::{Script, ScriptError, read_script};

/// A project, its tag script and its report.
pub struct Scripted {
    pub project: Project,
    pub script: Script,
    pub report: Report,
}

impl Drop for Scripted {
    fn drop(self) {
        let Self {
            project: _project,
            script: _script,
            report: _report,
        } = self;
    }
}

impl Scripted {
    /// The project, its tag script and its report.
    pub(crate) fn into_parts(self) -> (Project, Script, Report)
        ensures project { result.0 ≡ self.project }
        ensures script { result.1 ≡ self.script }
        ensures report { result.2 ≡ self.report }
    {
        let Self {
            project,
            script,
            report,
        } = self;
        (project, script, report)
    }
}

fn is_equal(test: &TestPlan) -> bool
    ensures { IsTrue result ↔ (test.now.kind ≡ Eq) }
{
    matches!(test.kind, TestKind::Eq)
}

/// Whether one of the tests compares the mutant with the design.
pub(crate) fn has_equality(project: &Project) -> bool
    ensures { IsTrue result ↔ HasEquality project.now }
{
    project.tests.as_slice().iter().any(is_equal)
}

/// Whether a name stands in the list.
fn is_among(name: &str, names: &[&str]) -> bool
    ensures { result ≡ is_among name.now (map (λ n. n.now) names.now) }
{
    names.iter().any(|known| *known == name)
}

/// Adds a file's name, if it is not there.
#[tactic(auto, unfolding(project_lines::specs::Paths::with_name))]
fn add_name<'a>(names: &mut Vec<&'a str>, name: &'a str) -> Result<(), AllocError>
    ensures { OnOk result (map (λ n. n.now) names.new.items ≡ with_name (map (λ n. n.now) names.old.items) name.now) }
{
    if !is_among(name, names) {
        names.push(name)?;
    }
    Ok(())
}

/// Adds the names of a list of files, each once.
#[tactic(auto, using(crate::proofs::Naming::names_none, crate::proofs::Naming::names_push_one))]
fn add_names<'a>(names: &mut Vec<&'a str>, more: &'a [Text]) -> Result<(), AllocError>
    ensures { OnOk result (map (λ n. n.now) names.new.items ≡ with_names (map (λ n. n.now) names.old.items) more.now) }
{
    for name in more {
        add_name(names, name.as_str())?;
    }
    Ok(())
}

/// Adds the names of a test's files, each once.
#[tactic(auto, using(crate::proofs::Naming::names_none))]
fn add_test<'a>(names: &mut Vec<&'a str>, test: &'a TestPlan) -> Result<(), AllocError>
    ensures { OnOk result (map (λ n. n.now) names.new.items ≡ with_names (map (λ n. n.now) names.old.items) (kind_files test.now.kind)) }
{
    match &test.kind {
        TestKind::Eq => Ok(()),
        TestKind::Sim { files, .. } => add_names(names, files.as_slice()),
    }
}

/// The files that are read: those of the design, and behind them those of the tests, each once.
#[tactic(auto, using(crate::proofs::Naming::names_none, crate::proofs::Naming::names_push_test))]
pub fn all_files(alloc: Global, project: &Project) -> Result<Vec<&str>, AllocError>
    ensures { IfOk result (λ names. map (λ name. name.now) names.items ≡ all_files project.now) }
{
    let mut names = project.design_files(alloc)?;
    for test in project.tests.as_slice() {
        add_test(&mut names, test)?;
    }
    Ok(names)
}

/// Of the files that a project reads, those of its design, which stand first.
pub fn design_part<'a>(
    alloc: Global,
    project: &Project,
    files: &'a [SourceFile],
) -> Result<&'a [SourceFile], AllocError>
    ensures { IfOk result (λ part. part.now ≡ design_part project.now files.now) }
{
    let count = project.design_files(alloc)?.len().min(files.len());
    Ok(&files[..count])
}

/// The names of tests.
pub(crate) fn test_names(alloc: Global, tests: &[TestPlan]) -> Result<TextList, AllocError>
    ensures { IfOk result (λ names. names ≡ map (λ test. test.name) tests.now) }
{
    let mut names = Vec::new(alloc);
    for test in tests {
        names.push(Text::copy(alloc, test.name.as_str())?)?;
    }
    Ok(TextList::from_vec(names))
}

fn kind_of(kind: &TestKind) -> u32
    ensures { result ≡ kind_of kind.now }
{
    match kind {
        TestKind::Eq => EQ_KIND,
        TestKind::Sim { .. } => SIM_KIND,
    }
}

/// The codes of the kinds of tests.
pub(crate) fn test_kinds(alloc: Global, tests: &[TestPlan]) -> Result<NumberList, AllocError>
    ensures { IfOk result (λ kinds. kinds ≡ map (λ test. kind_of test.kind) tests.now) }
{
    let mut kinds = Vec::new(alloc);
    for test in tests {
        kinds.push(kind_of(&test.kind))?;
    }
    Ok(NumberList::from_vec(kinds))
}

/// The tag script of the project's logic.
fn read_logic(alloc: Global, project: &Project) -> Result<Script, ScriptError>
    ensures { Reads result (logic_read project.now) }
{
    let names = test_names(alloc, project.tests.as_slice())?;
    read_script(alloc, &project.logic, &names, &project.tags)
}

/// The tag script and the report of the project.
pub fn scripts_of(alloc: Global, project: &Project) -> Result<(Script, Report), ScriptError>
    ensures scripts { IfOk result (λ read. HasScripts project.now read.0 read.1) }
    ensures refused { IfErr result (λ error. error ≢ ScriptError.Memory → IsScriptFault project.now error) }
{
    match read_logic(alloc, project) {
        Ok(script) => match read_report(alloc, &project.report, &project.tags) {
            Ok(report) => Ok((script, report)),
            Err(error) => Err(error),
        },
        Err(error) => Err(error),
    }
}
