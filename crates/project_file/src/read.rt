//! The reading of a project file.
ghost use Rattle.std.specs.Prelude.{◌≡◌, ◌≢◌, ◌<◌, ◌+◌, ◌^◌, IfErr, IfOk, MatchResult, length, map};
ghost use Rattle.std.specs.Str.{IsUtf8, IsValidUpTo};
ghost use Rattle.std.specs.Str.Lines.{lines};
ghost use Rattle.project_file.specs.Projects.{IsFault, IsProject, design_in, numbered, project_of, raw_lines, test_of, top_in};
ghost use Rattle.project_lines.specs.Sections.{seen, tests_in};

use crate::checks::check_file;
use crate::project::{Project, TestPlan, TestPlanList};
use crate::test_plan::plan_of;
use crate::values::{only_in, requirement_in, settings_in, skip_in, tags_in};
use mcy_base::{Line, LineList, Text, TextList};
use project_lines::{
    Paths, ProjectError, Section, all_reads, all_sections, find_section, first_top, lines_in,
    name_in, tests_in, text_lines, texts_of,
};
use std::alloc::{AllocError, Global};
use std::str::from_utf8;

/// Reads a project file.
///
/// It refuses the first bad line in the order of the file, and where no line is bad the first thing that is missing. A file
/// that is no UTF-8 is refused before that.
#[tactic(auto, using(project_lines::proofs::Few::few_lines))]
pub fn read_project(alloc: Global, bytes: &[u8]) -> Result<Project, ProjectError>
    requires { length bytes.now < 2 ^ 31 }
    ensures project { IfOk result (λ project. IsProject bytes.now project) }
    ensures refused { IfErr result (λ e. e ≢ ProjectError.Memory → IsFault bytes.now e) }
{
    let text = utf8(bytes)?;
    let lines = text_lines(alloc, text)?;
    let sections = all_sections(alloc, &lines)?;
    check_file(alloc, &lines, &sections)?;
    Ok(project_of(alloc, &sections)?)
}

/// The text of the bytes.
fn utf8(bytes: &[u8]) -> Result<&str, ProjectError>
    requires { length bytes.now < 2 ^ 31 }
    ensures { MatchResult result (λ text. (text.now ≡ bytes.now) × IsUtf8 bytes.now) (λ e. IsFault bytes.now e) }
{
    match from_utf8(bytes) {
        Ok(text) => Ok(text),
        Err(e) => Err(ProjectError::NotUtf8(e.valid_up_to() as u32)),
    }
}

/// The project of sections without faults.
#[tactic(auto, unfolding(crate::specs::Projects::project_of))]
fn project_of(alloc: Global, sections: &[Section<'_, '_>]) -> Result<Project, AllocError>
    ensures { IfOk result (λ project. project ≡ project_of (map seen sections.now)) }
{
    let options = lines_in("options", sections);
    let settings = settings_in(alloc, options)?;
    let paths = Paths::of(alloc, lines_in("files", sections))?;
    Ok(Project {
        size: settings.size,
        tags: tags_in(alloc, options)?,
        word_seed: settings.word_seed,
        modes: settings.modes,
        even: settings.even,
        conflicts: settings.conflicts,
        cycles: settings.cycles,
        auto_cycles: settings.auto_cycles,
        baseline: settings.baseline,
        requirement: requirement_in(alloc, options)?,
        only: only_in(alloc, &paths, options)?,
        skip: skip_in(alloc, options)?,
        design: design_in(alloc, sections)?,
        top: top_in(alloc, sections)?,
        logic: raw_lines(alloc, "logic", sections)?,
        report: raw_lines(alloc, "report", sections)?,
        tests: plans_in(alloc, sections)?,
    })
}

/// The files of the design.
#[tactic(auto, unfolding(crate::specs::Projects::design_in))]
fn design_in(alloc: Global, sections: &[Section<'_, '_>]) -> Result<TextList, AllocError>
    ensures { IfOk result (λ design. design ≡ design_in (map seen sections.now)) }
{
    let paths = Paths::of(alloc, lines_in("files", sections))?;
    texts_of(
        alloc,
        &all_reads(alloc, &paths, lines_in("script", sections))?,
    )
}

/// The name of the top.
#[tactic(auto, unfolding(crate::specs::Projects::top_in))]
fn top_in(alloc: Global, sections: &[Section<'_, '_>]) -> Result<Text, AllocError>
    ensures { IfOk result (λ top. top ≡ top_in (map seen sections.now)) }
{
    let top = first_top(alloc, lines_in("script", sections))?;
    Text::copy(alloc, top.unwrap_or(""))
}

/// The lines with their numbers, from this one on.
#[tactic(auto, unfolding(crate::specs::Projects::numbered))]
fn numbered(alloc: Global, number: u32, lines: &[&str]) -> Result<LineList, AllocError>
    requires { number + length lines.now < 2 ^ 32 }
    ensures { IfOk result (λ all. all ≡ numbered number (map (λ line. line.now) lines.now)) }
{
    let mut all = LineList::from_vec(Vec::new(alloc));
    for (i, line) in lines.iter().enumerate() {
        all.push(Line {
            number: number + i as u32,
            text: Text::copy(alloc, line)?,
        })?;
    }
    Ok(all)
}

/// The lines of a section as they stand, or none.
#[tactic(auto, unfolding(crate::specs::Projects::raw_lines))]
fn raw_lines(
    alloc: Global,
    word: &str,
    sections: &[Section<'_, '_>],
) -> Result<LineList, AllocError>
    ensures { IfOk result (λ all. all ≡ raw_lines word.now (map seen sections.now)) }
{
    match find_section(word, sections) {
        Some(section) => numbered(alloc, section.number + 1, section.lines),
        None => Ok(LineList::from_vec(Vec::new(alloc))),
    }
}

/// The plan of a test.
fn test_of(alloc: Global, section: &Section<'_, '_>) -> Result<TestPlan, AllocError>
    ensures { IfOk result (λ plan. plan ≡ test_of (seen section.now)) }
{
    plan_of(alloc, name_in(section.header), section.lines)
}

/// The plans of these tests.
fn plans_of(alloc: Global, tests: &[Section<'_, '_>]) -> Result<TestPlanList, AllocError>
    ensures { IfOk result (λ plans. plans ≡ map test_of (map seen tests.now)) }
{
    let mut plans = TestPlanList::from_vec(Vec::new(alloc));
    for test in tests {
        plans.push(test_of(alloc, test)?)?;
    }
    Ok(plans)
}

/// The plans of the tests.
fn plans_in(alloc: Global, sections: &[Section<'_, '_>]) -> Result<TestPlanList, AllocError>
    ensures { IfOk result (λ plans. plans ≡ map test_of (tests_in (map seen sections.now))) }
{
    plans_of(alloc, &tests_in(alloc, sections)?)
}
