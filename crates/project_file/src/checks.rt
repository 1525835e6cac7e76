//! The checks of a project file: each line behind the lines before it, so that the first bad one is told.
ghost use Rattle.std.specs.Prelude.{◌≡◌, ◌<◌, ◌+◌, ◌-◌, ◌^◌, [], IfOk, OnOk, Some, length, map};
ghost use Rattle.project_lines.specs.Checks.{Checks, first_fault};
ghost use Rattle.project_lines.specs.Paths.{with_names};
ghost use Rattle.project_options.specs.Options.{around_of};
ghost use Rattle.project_file.specs.Projects.{fault_of, header_fault, is_test_too_many, lead_fault, lines_fault, missing, missing_behind_script, missing_in_script, missing_in_tests, missing_kind, missing_pass, part_at, part_fault, part_reads, parts_fault, reads_in};
ghost use Rattle.project_lines.specs.Sections.{lead, parts_of, seen, tests_in, title_of};

use crate::test_plan::{check_test, has_kind, lacks_pass};
use crate::values::args_in;
use project_lines::{
    Paths, ProjectError, ReadFiles, Section, Title, What, all_reads, check_files, check_script,
    find_section, first_top, has_header, has_line, is_said, lead, lines_in, tests_in, title_of,
};
use project_options::{Around, check_options};
use std::alloc::{AllocError, Global};

/// The most tests of a project.
const MAX_TESTS: usize = 16;

/// Checks that no line in front of the first header says something.
#[tactic(auto, unfolding(crate::specs::Projects::lead_fault))]
fn check_lead(lines: &[&str]) -> Result<(), ProjectError>
    requires { length lines.now < 2 ^ 32 - 1 }
    ensures { Checks result (first_fault lead_fault [] 1 (map (λ line. line.now) lines.now)) }
{
    for (i, line) in lines.iter().enumerate() {
        if is_said(line) {
            return Err(ProjectError::BadLine(1 + i as u32));
        }
    }
    Ok(())
}

/// Whether a section with this title would be a test too many.
fn is_test_too_many(
    alloc: Global,
    title: Title,
    earlier: &[Section<'_, '_>],
) -> Result<bool, AllocError>
    ensures { IfOk result (λ too_many. too_many ≡ is_test_too_many title (map seen earlier.now)) }
{
    match title {
        Title::Test => Ok(tests_in(alloc, earlier)?.len() >= MAX_TESTS),
        _ => Ok(false),
    }
}

/// Checks the header of a section behind other sections, and tells its title.
#[tactic(auto, unfolding(crate::specs::Projects::header_fault))]
fn check_header(
    alloc: Global,
    earlier: &[Section<'_, '_>],
    number: u32,
    header: &str,
) -> Result<Title, ProjectError>
    ensures fault { Checks result (header_fault (map seen earlier.now) number header.now) }
    ensures title { IfOk result (λ title. title_of header.now ≡ Some title) }
{
    let Some(title) = title_of(header) else {
        return Err(ProjectError::BadLine(number));
    };
    if has_header(header, earlier) {
        return Err(ProjectError::Repeated(number));
    }
    if is_test_too_many(alloc, title, earlier)? {
        return Err(ProjectError::OutOfRange(number));
    }
    Ok(title)
}

/// Checks the lines of a section, which are numbered from here on, and reads their files.
#[tactic(auto, unfolding(project_lines::specs::Paths::with_names))]
fn check_lines<'a>(
    alloc: Global,
    around: &Around<'_, 'a>,
    read: &mut ReadFiles<'a>,
    title: Title,
    number: u32,
    lines: &[&'a str],
) -> Result<(), ProjectError>
    requires { number + length lines.now < 2 ^ 32 }
    ensures fault { Checks result (lines_fault (around_of around.now) read.old (Some title) number (map (λ line. line.now) lines.now)) }
    ensures read { OnOk result (read.new ≡ with_names read.old (reads_in (around_of around.now).known (Some title) (map (λ line. line.now) lines.now))) }
{
    match title {
        Title::Options => check_options(alloc, around, number, lines),
        Title::Script => check_script(alloc, around.paths, read, number, lines),
        Title::Files => check_files(alloc, number, lines),
        Title::Logic | Title::Report => Ok(()),
        Title::Test => check_test(alloc, read, number, lines),
    }
}

/// Checks a section behind other sections, and reads its files.
#[tactic(auto, unfolding(crate::specs::Projects::part_at, crate::specs::Projects::part_reads))]
fn check_section<'a>(
    alloc: Global,
    around: &Around<'_, 'a>,
    read: &mut ReadFiles<'a>,
    earlier: &[Section<'_, '_>],
    section: &Section<'_, 'a>,
) -> Result<(), ProjectError>
    ensures fault { Checks result (part_at (around_of around.now) read.old (map seen earlier.now) (seen section.now)) }
    ensures read { OnOk result (read.new ≡ with_names read.old (part_reads (around_of around.now).known (seen section.now))) }
{
    let title = check_header(alloc, earlier, section.number, section.header)?;
    check_lines(
        alloc,
        around,
        read,
        title,
        section.number + 1,
        section.lines,
    )
}

/// Checks sections in order.
#[tactic(auto, unfolding(project_lines::specs::Paths::with_names, project_lines::specs::Paths::gather))]
fn check_sections<'a>(
    alloc: Global,
    around: &Around<'_, 'a>,
    sections: &[Section<'_, 'a>],
) -> Result<(), ProjectError>
    ensures { Checks result (first_fault (part_fault (around_of around.now)) [] 0 (map seen sections.now)) }
{
    let mut read = ReadFiles::new(alloc);
    for (i, section) in sections.iter().enumerate() {
        check_section(alloc, around, &mut read, &sections[..i], section)?;
    }
    Ok(())
}

/// Checks that each test has a kind.
#[tactic(auto, unfolding(crate::specs::Projects::missing_kind))]
fn check_kinds(tests: &[Section<'_, '_>]) -> Result<(), ProjectError>
    requires { length tests.now < 2 ^ 32 }
    ensures { Checks result (missing_kind 0 (map seen tests.now)) }
{
    for (i, test) in tests.iter().enumerate() {
        if !has_kind(test.lines) {
            return Err(ProjectError::Missing(What::Kind(i as u32)));
        }
    }
    Ok(())
}

/// Checks that each sim test has a text by which it passes.
#[tactic(auto, unfolding(crate::specs::Projects::missing_pass))]
fn check_passes(tests: &[Section<'_, '_>]) -> Result<(), ProjectError>
    requires { length tests.now < 2 ^ 32 }
    ensures { Checks result (missing_pass 0 (map seen tests.now)) }
{
    for (i, test) in tests.iter().enumerate() {
        if lacks_pass(test.lines) {
            return Err(ProjectError::Missing(What::Pass(i as u32)));
        }
    }
    Ok(())
}

/// Checks that each test has what it needs.
fn check_tests(tests: &[Section<'_, '_>]) -> Result<(), ProjectError>
    requires { length tests.now < 2 ^ 32 }
    ensures { Checks result (missing_in_tests (map seen tests.now)) }
{
    check_kinds(tests)?;
    check_passes(tests)
}

/// Checks that the lines of the section of the script lack nothing.
fn check_script_lines(alloc: Global, lines: &[&str]) -> Result<(), ProjectError>
    ensures { Checks result (missing_in_script (map (λ line. line.now) lines.now)) }
{
    if !has_line("read_verilog", lines) {
        return Err(ProjectError::Missing(What::Read));
    }
    match first_top(alloc, lines)? {
        Some(_) => Ok(()),
        None => Err(ProjectError::Missing(What::Top)),
    }
}

/// Checks that nothing is missing beside the section of the script.
#[tactic(auto, using(project_lines::proofs::Few::few_tests))]
fn check_behind_script(alloc: Global, sections: &[Section<'_, '_>]) -> Result<(), ProjectError>
    requires { length sections.now < 2 ^ 32 }
    ensures { Checks result (missing_behind_script (map seen sections.now)) }
{
    if find_section("logic", sections).is_none() {
        return Err(ProjectError::Missing(What::Logic));
    }
    check_tests(&tests_in(alloc, sections)?)
}

/// Checks that nothing is missing.
#[tactic(auto, unfolding(crate::specs::Projects::missing))]
fn check_missing(alloc: Global, sections: &[Section<'_, '_>]) -> Result<(), ProjectError>
    requires { length sections.now < 2 ^ 32 }
    ensures { Checks result (missing (map seen sections.now)) }
{
    if find_section("script", sections).is_none() {
        return Err(ProjectError::Missing(What::Script));
    }
    check_script_lines(alloc, lines_in("script", sections))?;
    check_behind_script(alloc, sections)
}

/// Checks the sections of a file, and that nothing is missing.
#[tactic(auto, unfolding(crate::specs::Projects::parts_fault, crate::specs::Projects::design_in))]
fn check_parts(alloc: Global, sections: &[Section<'_, '_>]) -> Result<(), ProjectError>
    requires { length sections.now < 2 ^ 32 }
    ensures { Checks result (parts_fault (map seen sections.now)) }
{
    let paths = Paths::of(alloc, lines_in("files", sections))?;
    let tags = args_in(alloc, "tags", lines_in("options", sections))?;
    let design = all_reads(alloc, &paths, lines_in("script", sections))?;
    let around = Around {
        tags: &tags,
        paths: &paths,
        design: &design,
    };
    check_sections(alloc, &around, sections)?;
    check_missing(alloc, sections)
}

/// Checks a file: its lines, and its sections.
#[tactic(auto, using(project_lines::proofs::Few::few_sections), unfolding(crate::specs::Projects::fault_of))]
pub fn check_file(
    alloc: Global,
    lines: &[&str],
    sections: &[Section<'_, '_>],
) -> Result<(), ProjectError>
    requires few { length lines.now < 2 ^ 32 - 1 }
    requires sections { map seen sections.now ≡ parts_of 1 (map (λ line. line.now) lines.now) }
    ensures { Checks result (fault_of (map (λ line. line.now) lines.now)) }
{
    check_lead(lead(lines))?;
    check_parts(alloc, sections)
}
