//! What a project says, on one line: its fields with `;` between them.
use crate::bytes::push_escaped;
use mcy_base::{LineList, TextList};
use project_file::{LineRange, ModeFlags, Project, Requirement, TestKind, TestPlan};
use std::alloc::{AllocError, Global};

fn push_number(alloc: Global, text: &mut String, number: u64) -> Result<(), AllocError> {
    let digits = format!(in alloc; "{number}")?;
    text.push_str(digits.as_str())
}

fn push_texts(text: &mut String, texts: &TextList) -> Result<(), AllocError> {
    for one in texts.as_slice() {
        text.push(' ')?;
        push_escaped(text, one.as_str().as_bytes())?;
    }
    Ok(())
}

fn push_lines(alloc: Global, text: &mut String, lines: &LineList) -> Result<(), AllocError> {
    for line in lines.as_slice() {
        text.push(' ')?;
        push_number(alloc, text, u64::from(line.number))?;
        text.push(':')?;
        push_escaped(text, line.text.as_str().as_bytes())?;
        text.push('|')?;
    }
    Ok(())
}

fn push_modes(text: &mut String, modes: ModeFlags) -> Result<(), AllocError> {
    for (has, name) in [
        (modes.inv, " inv"),
        (modes.const0, " const0"),
        (modes.const1, " const1"),
        (modes.cnot0, " cnot0"),
        (modes.cnot1, " cnot1"),
    ] {
        if has {
            text.push_str(name)?;
        }
    }
    Ok(())
}

/// Adds bytes between bars, behind a word.
fn push_barred(text: &mut String, word: &str, bytes: &[u8]) -> Result<(), AllocError> {
    text.push_str(word)?;
    text.push('|')?;
    push_escaped(text, bytes)?;
    text.push('|')
}

/// Adds texts behind a word.
fn push_listed(text: &mut String, word: &str, texts: &TextList) -> Result<(), AllocError> {
    text.push_str(word)?;
    push_texts(text, texts)
}

fn push_kind(text: &mut String, kind: &TestKind) -> Result<(), AllocError> {
    match kind {
        TestKind::Eq => text.push_str(" eq"),
        TestKind::Sim {
            bench,
            files,
            pass,
            fail,
        } => {
            text.push_str(" sim ")?;
            push_listed(text, bench.as_str(), files)?;
            push_barred(text, " pass ", pass.as_slice())?;
            push_barred(text, " fail ", fail.as_slice())
        }
    }
}

fn push_test(alloc: Global, text: &mut String, test: &TestPlan) -> Result<(), AllocError> {
    text.push_str("; test ")?;
    text.push_str(test.name.as_str())?;
    push_kind(text, &test.kind)?;
    push_counted(alloc, text, " expect ", u64::from(test.expect))
}

fn push_tests(alloc: Global, text: &mut String, tests: &[TestPlan]) -> Result<(), AllocError> {
    for test in tests {
        push_test(alloc, text, test)?;
    }
    Ok(())
}

/// Adds a number behind a word.
fn push_counted(
    alloc: Global,
    text: &mut String,
    word: &str,
    number: u64,
) -> Result<(), AllocError> {
    text.push_str(word)?;
    push_number(alloc, text, number)
}

/// Adds how mutations are selected.
fn push_selection(alloc: Global, text: &mut String, project: &Project) -> Result<(), AllocError> {
    push_counted(alloc, text, "size ", u64::from(project.size))?;
    push_counted(alloc, text, "; seed ", project.word_seed)?;
    text.push_str("; modes")?;
    push_modes(text, project.modes)?;
    text.push_str(if project.even { "; even" } else { "; plain" })
}

/// Adds what is required, where something is.
fn push_requirement(
    alloc: Global,
    text: &mut String,
    requirement: Option<&Requirement>,
) -> Result<(), AllocError> {
    let Some(requirement) = requirement else {
        return Ok(());
    };
    push_counted(alloc, text, "; require ", u64::from(requirement.percent))?;
    text.push(' ')?;
    push_listed(text, requirement.counted.as_str(), &requirement.among)
}

/// Adds the lines whose sites are taken, where some are named.
fn push_ranges(alloc: Global, text: &mut String, ranges: &[LineRange]) -> Result<(), AllocError> {
    for range in ranges {
        text.push_str("; only ")?;
        push_escaped(text, range.file.as_str().as_bytes())?;
        push_counted(alloc, text, " ", u64::from(range.from))?;
        push_counted(alloc, text, " ", u64::from(range.to))?;
    }
    Ok(())
}

/// Adds what the options say that few projects have.
fn push_rarer(alloc: Global, text: &mut String, project: &Project) -> Result<(), AllocError> {
    if project.auto_cycles {
        text.push_str("; auto")?;
    }
    if project.baseline {
        text.push_str("; baseline")?;
    }
    push_requirement(alloc, text, project.requirement.as_ref())?;
    push_ranges(alloc, text, project.only.as_slice())?;
    if project.skip.as_slice().is_empty() {
        return Ok(());
    }
    push_listed(text, "; skip", &project.skip)
}

fn push_options(alloc: Global, text: &mut String, project: &Project) -> Result<(), AllocError> {
    push_selection(alloc, text, project)?;
    push_counted(alloc, text, "; conflicts ", u64::from(project.conflicts))?;
    push_counted(alloc, text, "; cycles ", u64::from(project.cycles))?;
    push_rarer(alloc, text, project)?;
    push_listed(text, "; tags", &project.tags)
}

/// Adds the lines of the scripts.
fn push_scripts(alloc: Global, text: &mut String, project: &Project) -> Result<(), AllocError> {
    text.push_str("; logic")?;
    push_lines(alloc, text, &project.logic)?;
    text.push_str("; report")?;
    push_lines(alloc, text, &project.report)
}

fn push_project(alloc: Global, text: &mut String, project: &Project) -> Result<(), AllocError> {
    push_options(alloc, text, project)?;
    push_listed(text, "; design", &project.design)?;
    text.push_str("; top ")?;
    text.push_str(project.top.as_str())?;
    push_scripts(alloc, text, project)?;
    push_tests(alloc, text, project.tests.as_slice())
}

/// What the project says.
pub(crate) fn told(alloc: Global, project: &Project) -> Result<String, AllocError> {
    let mut text = String::new(alloc);
    push_project(alloc, &mut text, project)?;
    Ok(text)
}
