//! What to do next, told on a terminal behind the text of a status: which mutations to look at, what is left, and which words make the
//! coverage look better than it is.
//!
//! Names of tags and tests stand in the project file, which is read again. Where that fails these lines are left out.
use crate::marks::{Marks, test_bit};
use mcy_base::Text;
use mcy_outside::SourceFiles;
use project_file::{Project, TestKind, TestPlan, read_project};
use std::alloc::Global;
use std::io;

/// The project file, and how long it may be.
const PROJECT: &str = "config.mcy";

const MAX: u32 = 1_048_576;

/// The tag of the changes that no bench noticed, as it is usual.
const GAP: &str = "UNCOVERED";

/// The bit of HANG among the words that are expected.
const HANG_BIT: u32 = 4;

/// The project, as its file is now; none where that is not read, or is none.
pub(crate) fn project_of<F: SourceFiles>(alloc: Global, files: &mut F) -> Option<Project> {
    let bytes = files.read(PROJECT, MAX).ok()?;
    read_project(alloc, &bytes).ok()
}

/// The number of the tag with this name, from 0.
fn tag_number(tags: &[Text], name: &str) -> Option<usize> {
    tags.iter().position(|tag| tag.as_str() == name)
}

/// Whether it is a simulation.
fn is_sim(test: &TestPlan) -> bool {
    matches!(test.kind, TestKind::Sim { .. })
}

/// Whether HANG is a word that it may give and does not expect.
fn refuses_hang(test: &TestPlan) -> bool {
    is_sim(test) && test.expect & HANG_BIT == 0
}

/// The bits of the tests that refuse HANG.
fn hang_bits(tests: &[TestPlan]) -> u16 {
    let mut bits = 0;
    for (number, test) in tests.iter().enumerate() {
        if refuses_hang(test) {
            bits |= test_bit(number);
        }
    }
    bits
}

/// Tells how many changes no bench noticed.
fn tell_gap<R: Eprint>(rt: &R, project: &Project, marks: &Marks) -> io::Result<()> {
    let count = match tag_number(project.tags.as_slice(), GAP) {
        Some(tag) => marks.tagged(tag),
        None => 0,
    };
    if count == 0 {
        return Ok(());
    }
    eprint!(rt; "mcy: {count} {GAP}: mcy list | grep {GAP}\n")
}

/// Tells how many mutations have no tag since a bench came to no end under them.
fn tell_lost<R: Eprint>(rt: &R, project: &Project, marks: &Marks) -> io::Result<()> {
    let count = marks.lost(hang_bits(project.tests.as_slice()));
    if count == 0 {
        return Ok(());
    }
    eprint!(rt; "mcy: {count} HANG have no tag: write HANG into expect, or leave expect out\n")
}

/// Tells which bench passed no mutant, since the design itself may not pass it either.
fn tell_passless<R: Eprint>(rt: &R, project: &Project, marks: &Marks) -> io::Result<()> {
    for (number, test) in project.tests.as_slice().iter().enumerate() {
        if is_sim(test) && marks.has_no_pass(number) {
            let name = test.name.as_str();
            eprint!(rt;
                "mcy: {name}: PASS 0: mcy baseline tells whether the design itself passes it\n"
            )?;
        }
    }
    Ok(())
}

/// Tells what the words and tags of a campaign ask for.
pub(crate) fn tell_project<R: Eprint>(rt: &R, project: &Project, marks: &Marks) -> io::Result<()> {
    tell_gap(rt, project, marks)?;
    tell_lost(rt, project, marks)?;
    if marks.unfinished() == 0 {
        tell_passless(rt, project, marks)?;
    }
    Ok(())
}

/// Tells how many mutations are not finished.
pub(crate) fn tell_unfinished<R: Eprint>(rt: &R, marks: &Marks) -> io::Result<()> {
    match marks.unfinished() {
        0 => Ok(()),
        count => eprint!(rt; "mcy: {count} unfinished: mcy run goes on with them\n"),
    }
}

/// Tells how many tests are UNKNOWN, and which retry asks them again. In a book of the first format no row tells of a bound.
pub(crate) fn tell_unknown<R: Eprint>(rt: &R, marks: &Marks) -> io::Result<()> {
    let count = marks.unknown();
    if count == 0 {
        return Ok(());
    }
    match marks.next_limit() {
        None => Ok(()),
        Some(_) if !marks.has_bound() => eprint!(rt;
            "mcy: {count} UNKNOWN: run --retry N asks again, with N above the project's conflicts\n"
        ),
        Some(limit) => eprint!(rt; "mcy: {count} UNKNOWN: run --retry {limit} asks again\n"),
    }
}
