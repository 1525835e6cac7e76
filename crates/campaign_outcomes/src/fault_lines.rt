//! The line that tells a person why a call was refused, or what failed.
ghost use Rattle.std.specs.Prelude.{◌≡◌, IfOk, string_bytes};
ghost use Rattle.campaign_outcomes.specs.FaultLines as texts;

use crate::outcome::Outcome;
use mcy_base::Bytes;
use mcy_keeper::Entry;
use project_file::{ProjectError, What};
use result_book::{BookError, RowFault};
use source_faults::source_line;
use std::alloc::{AllocError, Global};
use tag_script::ScriptError;

/// The line of an outcome, which begins with `mcy: ` and ends in a newline. Where the command was carried out, the
/// text is empty.
pub fn fault_line(alloc: Global, outcome: &Outcome) -> Result<Bytes, AllocError>
    ensures { IfOk result (λ line. line ≡ texts.fault_text outcome.now) }
{
    let line = match outcome {
        Outcome::Done | Outcome::Unfinished(_) => Ok(String::new(alloc)),
        Outcome::Usage => told(
            alloc,
            "usage: mcy init | run [-j N] [--stop-after N] [--retry N] | list | status | source",
        ),
        Outcome::ProjectBad(error) => project_line(alloc, *error),
        Outcome::ScriptBad(error) => script_line(alloc, *error),
        Outcome::SourceBad(error) => source_line(alloc, error),
        Outcome::Missing(name) => file_line(alloc, name.as_str(), "missing"),
        Outcome::TooLarge(name) => file_line(alloc, name.as_str(), "too large"),
        Outcome::NoCampaign => told(alloc, "no campaign"),
        Outcome::AlreadyBegun => told(alloc, "campaign already begun"),
        Outcome::BookBad(error) => book_line(alloc, error),
        Outcome::ReadFault(name) => file_line(alloc, name.as_str(), "read fault"),
        Outcome::KeeperFault => told(alloc, "database fault"),
        Outcome::WriteFault => told(alloc, "write fault"),
        Outcome::Memory => told(alloc, "no memory"),
        Outcome::BaselineBad => told(alloc, "baseline not passed"),
        Outcome::RequirementMissed => told(alloc, "requirement missed"),
        Outcome::NoMutation(number) => mutation_line(alloc, *number),
    };
    Ok(Bytes::from_vec(line?.into_bytes()))
}

/// A line of these words.
fn told(alloc: Global, words: &str) -> Result<String, AllocError>
    ensures { IfOk result (λ line. string_bytes line ≡ texts.told_line words.now) }
{
    format!(in alloc; "mcy: {words}\n")
}

/// The line of a fault of the project file.
fn project_line(alloc: Global, error: ProjectError) -> Result<String, AllocError>
    ensures { IfOk result (λ line. string_bytes line ≡ texts.project_line error) }
{
    match error {
        ProjectError::NotUtf8(len) => in_project_at(alloc, "NotUtf8", len),
        ProjectError::BadLine(number) => at_line(alloc, number, "BadLine"),
        ProjectError::UnknownKey(number) => at_line(alloc, number, "UnknownKey"),
        ProjectError::Repeated(number) => at_line(alloc, number, "Repeated"),
        ProjectError::OutOfRange(number) => at_line(alloc, number, "OutOfRange"),
        ProjectError::UnsupportedCommand(number) => at_line(alloc, number, "UnsupportedCommand"),
        ProjectError::Missing(what) => missing_line(alloc, what),
        ProjectError::Memory => told(alloc, "no memory"),
    }
}

/// The line of a fault of the logic or the report.
fn script_line(alloc: Global, error: ScriptError) -> Result<String, AllocError>
    ensures { IfOk result (λ line. string_bytes line ≡ texts.script_line error) }
{
    match error {
        ScriptError::Indent(number) => at_line(alloc, number, "Indent"),
        ScriptError::Bad(number) => at_line(alloc, number, "Bad"),
        ScriptError::UnknownTest(number) => at_line(alloc, number, "UnknownTest"),
        ScriptError::UnknownTag(number) => at_line(alloc, number, "UnknownTag"),
        ScriptError::Unassigned(number) => at_line(alloc, number, "Unassigned"),
        ScriptError::Memory => told(alloc, "no memory"),
    }
}

/// A line on a line of the project file.
fn at_line(alloc: Global, number: u32, fault: &str) -> Result<String, AllocError>
    ensures { IfOk result (λ line. string_bytes line ≡ texts.at_line number fault.now) }
{
    format!(in alloc; "mcy: config.mcy:{number}: {fault}\n")
}

/// A line on the project file.
fn in_project(alloc: Global, fault: &str) -> Result<String, AllocError>
    ensures { IfOk result (λ line. string_bytes line ≡ texts.in_project fault.now) }
{
    format!(in alloc; "mcy: config.mcy: {fault}\n")
}

/// A line on the project file, with a number behind the fault.
fn in_project_at(alloc: Global, fault: &str, number: u32) -> Result<String, AllocError>
    ensures { IfOk result (λ line. string_bytes line ≡ texts.in_project_at fault.now number) }
{
    format!(in alloc; "mcy: config.mcy: {fault} {number}\n")
}

/// The line of what is missing in the project file.
fn missing_line(alloc: Global, what: What) -> Result<String, AllocError>
    ensures { IfOk result (λ line. string_bytes line ≡ texts.missing_line what) }
{
    match what {
        What::Script => in_project(alloc, "Missing Script"),
        What::Read => in_project(alloc, "Missing Read"),
        What::Top => in_project(alloc, "Missing Top"),
        What::Logic => in_project(alloc, "Missing Logic"),
        What::Kind(test) => in_project_at(alloc, "Missing Kind", test),
        What::Pass(test) => in_project_at(alloc, "Missing Pass", test),
    }
}

/// A line on a file.
fn file_line(alloc: Global, name: &str, matter: &str) -> Result<String, AllocError>
    ensures { IfOk result (λ line. string_bytes line ≡ texts.file_line name.now matter.now) }
{
    format!(in alloc; "mcy: {name}: {matter}\n")
}

/// The line of an error of the book.
fn book_line(alloc: Global, error: &BookError) -> Result<String, AllocError>
    ensures { IfOk result (λ line. string_bytes line ≡ texts.book_line error.now) }
{
    match error {
        BookError::Meta(place, _, _) => place_line(alloc, "meta", *place),
        BookError::Mutation(place, _, _) => place_line(alloc, "mutation", *place),
        BookError::Row(row, fault) => place_line(alloc, "row", row_place(row, *fault)),
        BookError::Stray(_, _) => told(alloc, "database: stray rows"),
        BookError::Memory => told(alloc, "no memory"),
    }
}

/// A line on a part of the database and a place there.
fn place_line(alloc: Global, part: &str, place: u32) -> Result<String, AllocError>
    ensures { IfOk result (λ line. string_bytes line ≡ texts.place_line part.now place) }
{
    format!(in alloc; "mcy: database: {part} {place}\n")
}

/// A line on a number of a mutation.
fn mutation_line(alloc: Global, number: u32) -> Result<String, AllocError>
    ensures { IfOk result (λ line. string_bytes line ≡ texts.mutation_line number) }
{
    format!(in alloc; "mcy: no mutation {number}\n")
}

/// Where a row stands that has a fault: its number says it, if that is not the fault.
fn row_place(row: &Entry, fault: RowFault) -> u32
    ensures { result ≡ texts.row_place row.now fault }
{
    match fault {
        RowFault::Seq(place) => place,
        _ => row.seq,
    }
}
