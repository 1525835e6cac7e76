//! The line that tells a fault of the sources.
ghost use Rattle.std.specs.Prelude.{◌≡◌, IfOk, string_bytes};
ghost use Rattle.source_faults.specs.Lines as texts;

use crate::fault::{SourceError, SourceFault};
use crate::feature::feature_name;
use elab_items::ElabError;
use mcy_base::{Kind, Span};
use std::alloc::{AllocError, Global};
use tb_faults::BenchError;
use vlog_parse::ParseError;
use vlog_token::TokenError;

/// The line of a fault of the sources: the file and the place in it, the name of the fault, and what it is about.
pub fn source_line(alloc: Global, error: &SourceError) -> Result<String, AllocError>
    ensures { IfOk result (λ line. string_bytes line ≡ texts.source_line error.now) }
{
    let file = error.file.as_str();
    match &error.fault {
        SourceFault::NotUtf8(_) => format!(in alloc; "mcy: {file}: NotUtf8\n"),
        SourceFault::Token(error) => token_line(alloc, file, *error),
        SourceFault::Parse(error) => parse_line(alloc, file, *error),
        SourceFault::Elab(error) => elab_line(alloc, file, error),
        SourceFault::Bench(_, error) => bench_line(alloc, file, *error),
        SourceFault::TooMany(kind) => too_many_line(alloc, *kind),
        SourceFault::NoSites => told(alloc, "NoSites"),
    }
}

/// A line of these words.
fn told(alloc: Global, words: &str) -> Result<String, AllocError>
    ensures { IfOk result (λ line. string_bytes line ≡ texts.told words.now) }
{
    format!(in alloc; "mcy: {words}\n")
}

/// A line on a place of a file.
fn line_at(alloc: Global, file: &str, at: Span, word: &str) -> Result<String, AllocError>
    ensures { IfOk result (λ line. string_bytes line ≡ texts.line_at file.now at word.now) }
{
    let (row, col) = (at.line, at.col);
    format!(in alloc; "mcy: {file}:{row}:{col}: {word}\n")
}

/// The same, with what it is about.
fn line_on(
    alloc: Global,
    file: &str,
    at: Span,
    word: &str,
    name: &str,
) -> Result<String, AllocError>
    ensures { IfOk result (λ line. string_bytes line ≡ texts.line_on file.now at word.now name.now) }
{
    let (row, col) = (at.line, at.col);
    format!(in alloc; "mcy: {file}:{row}:{col}: {word} {name}\n")
}

fn too_many_line(alloc: Global, kind: Kind) -> Result<String, AllocError>
    ensures { IfOk result (λ line. string_bytes line ≡ texts.too_many_line kind) }
{
    let kind = kind_name(kind);
    format!(in alloc; "mcy: TooMany {kind}\n")
}

/// The name of what has a limit.
pub fn kind_name(kind: Kind) -> &'static str
    ensures { result.now ≡ texts.kind_name kind }
{
    match kind {
        Kind::Tokens => "Tokens",
        Kind::LoopTurns => "LoopTurns",
        Kind::Cells => "Cells",
        Kind::NetBits => "NetBits",
        Kind::RegisterBits => "RegisterBits",
        Kind::Sites => "Sites",
        Kind::Gates => "Gates",
        Kind::FreeBits => "FreeBits",
        Kind::Scopes => "Scopes",
    }
}

fn token_line(alloc: Global, file: &str, error: TokenError) -> Result<String, AllocError>
    ensures { IfOk result (λ line. string_bytes line ≡ texts.token_line file.now error) }
{
    match error {
        TokenError::BadCharacter(at) => line_at(alloc, file, at, "BadCharacter"),
        TokenError::OpenComment(at) => line_at(alloc, file, at, "OpenComment"),
        TokenError::OpenString(at) => line_at(alloc, file, at, "OpenString"),
        TokenError::BadNumber(at) => line_at(alloc, file, at, "BadNumber"),
        TokenError::Memory => told(alloc, "no memory"),
    }
}

fn parse_line(alloc: Global, file: &str, error: ParseError) -> Result<String, AllocError>
    ensures { IfOk result (λ line. string_bytes line ≡ texts.parse_line file.now error) }
{
    match error {
        ParseError::Unexpected(at) => line_at(alloc, file, at, "Unexpected"),
        ParseError::Unsupported(at, feature) => {
            line_on(alloc, file, at, "Unsupported", feature_name(feature))
        }
        ParseError::UnknownMacro(at) => line_at(alloc, file, at, "UnknownMacro"),
        ParseError::OpenCondition(at) => line_at(alloc, file, at, "OpenCondition"),
        ParseError::TooDeep(at) => line_at(alloc, file, at, "TooDeep"),
        ParseError::TooMany(kind) => too_many_line(alloc, kind),
        ParseError::Memory => told(alloc, "no memory"),
    }
}

fn elab_line(alloc: Global, file: &str, error: &ElabError) -> Result<String, AllocError>
    ensures { IfOk result (λ line. string_bytes line ≡ texts.elab_line file.now error.now) }
{
    match error {
        ElabError::NoTop => told(alloc, "NoTop"),
        ElabError::Twice(at) => line_at(alloc, file, *at, "Twice"),
        ElabError::Unknown(at) => line_at(alloc, file, *at, "Unknown"),
        ElabError::Recursive(at) => line_at(alloc, file, *at, "Recursive"),
        ElabError::PortMismatch(at) => line_at(alloc, file, *at, "PortMismatch"),
        ElabError::NotConstant(at) => line_at(alloc, file, *at, "NotConstant"),
        ElabError::DivideByZero(at) => line_at(alloc, file, *at, "DivideByZero"),
        ElabError::TooWide(at) => line_at(alloc, file, *at, "TooWide"),
        ElabError::Unsupported(at, feature) => {
            line_on(alloc, file, *at, "Unsupported", feature_name(*feature))
        }
        ElabError::TwoWriters(at, name) => {
            line_on(alloc, file, *at, "TwoWriters", name.as_str())
        }
        ElabError::Latch(at, name) => line_on(alloc, file, *at, "Latch", name.as_str()),
        ElabError::TooMany(kind) => too_many_line(alloc, *kind),
        ElabError::Loop(at) => line_at(alloc, file, *at, "Loop"),
        ElabError::Memory => told(alloc, "no memory"),
    }
}

fn bench_line(alloc: Global, file: &str, error: BenchError) -> Result<String, AllocError>
    ensures { IfOk result (λ line. string_bytes line ≡ texts.bench_line file.now error) }
{
    match error {
        BenchError::Unknown(at) => line_at(alloc, file, at, "Unknown"),
        BenchError::Twice(at) => line_at(alloc, file, at, "Twice"),
        BenchError::NotConstant(at) => line_at(alloc, file, at, "NotConstant"),
        BenchError::DivideByZero(at) => line_at(alloc, file, at, "DivideByZero"),
        BenchError::TooWide(at) => line_at(alloc, file, at, "TooWide"),
        BenchError::Unsupported(at, feature) => {
            line_on(alloc, file, at, "Unsupported", feature_name(feature))
        }
        BenchError::NoDesign => told(alloc, "NoDesign"),
        BenchError::PortMismatch(at) => line_at(alloc, file, at, "PortMismatch"),
        BenchError::NoClock => told(alloc, "NoClock"),
        BenchError::TwoClocks(at) => line_at(alloc, file, at, "TwoClocks"),
        BenchError::Memory => told(alloc, "no memory"),
    }
}
