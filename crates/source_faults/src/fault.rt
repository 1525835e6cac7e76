//! Faults of sources, with the file that each is in.
ghost use Rattle.std.specs.Prelude.{◌≡◌, IfOk};
ghost use Rattle.source_faults.specs.Faults.{bench_error, bench_place, elab_error, elab_place, error_at, file_at, file_name, no_sites, parse_error, parse_place, read_error, token_place, too_many};

use elab_items::ElabError;
use mcy_base::{Kind, SourceFile, Span, Text};
use source_trees::ReadError;
use std::alloc::{AllocError, Global};
use tb_faults::BenchError;
use vlog_parse::ParseError;
use vlog_token::TokenError;

/// What is wrong with a source. Want of memory and limits of inner faults never stand here.
#[derive(Drop)]
pub enum SourceFault {
    /// The file is no UTF-8 behind so many bytes.
    NotUtf8(u32),
    /// The file has no tokens.
    Token(TokenError),
    /// Its tokens are no modules, or its directives cannot be carried out.
    Parse(ParseError),
    /// The modules are no design.
    Elab(ElabError),
    /// The testbench of the test with this number, from 0 on, is refused.
    Bench(u32, BenchError),
    /// There are more of these than the limit.
    TooMany(Kind),
    /// The project leaves out all sites.
    NoSites,
}

/// What is wrong with the sources, and the name of the file that it is in: that of its place, or the one that is no UTF-8. No
/// file is named where the fault has no place.
#[derive(Drop)]
pub struct SourceError {
    pub file: Text,
    pub fault: SourceFault,
}

/// The place of a fault of tokens.
pub(crate) fn token_place(error: TokenError) -> Option<Span>
    ensures { result ≡ token_place error }
{
    match error {
        TokenError::BadCharacter(at)
        | TokenError::OpenComment(at)
        | TokenError::OpenString(at)
        | TokenError::BadNumber(at) => Some(at),
        TokenError::Memory => None,
    }
}

/// The place of a fault of directives or trees.
pub(crate) fn parse_place(error: ParseError) -> Option<Span>
    ensures { result ≡ parse_place error }
{
    match error {
        ParseError::Unexpected(at)
        | ParseError::Unsupported(at, _)
        | ParseError::UnknownMacro(at)
        | ParseError::OpenCondition(at)
        | ParseError::TooDeep(at) => Some(at),
        ParseError::TooMany(_) | ParseError::Memory => None,
    }
}

/// The place of a fault of a design.
pub(crate) fn elab_place(error: &ElabError) -> Option<Span>
    ensures { result ≡ elab_place error.now }
{
    match error {
        ElabError::Twice(at)
        | ElabError::Unknown(at)
        | ElabError::Recursive(at)
        | ElabError::PortMismatch(at)
        | ElabError::NotConstant(at)
        | ElabError::DivideByZero(at)
        | ElabError::TooWide(at)
        | ElabError::Unsupported(at, _)
        | ElabError::TwoWriters(at, _)
        | ElabError::Latch(at, _)
        | ElabError::Loop(at) => Some(*at),
        ElabError::NoTop | ElabError::TooMany(_) | ElabError::Memory => None,
    }
}

/// The place of a fault of a testbench.
pub(crate) fn bench_place(error: BenchError) -> Option<Span>
    ensures { result ≡ bench_place error }
{
    match error {
        BenchError::Unknown(at)
        | BenchError::Twice(at)
        | BenchError::NotConstant(at)
        | BenchError::DivideByZero(at)
        | BenchError::TooWide(at)
        | BenchError::Unsupported(at, _)
        | BenchError::PortMismatch(at)
        | BenchError::TwoClocks(at) => Some(at),
        BenchError::NoDesign | BenchError::NoClock | BenchError::Memory => None,
    }
}

/// The name of the file with this number, or no name where there is none.
fn file_name(files: &[SourceFile], number: u16) -> &str
    ensures { result.now ≡ file_name files.now number }
{
    match files.get(number as usize) {
        Some(file) => file.name.as_str(),
        None => "",
    }
}

/// The name of the file of a place.
fn file_at(files: &[SourceFile], at: Option<Span>) -> &str
    ensures { result.now ≡ file_at files.now at }
{
    match at {
        Some(at) => file_name(files, at.file),
        None => "",
    }
}

/// The sources have too many of something together.
pub fn too_many(alloc: Global, kind: Kind) -> Result<SourceError, AllocError>
    ensures { IfOk result (λ error. error ≡ too_many kind) }
{
    Ok(SourceError {
        file: Text::copy(alloc, "")?,
        fault: SourceFault::TooMany(kind),
    })
}

/// The project leaves out all sites of the sources.
pub fn no_sites(alloc: Global) -> Result<SourceError, AllocError>
    ensures { IfOk result (λ error. error ≡ no_sites) }
{
    Ok(SourceError {
        file: Text::copy(alloc, "")?,
        fault: SourceFault::NoSites,
    })
}

/// A fault at a place.
fn error_at(
    alloc: Global,
    files: &[SourceFile],
    at: Option<Span>,
    fault: SourceFault,
) -> Result<SourceError, AllocError>
    ensures { IfOk result (λ error. error ≡ error_at files.now at fault) }
{
    Ok(SourceError {
        file: Text::copy(alloc, file_at(files, at))?,
        fault,
    })
}

/// Why tokens of these files are not read.
fn parse_error(
    alloc: Global,
    files: &[SourceFile],
    error: ParseError,
) -> Result<SourceError, AllocError>
    ensures { IfOk result (λ told. told ≡ parse_error files.now error) }
{
    match error {
        ParseError::TooMany(kind) => too_many(alloc, kind),
        ParseError::Memory => Err(AllocError),
        _ => error_at(alloc, files, parse_place(error), SourceFault::Parse(error)),
    }
}

/// Why these files are no modules. Want of memory is told as that.
pub fn read_error(
    alloc: Global,
    files: &[SourceFile],
    error: ReadError,
) -> Result<SourceError, AllocError>
    ensures { IfOk result (λ told. told ≡ read_error files.now error) }
{
    match error {
        ReadError::NotUtf8 { file, len } => Ok(SourceError {
            file: Text::copy(alloc, file_name(files, file))?,
            fault: SourceFault::NotUtf8(len),
        }),
        ReadError::Token(TokenError::Memory) => Err(AllocError),
        ReadError::Token(error) => {
            error_at(alloc, files, token_place(error), SourceFault::Token(error))
        }
        ReadError::Parse(error) => parse_error(alloc, files, error),
        ReadError::Memory => Err(AllocError),
    }
}

/// Why the modules of these files are no design. Want of memory is told as that.
pub fn elab_error(
    alloc: Global,
    files: &[SourceFile],
    error: ElabError,
) -> Result<SourceError, AllocError>
    ensures { IfOk result (λ told. told ≡ elab_error files.now error) }
{
    let at = elab_place(&error);
    match error {
        ElabError::TooMany(kind) => too_many(alloc, kind),
        ElabError::Memory => Err(AllocError),
        _ => error_at(alloc, files, at, SourceFault::Elab(error)),
    }
}

/// Why a module of these files is no testbench of the test with this number. Want of memory is told as that.
pub fn bench_error(
    alloc: Global,
    files: &[SourceFile],
    test: u32,
    error: BenchError,
) -> Result<SourceError, AllocError>
    ensures { IfOk result (λ told. told ≡ bench_error files.now test error) }
{
    match error {
        BenchError::Memory => Err(AllocError),
        _ => error_at(
            alloc,
            files,
            bench_place(error),
            SourceFault::Bench(test, error),
        ),
    }
}
