//! Where a fault of sources is, and what could stand there.
ghost use Rattle.std.specs.Prelude.{◌≡◌};
ghost use Rattle.source_faults.specs.Faults.{bench_place, elab_place, parse_place, token_place};
ghost use Rattle.outcome_hints.specs.Filled.{IsFilled};
ghost use Rattle.outcome_hints.specs.Spots.{source_spot, spot_in, spot_of};

use crate::feature::{bench_hint, design_hint};
use crate::limit::limit_hint;
use crate::told::{Told, at, in_test, nowhere};
use elab_items::ElabError;
use source_faults::SourceFault;
use tb_faults::BenchError;
use vlog_parse::ParseError;
use vlog_token::TokenError;

/// Never told: want of memory is an outcome by itself.
const NO_MEMORY: &str = "there was no memory";

/// What designs and benches share.
const UNKNOWN: &str =
    "nothing of this name is declared in the module, and no file that is read has a module of this name";

const NOT_CONSTANT: &str =
    "a constant stands here: numbers, parameters and what is made of them, and no signal";

const DIVIDE_BY_ZERO: &str = "this divides constants by 0";

const TOO_WIDE: &str = "a vector and an expression have at most 128 bits: make parts of it";

/// For a fault of sources.
pub(crate) fn source_told(fault: &SourceFault) -> Told
    ensures spot { result.spot ≡ source_spot fault.now }
    ensures hint { IsFilled result.hint.now }
{
    match fault {
        SourceFault::NotUtf8(_) => {
            nowhere("a byte of the file belongs to no character: save it as UTF-8")
        }
        SourceFault::Token(error) => token_told(*error),
        SourceFault::Parse(error) => parse_told(*error),
        SourceFault::Elab(error) => elab_told(error),
        SourceFault::Bench(test, error) => bench_told(*test, *error),
        SourceFault::TooMany(kind) => nowhere(limit_hint(*kind)),
        SourceFault::NoSites => nowhere(
            "the lines of only and the instances of skip in config.mcy leave no site: mcy init without them tells how many there are",
        ),
    }
}

/// For a fault of tokens.
fn token_told(error: TokenError) -> Told
    ensures spot { result.spot ≡ spot_of (token_place error) }
    ensures hint { IsFilled result.hint.now }
{
    match error {
        TokenError::BadCharacter(place) => at(
            place,
            "no token begins with this character; in front of ' stands a number alone",
        ),
        TokenError::OpenComment(place) => at(place, "the comment that begins here has no */"),
        TokenError::OpenString(place) => {
            at(
                place,
                "the string that begins here does not end in its line",
            )
        }
        TokenError::BadNumber(place) => at(
            place,
            "a number is digits, or SIZE'b, 'o, 'd or 'h and digits, as 8'hff: no blank within, a size from 1 to 128",
        ),
        TokenError::Memory => nowhere(NO_MEMORY),
    }
}

/// For a fault of directives or trees.
fn parse_told(error: ParseError) -> Told
    ensures spot { result.spot ≡ spot_of (parse_place error) }
    ensures hint { IsFilled result.hint.now }
{
    match error {
        ParseError::Unexpected(place) => at(
            place,
            "nothing that is taken goes on so: look for a missing ; or end in front of it (docs/PROFILE.md has the grammar)",
        ),
        ParseError::Unsupported(place, feature) => at(place, design_hint(feature)),
        ParseError::UnknownMacro(place) => at(
            place,
            "no `define of this name stands above it in this file, and those of other files do not count",
        ),
        ParseError::OpenCondition(place) => {
            at(place, "this `ifdef or `ifndef has no `endif in its file")
        }
        ParseError::TooDeep(place) => at(
            place,
            "at most 200 constructs stand within one another: give a part of it to a wire",
        ),
        ParseError::TooMany(kind) => nowhere(limit_hint(kind)),
        ParseError::Memory => nowhere(NO_MEMORY),
    }
}

/// For a fault of a design.
fn elab_told(error: &ElabError) -> Told
    ensures spot { result.spot ≡ spot_of (elab_place error.now) }
    ensures hint { IsFilled result.hint.now }
{
    match error {
        ElabError::NoTop => {
            nowhere("no module in the files of read_verilog has the name behind -top")
        }
        ElabError::Twice(place) => at(
            *place,
            "the name is declared before, in this scope or as a module of another file",
        ),
        ElabError::Unknown(place) => at(*place, UNKNOWN),
        ElabError::Recursive(place) => at(
            *place,
            "the module has an instance of itself, perhaps within another one",
        ),
        ElabError::PortMismatch(place) => at(
            *place,
            "the module lacks this port, has it already, or has fewer; at an output stands a name, a part of one, or { } of these",
        ),
        ElabError::NotConstant(place) => at(*place, NOT_CONSTANT),
        ElabError::DivideByZero(place) => at(*place, DIVIDE_BY_ZERO),
        ElabError::TooWide(place) => at(*place, TOO_WIDE),
        ElabError::Unsupported(place, feature) => at(*place, design_hint(*feature)),
        ElabError::TwoWriters(place, _) => at(
            *place,
            "an assign, a process or an instance writes it already: let one of them write all of it",
        ),
        ElabError::Latch(place, _) => at(
            *place,
            "on some path through the process it has no value: assign it at the beginning, or in each else and default",
        ),
        ElabError::TooMany(kind) => nowhere(limit_hint(*kind)),
        ElabError::Loop(place) => at(*place, "this leads back to itself without a register"),
        ElabError::Memory => nowhere(NO_MEMORY),
    }
}

/// For a fault of the bench of a test.
fn bench_told(test: u32, error: BenchError) -> Told
    ensures spot { result.spot ≡ spot_in test (bench_place error) }
    ensures hint { IsFilled result.hint.now }
{
    match error {
        BenchError::Unknown(place) => at(place, UNKNOWN),
        BenchError::Twice(place) => at(
            place,
            "the name is declared before, or a second module of this test's files has the bench's name",
        ),
        BenchError::NotConstant(place) => at(place, NOT_CONSTANT),
        BenchError::DivideByZero(place) => at(place, DIVIDE_BY_ZERO),
        BenchError::TooWide(place) => at(place, TOO_WIDE),
        BenchError::Unsupported(place, feature) => at(place, bench_hint(feature)),
        BenchError::NoDesign => in_test(
            test,
            "no file of its `sim` has a module of the name there, or that module has no instance of the design's top",
        ),
        BenchError::PortMismatch(place) => at(
            place,
            "this does not fit the design's ports; at its clock stands the bench's clock alone",
        ),
        BenchError::NoClock => in_test(
            test,
            "its bench has no clock: initial begin clk = 0; forever #5 clk = ~clk; end (a design without one needs an input for it)",
        ),
        BenchError::TwoClocks(place) => at(
            place,
            "a bench has one clock generator: let the other processes wait for its edges",
        ),
        BenchError::Memory => in_test(test, NO_MEMORY),
    }
}
