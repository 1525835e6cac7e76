//! Reading the words after the program's name: `init`, `list`, `source` or `baseline`, alone; `status`, alone or with `--strict`; `run`
//! with its options, each at most once and in any order: `-j N`, `-jN` or `-j=N`, and `--stop-after`, `--retry` and `--mutations`, each
//! with its value behind it or joined to it with a `=`; or `demo` with two numbers.
ghost use Rattle.std.specs.Prelude.{◌≡◌, IfOk, bytes_eq, codes, map, string_bytes};
ghost use Rattle.std.specs.List.{list_any};
ghost use Rattle.clap.specs.Words.{found_of, rows_of, subcommand_rows_of};
ghost use Rattle.command_words.specs.Commands.{asked_of};
ghost use Rattle.command_words.specs.Program.{asked_by, run_found};

use crate::asked::Asked;
use crate::command::Command;
use crate::program::command_line;
use crate::values::{RunValues, demo_by, run_by, status_by};
use clap::ArgMatches;
use clap::error::ErrorKind;
use std::alloc::{AllocError, Global};

/// What the words ask for, if they ask for something.
pub fn read_words<'a>(alloc: Global, words: &'a [String]) -> Result<Option<Asked>, AllocError>
    ensures { IfOk result (λ asked. asked ≡ asked_of (map string_bytes words.now)) }
{
    // `clap` takes a `--` behind which nothing stands.
    if has_dashes(words) {
        return Ok(None);
    }
    let command: clap::Command<'a> = command_line(alloc)?;
    match command.try_get_matches_from(words) {
        Ok(matches) => matched(alloc, &matches),
        Err(error) => {
            if error.kind() == ErrorKind::OutOfMemory {
                Err(AllocError)
            } else {
                Ok(None)
            }
        }
    }
}

fn has_dashes(words: &[String]) -> bool
    ensures { result ≡ list_any (λ word. bytes_eq (string_bytes word) (codes "--")) words.now }
{
    words.iter().any(|word| word.as_str() == "--")
}

/// What was found of `run`.
fn run_found(alloc: Global, found: &ArgMatches<'_>) -> Result<Option<Asked>, AllocError>
    ensures { IfOk result (λ asked. asked ≡ run_found (rows_of (found_of found.now))) }
{
    let values = RunValues {
        jobs: found.get_str("jobs"),
        stop_after: found.get_str("stop-after"),
        retry: found.get_str("retry"),
        mutations: found.get_str("mutations"),
    };
    run_by(alloc, values)
}

/// What is asked by what `clap` found in the words.
fn matched(alloc: Global, matches: &ArgMatches<'_>) -> Result<Option<Asked>, AllocError>
    ensures { IfOk result (λ asked. asked ≡ asked_by (subcommand_rows_of matches.now)) }
{
    let Some((name, inner)) = matches.subcommand() else {
        return Ok(None);
    };
    match name {
        "init" => Ok(Some(Asked::plainly(alloc, Command::Init))),
        "run" => run_found(alloc, inner),
        "list" => Ok(Some(Asked::plainly(alloc, Command::List))),
        "status" => Ok(Some(status_by(alloc, inner.get_str("strict")))),
        "source" => Ok(Some(Asked::plainly(alloc, Command::Source))),
        "baseline" => Ok(Some(Asked::plainly(alloc, Command::Baseline))),
        "demo" => Ok(demo_by(alloc, inner.get_str("seed"), inner.get_str("cells"))),
        _ => Ok(None),
    }
}
