//! What is asked by the values of options and of the words behind `demo`.
ghost use Rattle.std.specs.Prelude.{◌≡◌, IfOk, option_map};
ghost use Rattle.command_words.specs.Program.{choosing_by, demo_by, retrying_by, run_by, status_by, stopping_by};

use crate::asked::Asked;
use crate::command::Command;
use crate::numbers::{
    cells_number, jobs_number, mutation_numbers, retry_limit, seed_number, stop_number,
};
use std::alloc::{AllocError, Global};

/// The values of the options of `run`.
#[derive(Clone, Copy)]
pub(crate) struct RunValues<'a> {
    pub jobs: Option<&'a str>,
    pub stop_after: Option<&'a str>,
    pub retry: Option<&'a str>,
    pub mutations: Option<&'a str>,
}

/// `run` with what the values of its options say, where each says something. Without the first, one test is under way at once.
pub(crate) fn run_by(alloc: Global, values: RunValues<'_>) -> Result<Option<Asked>, AllocError>
    ensures { IfOk result (λ asked. asked ≡ run_by (option_map (λ word. word.now) values.entry.jobs) (option_map (λ word. word.now) values.entry.stop_after) (option_map (λ word. word.now) values.entry.retry) (option_map (λ word. word.now) values.entry.mutations)) }
{
    match values.jobs {
        Some(word) => match jobs_number(word) {
            Some(jobs) => stopping(alloc, jobs, values),
            None => Ok(None),
        },
        None => stopping(alloc, 1, values),
    }
}

/// `run` with so many tests under way at once, and what the values of its other options say.
fn stopping(alloc: Global, jobs: u32, values: RunValues<'_>) -> Result<Option<Asked>, AllocError>
    ensures { IfOk result (λ asked. asked ≡ stopping_by jobs (option_map (λ word. word.now) values.entry.stop_after) (option_map (λ word. word.now) values.entry.retry) (option_map (λ word. word.now) values.entry.mutations)) }
{
    match values.stop_after {
        Some(word) => match stop_number(word) {
            Some(count) => retrying(alloc, jobs, Some(count), values),
            None => Ok(None),
        },
        None => retrying(alloc, jobs, None, values),
    }
}

/// `run` with these numbers, and what the values of its last two options say.
fn retrying(
    alloc: Global,
    jobs: u32,
    stop_after: Option<u32>,
    values: RunValues<'_>,
) -> Result<Option<Asked>, AllocError>
    ensures { IfOk result (λ asked. asked ≡ retrying_by jobs stop_after (option_map (λ word. word.now) values.entry.retry) (option_map (λ word. word.now) values.entry.mutations)) }
{
    match values.retry {
        Some(word) => match retry_limit(word) {
            Some(limit) => choosing(alloc, jobs, stop_after, Some(limit), values.mutations),
            None => Ok(None),
        },
        None => choosing(alloc, jobs, stop_after, None, values.mutations),
    }
}

/// `run` with these numbers, at the mutations that the value of its last option says.
fn choosing(
    alloc: Global,
    jobs: u32,
    stop_after: Option<u32>,
    retry: Option<u32>,
    mutations: Option<&str>,
) -> Result<Option<Asked>, AllocError>
    ensures { IfOk result (λ asked. asked ≡ choosing_by jobs stop_after retry (option_map (λ word. word.now) mutations.entry)) }
{
    let command = Command::Run {
        jobs,
        stop_after,
        retry,
    };
    let Some(word) = mutations else {
        return Ok(Some(Asked::plainly(alloc, command)));
    };
    match mutation_numbers(alloc, word)? {
        Some(mutations) => Ok(Some(Asked { command, mutations })),
        None => Ok(None),
    }
}

/// `demo` with the numbers that its two words say, where both stand and say one.
pub(crate) fn demo_by(alloc: Global, seed: Option<&str>, cells: Option<&str>) -> Option<Asked>
    ensures { result ≡ demo_by (option_map (λ word. word.now) seed.entry) (option_map (λ word. word.now) cells.entry) }
{
    let seed = seed_number(seed?)?;
    let cells = cells_number(cells?)?;
    Some(Asked::plainly(alloc, Command::Demo { seed, cells }))
}

/// `status`, with the text of its flag: that it was given.
pub(crate) fn status_by(alloc: Global, strict: Option<&str>) -> Asked
    ensures { result ≡ status_by (option_map (λ word. word.now) strict.entry) }
{
    let strict = match strict {
        Some(text) => text == "true",
        None => false,
    };
    Asked::plainly(alloc, Command::Status { strict })
}
