//! The numbers that words say.
ghost use Rattle.std.specs.Prelude.{◌≡◌, IfOk, map};
ghost use Rattle.std.specs.Char.{is_ascii_digit};
ghost use Rattle.std.specs.List.{list_all};
ghost use Rattle.command_words.specs.Commands.{all_said, cells_number, jobs_number, mutation_number, mutation_numbers, retry_limit, seed_number, small_number, stop_number};

use crate::asked::MutationNumbers;
use result_book::is_limit;
use std::alloc::{AllocError, Global};

/// The most tests that a run may have under way at once.
const MAX_JOBS: u32 = 64;

/// The most tests after which a run may be told to stop.
const MAX_STOP: u32 = 1_000_000;

/// The most cells that a made project may have.
const MAX_CELLS: u32 = 400;

/// The most mutations of a campaign.
const MAX_MUTATIONS: u32 = 10_000;

/// The most digits in which a number may be written, leading zeros among them.
const MAX_DIGITS: usize = 10;

/// The number of tests that may be under way at once by this word, if it says one.
pub(crate) fn jobs_number(word: &str) -> Option<u32>
    ensures { result ≡ jobs_number word.now }
{
    let jobs = number(word)?;
    if 1 <= jobs && jobs <= MAX_JOBS {
        Some(jobs)
    } else {
        None
    }
}

/// The number of tests after which the word tells a run to stop, if it says one.
pub(crate) fn stop_number(word: &str) -> Option<u32>
    ensures { result ≡ stop_number word.now }
{
    let count = number(word)?;
    if 1 <= count && count <= MAX_STOP {
        Some(count)
    } else {
        None
    }
}

/// The limit of a retry that the word says, if it says one.
pub(crate) fn retry_limit(word: &str) -> Option<u32>
    ensures { result ≡ retry_limit word.now }
{
    let limit = number(word)?;
    if is_limit(limit) { Some(limit) } else { None }
}

/// The number of a made project's cells that the word says, if it says one.
pub(crate) fn cells_number(word: &str) -> Option<u32>
    ensures { result ≡ cells_number word.now }
{
    let cells = number(word)?;
    if 1 <= cells && cells <= MAX_CELLS {
        Some(cells)
    } else {
        None
    }
}

/// The number that one to ten digits say, each of which is below 2^64.
pub(crate) fn seed_number(word: &str) -> Option<u64>
    ensures { result ≡ seed_number word.now }
{
    if word.len() > MAX_DIGITS || !are_digits(word) {
        return None;
    }
    match word.parse::<u64>() {
        Ok(number) => Some(number),
        Err(_) => None,
    }
}

/// The number of a mutation that the word says, if it says one.
fn mutation_number(word: &str) -> Option<u32>
    ensures { result ≡ mutation_number word.now }
{
    let mutation = number(word)?;
    if 1 <= mutation && mutation <= MAX_MUTATIONS {
        Some(mutation)
    } else {
        None
    }
}

/// The numbers of mutations that the word says, with a comma between them, if it says such.
pub(crate) fn mutation_numbers(
    alloc: Global,
    word: &str,
) -> Result<Option<MutationNumbers>, AllocError>
    ensures { IfOk result (λ numbers. numbers ≡ mutation_numbers word.now) }
{
    let parts: Vec<&str> = word.split(',').collect(alloc)?;
    all_numbers(alloc, &parts)
}

/// The numbers of mutations that the words say, if each says one.
fn all_numbers(alloc: Global, words: &[&str]) -> Result<Option<MutationNumbers>, AllocError>
    ensures { IfOk result (λ numbers. numbers ≡ all_said (map mutation_number (map (λ word. word.now) words.now))) }
{
    let mut numbers = MutationNumbers::from_vec(Vec::new(alloc));
    for word in words {
        match mutation_number(word) {
            Some(number) => numbers.push(number)?,
            None => return Ok(None),
        }
    }
    Ok(Some(numbers))
}

/// The number that one to ten digits say, if it is below 2^32.
fn number(word: &str) -> Option<u32>
    ensures { result ≡ small_number word.now }
{
    // `parse` alone would take a sign and any number of zeros.
    if word.len() > MAX_DIGITS || !are_digits(word) {
        return None;
    }
    match word.parse::<u32>() {
        Ok(number) => Some(number),
        Err(_) => None,
    }
}

fn are_digits(word: &str) -> bool
    ensures { result ≡ list_all is_ascii_digit word.now }
{
    word.as_bytes().iter().all(|byte| byte.is_ascii_digit())
}
