//! The section `[options]`: the checks of its lines.
ghost use Rattle.std.specs.Prelude.{◌≡◌, ◌<◌, ◌+◌, ◌^◌, [], length, map};
ghost use Rattle.std.specs.List.{list_all};
ghost use Rattle.project_lines.specs.Checks.{Checks, first_fault};
ghost use Rattle.project_lines.specs.Numbers.{is_within};
ghost use Rattle.project_options.specs.Ranges.{is_range_within};
ghost use Rattle.project_lines.specs.Words.{is_among, is_one};
ghost use Rattle.project_options.specs.Options.{are_tags, around_of, has_percent, is_cycles_range, is_of_design, is_option_known, is_option_range, known_option_fault, option_args_fault, option_fault};

use crate::forms::{OptionKey, is_option_form, option_key};
use crate::ranges::{file_part, is_range_within};
use project_lines::{
    Paths, ProjectError, args_of, has_line, is_among, is_said, key_of, number_within,
};
use std::alloc::Global;

/// The most lines of files, and the most instances, that a line may name.
const MAX_PLACES: usize = 64;

/// What the rest of the file says that a line of the section speaks of: the tags, the paths of `[files]`, and the design's files.
#[derive(Drop)]
pub struct Around<'t, 'a> {
    pub tags: &'t [&'a str],
    pub paths: &'t Paths<'a>,
    pub design: &'t [&'a str],
}

fn are_among(words: &[&str], list: &[&str]) -> bool
    ensures { result ≡ list_all (λ word. is_among word (map (λ other. other.now) list.now)) (map (λ word. word.now) words.now) }
{
    words.iter().all(|word| is_among(word, list))
}

/// Whether a requirement speaks of tags that there are.
fn are_tags(around: &Around<'_, '_>, args: &[&str]) -> bool
    ensures { result ≡ are_tags (around_of around.now) (map (λ word. word.now) args.now) }
{
    match args {
        [_, tag, _, tags @ ..] => is_among(tag, around.tags) && are_among(tags, around.tags),
        _ => false,
    }
}

/// Whether the lines of the word are those of a file of the design.
fn is_of_design<'a>(around: &Around<'_, 'a>, word: &'a str) -> bool
    ensures { result ≡ is_of_design (around_of around.now) word.now }
{
    is_among(around.paths.path_of(file_part(word)), around.design)
}

fn are_of_design<'a>(around: &Around<'_, 'a>, words: &[&'a str]) -> bool
    ensures { result ≡ list_all (is_of_design (around_of around.now)) (map (λ word. word.now) words.now) }
{
    for word in words {
        if !is_of_design(around, word) {
            return false;
        }
    }
    true
}

/// Whether the words speak of what there is.
#[tactic(auto, unfolding(crate::specs::Options::is_option_known))]
fn is_option_known<'a>(around: &Around<'_, 'a>, key: OptionKey, args: &[&'a str]) -> bool
    ensures { result ≡ is_option_known (around_of around.now) key (map (λ word. word.now) args.now) }
{
    match key {
        OptionKey::Require => are_tags(around, args),
        OptionKey::Only => are_of_design(around, args),
        _ => true,
    }
}

fn has_cycles_range(args: &[&str]) -> bool
    ensures { result ≡ is_one is_cycles_range (map (λ word. word.now) args.now) }
{
    match args {
        [word] => *word == "auto" || number_within(1, 1_000_000, word).is_some(),
        _ => false,
    }
}

fn has_percent(args: &[&str]) -> bool
    ensures { result ≡ has_percent (map (λ word. word.now) args.now) }
{
    match args {
        [percent, ..] => number_within(1, 100, percent).is_some(),
        [] => false,
    }
}

fn are_within(words: &[&str]) -> bool
    ensures { result ≡ list_all is_range_within (map (λ word. word.now) words.now) }
{
    words.iter().all(|word| is_range_within(word))
}

fn is_one_within(least: u64, most: u64, args: &[&str]) -> bool
    ensures { result ≡ is_one (is_within least most) (map (λ word. word.now) args.now) }
{
    matches!(args, [word] if number_within(least, most, word).is_some())
}

/// Whether their numbers are in range.
#[tactic(auto, unfolding(crate::specs::Options::is_option_range))]
fn is_option_range(key: OptionKey, args: &[&str]) -> bool
    ensures { result ≡ is_option_range key (map (λ word. word.now) args.now) }
{
    match key {
        OptionKey::Size => is_one_within(1, 10_000, args),
        OptionKey::Tags => args.len() <= 32,
        OptionKey::Seed => is_one_within(0, u64::MAX, args),
        OptionKey::Modes | OptionKey::Pick => true,
        OptionKey::Conflicts => is_one_within(1, 100_000, args),
        OptionKey::Cycles => has_cycles_range(args),
        OptionKey::Baseline => true,
        OptionKey::Require => has_percent(args),
        OptionKey::Only => args.len() <= MAX_PLACES && are_within(args),
        OptionKey::Skip => args.len() <= MAX_PLACES,
    }
}

/// Checks a line of this key with these words behind the lines before it.
fn check_args<'a>(
    around: &Around<'_, 'a>,
    key: OptionKey,
    args: &[&'a str],
    earlier: &[&str],
    number: u32,
    line: &str,
) -> Result<(), ProjectError>
    ensures { Checks result (option_args_fault (around_of around.now) key (map (λ word. word.now) args.now) (map (λ line. line.now) earlier.now) number line.now) }
{
    if !is_option_form(key, args) || !is_option_known(around, key, args) {
        return Err(ProjectError::BadLine(number));
    }
    if has_line(key_of(line), earlier) {
        return Err(ProjectError::Repeated(number));
    }
    if !is_option_range(key, args) {
        return Err(ProjectError::OutOfRange(number));
    }
    Ok(())
}

/// Checks a line of this key behind the lines before it.
fn check_known<'a>(
    alloc: Global,
    around: &Around<'_, 'a>,
    key: OptionKey,
    earlier: &[&str],
    number: u32,
    line: &'a str,
) -> Result<(), ProjectError>
    ensures { Checks result (known_option_fault (around_of around.now) key (map (λ line. line.now) earlier.now) number line.now) }
{
    let args = args_of(alloc, line)?;
    check_args(around, key, &args, earlier, number, line)
}

/// Checks a line behind the lines before it.
#[tactic(auto, unfolding(crate::specs::Options::option_fault))]
fn check_option<'a>(
    alloc: Global,
    around: &Around<'_, 'a>,
    earlier: &[&str],
    number: u32,
    line: &'a str,
) -> Result<(), ProjectError>
    ensures { Checks result (option_fault (around_of around.now) (map (λ line. line.now) earlier.now) number line.now) }
{
    if !is_said(line) {
        return Ok(());
    }
    match option_key(key_of(line)) {
        Some(key) => check_known(alloc, around, key, earlier, number, line),
        None => Err(ProjectError::UnknownKey(number)),
    }
}

/// Checks the lines of the section, which are numbered from here on.
pub fn check_options<'a>(
    alloc: Global,
    around: &Around<'_, 'a>,
    number: u32,
    lines: &[&'a str],
) -> Result<(), ProjectError>
    requires { number + length lines.now < 2 ^ 32 }
    ensures { Checks result (first_fault (option_fault (around_of around.now)) [] number (map (λ line. line.now) lines.now)) }
{
    for (i, line) in lines.iter().enumerate() {
        check_option(alloc, around, &lines[..i], number + i as u32, line)?;
    }
    Ok(())
}
