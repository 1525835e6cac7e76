//! The values of the section `[options]`: each stands on the line with its key, and else is the default.
ghost use Rattle.std.specs.Prelude.{◌≡◌, ◌≤◌, IfOk, map};
ghost use Rattle.project_lines.specs.Paths.{paths_in};
ghost use Rattle.project_file.specs.Values.{args_in, conflicts_in, cycles_in, flags_of, is_auto_in, is_checked_in, is_even_in, modes_in, number_in, only_in, range_of, requirement_in, requirement_of, seed_in, settings_in, size_in, skip_in, tags_in};

use crate::project::{LineRange, LineRangeList, ModeFlags, Requirement};
use mcy_base::{Text, TextList};
use project_lines::{Paths, args_of, find_line, is_among, number_or, texts_of};
use project_options::{MAX_LINE, file_part, from_part, to_part};
use std::alloc::{AllocError, Global};

/// The words behind a key, or none.
#[tactic(auto, unfolding(crate::specs::Values::args_in))]
pub fn args_in<'a>(alloc: Global, key: &str, lines: &[&'a str]) -> Result<Vec<&'a str>, AllocError>
    ensures { IfOk result (λ args. map (λ word. word.now) args.items ≡ args_in key.now (map (λ line. line.now) lines.now)) }
{
    match find_line(key, lines) {
        Some(line) => args_of(alloc, line),
        None => Ok(Vec::new(alloc)),
    }
}

/// The range of a number, and what it is where no line has it.
#[derive(Clone, Copy)]
struct Limits {
    default: u64,
    least: u64,
    most: u64,
}

/// The number behind a key.
#[tactic(auto, unfolding(crate::specs::Values::number_in))]
fn number_in(alloc: Global, key: &str, limits: Limits, lines: &[&str]) -> Result<u64, AllocError>
    requires { limits.default ≤ limits.most }
    ensures most { IfOk result (λ n. n ≤ limits.most) }
    ensures value { IfOk result (λ n. n ≡ number_in limits.default limits.least limits.most key.now (map (λ line. line.now) lines.now)) }
{
    let args = args_in(alloc, key, lines)?;
    let word = args.first().copied().unwrap_or("");
    Ok(number_or(limits.default, limits.least, limits.most, word))
}

/// The tags.
pub fn tags_in(alloc: Global, lines: &[&str]) -> Result<TextList, AllocError>
    ensures { IfOk result (λ tags. tags ≡ tags_in (map (λ line. line.now) lines.now)) }
{
    texts_of(alloc, &args_in(alloc, "tags", lines)?)
}

/// How many mutations are taken.
fn size_in(alloc: Global, lines: &[&str]) -> Result<u32, AllocError>
    ensures { IfOk result (λ n. n ≡ size_in (map (λ line. line.now) lines.now)) }
{
    let limits = Limits {
        default: 20,
        least: 1,
        most: 10_000,
    };
    Ok(number_in(alloc, "size", limits, lines)? as u32)
}

/// The seed.
fn seed_in(alloc: Global, lines: &[&str]) -> Result<u64, AllocError>
    ensures { IfOk result (λ n. n ≡ seed_in (map (λ line. line.now) lines.now)) }
{
    let limits = Limits {
        default: 1,
        least: 0,
        most: u64::MAX,
    };
    number_in(alloc, "seed", limits, lines)
}

/// The most lemmas of an equivalence test.
fn conflicts_in(alloc: Global, lines: &[&str]) -> Result<u32, AllocError>
    ensures { IfOk result (λ n. n ≡ conflicts_in (map (λ line. line.now) lines.now)) }
{
    let limits = Limits {
        default: 20_000,
        least: 1,
        most: 100_000,
    };
    Ok(number_in(alloc, "conflicts", limits, lines)? as u32)
}

/// The most cycles of a simulation.
fn cycles_in(alloc: Global, lines: &[&str]) -> Result<u32, AllocError>
    ensures { IfOk result (λ n. n ≡ cycles_in (map (λ line. line.now) lines.now)) }
{
    let limits = Limits {
        default: 100_000,
        least: 1,
        most: 1_000_000,
    };
    Ok(number_in(alloc, "cycles", limits, lines)? as u32)
}

/// Whether the cycles are counted from the longest simulation of the design itself.
#[tactic(auto, unfolding(crate::specs::Values::is_auto_in))]
fn is_auto_in(alloc: Global, lines: &[&str]) -> Result<bool, AllocError>
    ensures { IfOk result (λ auto. auto ≡ is_auto_in (map (λ line. line.now) lines.now)) }
{
    Ok(is_among("auto", &args_in(alloc, "cycles", lines)?))
}

/// Whether the benches are given the design itself first.
#[tactic(auto, unfolding(crate::specs::Values::is_checked_in))]
fn is_checked_in(alloc: Global, lines: &[&str]) -> Result<bool, AllocError>
    ensures { IfOk result (λ checked. checked ≡ is_checked_in (map (λ line. line.now) lines.now)) }
{
    Ok(is_among("on", &args_in(alloc, "baseline", lines)?))
}

/// Whether lines are taken evenly.
#[tactic(auto, unfolding(crate::specs::Values::is_even_in))]
fn is_even_in(alloc: Global, lines: &[&str]) -> Result<bool, AllocError>
    ensures { IfOk result (λ even. even ≡ is_even_in (map (λ line. line.now) lines.now)) }
{
    Ok(is_among("even", &args_in(alloc, "pick", lines)?))
}

#[tactic(auto, unfolding(crate::specs::Values::flags_of))]
fn flags_of(words: &[&str]) -> ModeFlags
    ensures { result ≡ flags_of (map (λ word. word.now) words.now) }
{
    if words.is_empty() {
        return ModeFlags {
            inv: true,
            const0: true,
            const1: true,
            cnot0: true,
            cnot1: true,
        };
    }
    ModeFlags {
        inv: is_among("inv", words),
        const0: is_among("const0", words),
        const1: is_among("const1", words),
        cnot0: is_among("cnot0", words),
        cnot1: is_among("cnot1", words),
    }
}

/// The modes.
#[tactic(auto, unfolding(crate::specs::Values::modes_in))]
fn modes_in(alloc: Global, lines: &[&str]) -> Result<ModeFlags, AllocError>
    ensures { IfOk result (λ modes. modes ≡ modes_in (map (λ line. line.now) lines.now)) }
{
    Ok(flags_of(&args_in(alloc, "modes", lines)?))
}

/// What the lines of the section say beside the tags.
#[derive(Clone, Copy)]
pub struct Settings {
    pub size: u32,
    pub word_seed: u64,
    pub modes: ModeFlags,
    pub even: bool,
    pub conflicts: u32,
    pub cycles: u32,
    pub auto_cycles: bool,
    pub baseline: bool,
}

/// What the lines say beside the tags.
pub fn settings_in(alloc: Global, lines: &[&str]) -> Result<Settings, AllocError>
    ensures { IfOk result (λ settings. settings ≡ settings_in (map (λ line. line.now) lines.now)) }
{
    Ok(Settings {
        size: size_in(alloc, lines)?,
        word_seed: seed_in(alloc, lines)?,
        modes: modes_in(alloc, lines)?,
        even: is_even_in(alloc, lines)?,
        conflicts: conflicts_in(alloc, lines)?,
        cycles: cycles_in(alloc, lines)?,
        auto_cycles: is_auto_in(alloc, lines)?,
        baseline: is_checked_in(alloc, lines)?,
    })
}

/// What these words require of the tags.
fn requirement_of(alloc: Global, args: &[&str]) -> Result<Option<Requirement>, AllocError>
    ensures { IfOk result (λ requirement. requirement ≡ requirement_of (map (λ word. word.now) args.now)) }
{
    match args {
        [percent, tag, _, tags @ ..] => Ok(Some(Requirement {
            percent: number_or(100, 1, 100, percent) as u32,
            counted: Text::copy(alloc, tag)?,
            among: texts_of(alloc, tags)?,
        })),
        _ => Ok(None),
    }
}

/// What is required of the tags.
#[tactic(auto, unfolding(crate::specs::Values::requirement_in))]
pub fn requirement_in(alloc: Global, lines: &[&str]) -> Result<Option<Requirement>, AllocError>
    ensures { IfOk result (λ requirement. requirement ≡ requirement_in (map (λ line. line.now) lines.now)) }
{
    requirement_of(alloc, &args_in(alloc, "require", lines)?)
}

/// The lines that a word names.
fn range_of<'a>(alloc: Global, paths: &Paths<'a>, word: &'a str) -> Result<LineRange, AllocError>
    ensures { IfOk result (λ range. range ≡ range_of (paths_in paths.now) word.now) }
{
    Ok(LineRange {
        file: Text::copy(alloc, paths.path_of(file_part(word)))?,
        from: number_or(1, 1, MAX_LINE, from_part(word)) as u32,
        to: number_or(1, 1, MAX_LINE, to_part(word)) as u32,
    })
}

/// The lines that words name.
fn ranges_of<'a>(
    alloc: Global,
    paths: &Paths<'a>,
    words: &[&'a str],
) -> Result<LineRangeList, AllocError>
    ensures { IfOk result (λ ranges. ranges ≡ map (range_of (paths_in paths.now)) (map (λ word. word.now) words.now)) }
{
    let mut ranges = LineRangeList::from_vec(Vec::new(alloc));
    for word in words {
        ranges.push(range_of(alloc, paths, word)?)?;
    }
    Ok(ranges)
}

/// The lines whose sites are taken.
#[tactic(auto, unfolding(crate::specs::Values::only_in))]
pub fn only_in<'a>(
    alloc: Global,
    paths: &Paths<'a>,
    lines: &[&'a str],
) -> Result<LineRangeList, AllocError>
    ensures { IfOk result (λ only. only ≡ only_in (paths_in paths.now) (map (λ line. line.now) lines.now)) }
{
    ranges_of(alloc, paths, &args_in(alloc, "only", lines)?)
}

/// The instances whose sites are left out.
pub fn skip_in(alloc: Global, lines: &[&str]) -> Result<TextList, AllocError>
    ensures { IfOk result (λ skip. skip ≡ skip_in (map (λ line. line.now) lines.now)) }
{
    texts_of(alloc, &args_in(alloc, "skip", lines)?)
}
