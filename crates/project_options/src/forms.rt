//! The keys of the section `[options]`, and the forms of their words.
ghost use Rattle.std.specs.Prelude.{◌≡◌, map};
ghost use Rattle.std.specs.List.{list_all};
ghost use Rattle.project_lines.specs.Words.{are_all, is_name, is_one};
ghost use Rattle.project_options.specs.Instances.{is_instance};
ghost use Rattle.project_options.specs.Ranges.{is_range};
ghost use Rattle.project_options.specs.Options.{are_once, is_cycles, is_mode, is_on, is_option_form, is_pick, is_requirement, option_key};

use crate::instances::is_instance;
use crate::ranges::{is_number, is_range};
use project_lines::{are_names, is_among, is_name, is_one_number};

/// The keys of options.
#[derive(Clone, Copy)]
pub enum OptionKey {
    Size,
    Tags,
    Seed,
    Modes,
    Pick,
    Conflicts,
    Cycles,
    Baseline,
    Require,
    Only,
    Skip,
}

#[tactic(auto, unfolding(crate::specs::Options::option_key))]
pub(crate) fn option_key(word: &str) -> Option<OptionKey>
    ensures { result ≡ option_key word.now }
{
    match word {
        "size" => Some(OptionKey::Size),
        "tags" => Some(OptionKey::Tags),
        "seed" => Some(OptionKey::Seed),
        "modes" => Some(OptionKey::Modes),
        "pick" => Some(OptionKey::Pick),
        "conflicts" => Some(OptionKey::Conflicts),
        "cycles" => Some(OptionKey::Cycles),
        "baseline" => Some(OptionKey::Baseline),
        "require" => Some(OptionKey::Require),
        "only" => Some(OptionKey::Only),
        "skip" => Some(OptionKey::Skip),
        _ => None,
    }
}

#[tactic(auto, unfolding(crate::specs::Options::is_mode))]
fn is_mode(word: &str) -> bool
    ensures { result ≡ is_mode word.now }
{
    matches!(word, "inv" | "const0" | "const1" | "cnot0" | "cnot1")
}

#[tactic(auto, unfolding(crate::specs::Options::is_pick))]
fn is_pick(word: &str) -> bool
    ensures { result ≡ is_pick word.now }
{
    matches!(word, "plain" | "even")
}

#[tactic(auto, unfolding(crate::specs::Options::is_on))]
fn is_on(word: &str) -> bool
    ensures { result ≡ is_on word.now }
{
    word == "on"
}

fn are_modes(words: &[&str]) -> bool
    ensures { result ≡ list_all is_mode (map (λ word. word.now) words.now) }
{
    words.iter().all(|word| is_mode(word))
}

fn is_tag_form(args: &[&str]) -> bool
    ensures { result ≡ are_all is_name (map (λ word. word.now) args.now) }
{
    !args.is_empty() && are_names(args)
}

fn is_mode_form(args: &[&str]) -> bool
    ensures { result ≡ are_all is_mode (map (λ word. word.now) args.now) }
{
    !args.is_empty() && are_modes(args)
}

fn is_pick_form(args: &[&str]) -> bool
    ensures { result ≡ is_one is_pick (map (λ word. word.now) args.now) }
{
    match args {
        [word] => is_pick(word),
        _ => false,
    }
}

fn is_on_form(args: &[&str]) -> bool
    ensures { result ≡ is_one is_on (map (λ word. word.now) args.now) }
{
    matches!(args, [word] if is_on(word))
}

fn is_cycles_form(args: &[&str]) -> bool
    ensures { result ≡ is_one is_cycles (map (λ word. word.now) args.now) }
{
    match args {
        [word] => *word == "auto" || is_number(word),
        _ => false,
    }
}

/// Whether no word stands there twice.
fn are_once(words: &[&str]) -> bool
    ensures { result ≡ are_once (map (λ word. word.now) words.now) }
{
    for (i, word) in words.iter().enumerate() {
        if is_among(word, &words[i + 1..]) {
            return false;
        }
    }
    true
}

/// Whether the words are a number, a tag, `of` and tags, none of these twice.
fn is_requirement(args: &[&str]) -> bool
    ensures { result ≡ is_requirement (map (λ word. word.now) args.now) }
{
    match args {
        [percent, tag, of, tags @ ..] => {
            let begins = is_number(percent) && is_name(tag) && *of == "of";
            begins && is_tag_form(tags) && are_once(tags)
        }
        _ => false,
    }
}

fn are_ranges(words: &[&str]) -> bool
    ensures { result ≡ list_all is_range (map (λ word. word.now) words.now) }
{
    words.iter().all(|word| is_range(word))
}

fn is_only_form(args: &[&str]) -> bool
    ensures { result ≡ are_all is_range (map (λ word. word.now) args.now) }
{
    !args.is_empty() && are_ranges(args)
}

fn are_instances(words: &[&str]) -> bool
    ensures { result ≡ list_all is_instance (map (λ word. word.now) words.now) }
{
    words.iter().all(|word| is_instance(word))
}

fn is_skip_form(args: &[&str]) -> bool
    ensures { result ≡ are_all is_instance (map (λ word. word.now) args.now) }
{
    !args.is_empty() && are_instances(args)
}

/// Whether the words have the form of the key.
#[tactic(auto, unfolding(crate::specs::Options::is_option_form))]
pub(crate) fn is_option_form(key: OptionKey, args: &[&str]) -> bool
    ensures { result ≡ is_option_form key (map (λ word. word.now) args.now) }
{
    match key {
        OptionKey::Tags => is_tag_form(args),
        OptionKey::Modes => is_mode_form(args),
        OptionKey::Pick => is_pick_form(args),
        OptionKey::Cycles => is_cycles_form(args),
        OptionKey::Baseline => is_on_form(args),
        OptionKey::Require => is_requirement(args),
        OptionKey::Only => is_only_form(args),
        OptionKey::Skip => is_skip_form(args),
        OptionKey::Size | OptionKey::Seed | OptionKey::Conflicts => is_one_number(args),
    }
}
