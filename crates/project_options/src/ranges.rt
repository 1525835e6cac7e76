//! Lines of a file, `FILE:FROM-TO`.
ghost use Rattle.std.specs.Prelude.{◌≡◌};
ghost use Rattle.project_lines.specs.Numbers.{is_number};
ghost use Rattle.project_options.specs.Ranges.{back_number, file_part, from_part, front_number, is_range, is_range_within, lines_part, to_part};

use project_lines::{is_one_number, number_within};

/// The greatest number that a line may have.
pub const MAX_LINE: u64 = (1 << 32) - 1;

/// Whether the word is a number.
pub(crate) fn is_number(word: &str) -> bool
    ensures { result ≡ is_number word.now }
{
    is_one_number(&[word])
}

/// What stands before the last `:`, and what stands behind it.
fn split_file(word: &str) -> (&str, &str)
    ensures file { result.0.now ≡ file_part word.now }
    ensures lines { result.1.now ≡ lines_part word.now }
{
    match word.rsplit_once(':') {
        Some((file, lines)) => (file, lines),
        None => ("", word),
    }
}

/// What stands before the first `-`, and what stands behind it.
fn split_numbers(lines: &str) -> (&str, &str)
    ensures front { result.0.now ≡ front_number lines.now }
    ensures back { result.1.now ≡ back_number lines.now }
{
    match lines.split_once('-') {
        Some((front, back)) => (front, back),
        None => (lines, ""),
    }
}

/// The file that the word names.
pub fn file_part(word: &str) -> &str
    ensures { result.now ≡ file_part word.now }
{
    split_file(word).0
}

/// The number of the first line that it names, as it is written.
pub fn from_part(word: &str) -> &str
    ensures { result.now ≡ from_part word.now }
{
    split_numbers(split_file(word).1).0
}

/// The number of the last one.
pub fn to_part(word: &str) -> &str
    ensures { result.now ≡ to_part word.now }
{
    split_numbers(split_file(word).1).1
}

/// Whether the word has the form.
#[tactic(auto, unfolding(crate::specs::Ranges::is_range))]
pub fn is_range(word: &str) -> bool
    ensures { result ≡ is_range word.now }
{
    !file_part(word).is_empty() && is_number(from_part(word)) && is_number(to_part(word))
}

/// Whether its numbers are those of lines, the first not above the second.
#[tactic(auto, unfolding(crate::specs::Ranges::is_range_within))]
pub fn is_range_within(word: &str) -> bool
    ensures { result ≡ is_range_within word.now }
{
    match number_within(1, MAX_LINE, from_part(word)) {
        Some(from) => number_within(from, MAX_LINE, to_part(word)).is_some(),
        None => false,
    }
}
