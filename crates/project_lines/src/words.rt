//! Words: names, and what is asked of a list of words.
ghost use Rattle.std.specs.Prelude.{◌≡◌, IfOk, map};
ghost use Rattle.std.specs.List.{list_all};
ghost use Rattle.project_lines.specs.Words.{is_among, is_name, is_name_byte, is_name_start};

use mcy_base::{Text, TextList};
use std::alloc::{AllocError, Global};

/// A letter or `_`.
#[tactic(auto, unfolding(crate::specs::Words::is_name_start))]
pub fn is_name_start(byte: u8) -> bool
    ensures { result ≡ is_name_start byte }
{
    (65 <= byte && byte <= 90) || (97 <= byte && byte <= 122) || byte == b'_'
}

/// A letter, a digit or `_`.
#[tactic(auto, unfolding(crate::specs::Words::is_name_byte))]
pub fn is_name_byte(byte: u8) -> bool
    ensures { result ≡ is_name_byte byte }
{
    is_name_start(byte) || (48 <= byte && byte <= 57)
}

/// A letter or `_`, then letters, digits and `_`.
#[tactic(auto, unfolding(crate::specs::Words::is_name))]
pub fn is_name(word: &str) -> bool
    ensures { result ≡ is_name word.now }
{
    match word.as_bytes() {
        [first, rest @ ..] => is_name_start(*first) && are_name_bytes(rest),
        [] => false,
    }
}

fn are_name_bytes(bytes: &[u8]) -> bool
    ensures { result ≡ list_all is_name_byte bytes.now }
{
    bytes.iter().all(|byte| is_name_byte(*byte))
}

/// Whether each word is a name.
pub fn are_names(words: &[&str]) -> bool
    ensures { result ≡ list_all is_name (map (λ word. word.now) words.now) }
{
    words.iter().all(|word| is_name(word))
}

/// Whether the word stands in the list.
pub fn is_among(word: &str, words: &[&str]) -> bool
    ensures { result ≡ is_among word.now (map (λ other. other.now) words.now) }
{
    words.iter().any(|other| *other == word)
}

/// The texts of the words.
pub fn texts_of(alloc: Global, words: &[&str]) -> Result<TextList, AllocError>
    ensures { IfOk result (λ texts. texts ≡ map (λ word. word.now) words.now) }
{
    let mut texts = TextList::from_vec(Vec::new(alloc));
    for word in words {
        texts.push(Text::copy(alloc, word)?)?;
    }
    Ok(texts)
}
