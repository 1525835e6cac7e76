//! Bytes by what they may stand for in a script.
ghost use Rattle.std.specs.Prelude.{◌≡◌, ◌≤◌, length};
ghost use Rattle.std.specs.List.{prefix_len};
ghost use Rattle.project_lines.specs.Lines.{from_word};
ghost use Rattle.script_lines.specs.Classes.{is_in, is_inside};

use project_lines::{is_blank, is_digit, is_name_byte};

/// What a run of bytes is made of.
#[derive(Clone, Copy)]
pub enum Class {
    Blank,
    /// A letter, a digit or `_`.
    NameByte,
    Digit,
    /// What stands between these quotes.
    Inside(u8),
}

/// A byte between these quotes: another one, and no backslash.
#[tactic(auto, unfolding(crate::specs::Classes::is_inside))]
fn is_inside(quote: u8, byte: u8) -> bool
    ensures { result ≡ is_inside quote byte }
{
    byte != quote && byte != b'\\'
}

/// Whether the byte is of the class.
#[tactic(auto, unfolding(crate::specs::Classes::is_in))]
pub fn is_in(class: Class, byte: u8) -> bool
    ensures { result ≡ is_in class byte }
{
    match class {
        Class::Blank => is_blank(byte),
        Class::NameByte => is_name_byte(byte),
        Class::Digit => is_digit(byte),
        Class::Inside(quote) => is_inside(quote, byte),
    }
}

/// How many bytes in front are of the class.
pub fn run_len(class: Class, text: &[u8]) -> usize
    ensures value { result ≡ prefix_len (is_in class) text.now }
    ensures shorter { result ≤ length text.now }
{
    for (i, byte) in text.iter().enumerate() {
        if !is_in(class, *byte) {
            return i;
        }
    }
    text.len()
}

/// The text without the blanks in front.
#[tactic(auto, using(crate::proofs::Tokenizing::from_word_is))]
pub fn from_word(text: &[u8]) -> &[u8]
    ensures value { result.now ≡ from_word text.now }
    ensures shorter { length result.now ≤ length text.now }
{
    &text[run_len(Class::Blank, text)..]
}
