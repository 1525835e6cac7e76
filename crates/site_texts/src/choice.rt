//! Fields that are one of a few words. A blank stands behind each.
ghost use Rattle.std.specs.Prelude.{◌≡◌, ◌≤◌, ◌⊎◌, MatchResult, option_map, slice_get, if◌then◌else◌, decimal, true, false};
ghost use Rattle.site_texts.specs.Choices.{GoesAlong, IsBadField, IsRead, IsSameFront, IsWordOf, is_control, mode_words, place_words, port_words, word_of};

use itoa::Buffer;

/// A field that is one of a few words. Each word has a number below 128.
#[derive(Clone, Copy, Debug, PartialEq, Eq)]
pub(crate) enum Choice {
    /// The name of a mode.
    Mode,
    /// `cell` or `reg`.
    Place,
    /// The name of a port, of a cell or of a register.
    Port { is_cell: bool },
    /// The number of a bit.
    Bit,
    /// The number of the control bit of this bit.
    Control { bit: u8 },
}

/// How far a text goes along with a word and its blank.
#[derive(Clone, Copy, Debug, PartialEq, Eq)]
enum Along {
    /// They stand at its front; the word has this length.
    Whole(usize),
    /// So many bytes are the same.
    Until(usize),
    /// There is no such word.
    NoWord,
}

impl Choice {
    /// The number of the word at the front of the text, and what stands behind its blank; or the first byte after which
    /// none of the words goes on.
    pub(crate) fn read(self, text: &[u8]) -> Result<(u8, &[u8]), usize>
        ensures { MatchResult result (λ found. IsRead self text.now found.0 found.1.now) (IsBadField (IsWordOf self) text.now) }
    {
        let mut longest = 0;
        for number in 0..128u8 {
            match self.along(number, text) {
                Along::Whole(len) => return Ok((number, &text[len + 1..])),
                Along::Until(same) => longest = longer(longest, same),
                Along::NoWord => {}
            }
        }
        Err(longest)
    }

    /// How far the text goes along with the word of this number.
    fn along(self, number: u8, text: &[u8]) -> Along
        ensures { GoesAlong (word_of self number) text.now result }
    {
        match self {
            Choice::Mode => along_some(mode_word(number), text),
            Choice::Place => along_some(place_word(number), text),
            Choice::Port { is_cell } => along_some(port_word(is_cell, number), text),
            Choice::Bit => along_number(number < 128, number, text),
            Choice::Control { bit } => along_number(is_control(bit, number), number, text),
        }
    }
}

fn mode_word(number: u8) -> Option<&'static str>
    ensures { option_map (λ word. word.now) result ≡ slice_get mode_words number }
{
    match number {
        0 => Some("inv"),
        1 => Some("const0"),
        2 => Some("const1"),
        3 => Some("cnot0"),
        4 => Some("cnot1"),
        _ => None,
    }
}

fn place_word(number: u8) -> Option<&'static str>
    ensures { option_map (λ word. word.now) result ≡ slice_get place_words number }
{
    match number {
        0 => Some("cell"),
        1 => Some("reg"),
        _ => None,
    }
}

/// The word of a port, of a cell or of a register.
pub(crate) fn port_word(is_cell: bool, number: u8) -> Option<&'static str>
    ensures { option_map (λ word. word.now) result ≡ slice_get (port_words is_cell) number }
{
    if is_cell {
        cell_port_word(number)
    } else {
        register_port_word(number)
    }
}

fn cell_port_word(number: u8) -> Option<&'static str>
    ensures { option_map (λ word. word.now) result ≡ slice_get (port_words true) number }
{
    match number {
        0 => Some("A"),
        1 => Some("B"),
        2 => Some("S"),
        3 => Some("D"),
        4 => Some("Y"),
        _ => None,
    }
}

fn register_port_word(number: u8) -> Option<&'static str>
    ensures { option_map (λ word. word.now) result ≡ slice_get (port_words false) number }
{
    match number {
        0 => Some("D"),
        1 => Some("Q"),
        _ => None,
    }
}

/// The number may be that of the control bit of this bit: the next one, or 0.
fn is_control(bit: u8, number: u8) -> bool
    ensures { result ≡ is_control bit number }
{
    number < 128 && (u16::from(number) == u16::from(bit) + 1 || (bit > 0 && number == 0))
}

fn along_some(word: Option<&str>, text: &[u8]) -> Along
    ensures { GoesAlong (option_map (λ word. word.now) word.entry) text.now result }
{
    match word {
        Some(word) => along_word(word.as_bytes(), text),
        None => Along::NoWord,
    }
}

/// How far the text goes along with the number in decimal digits, where it is a word.
fn along_number(is_word: bool, number: u8, text: &[u8]) -> Along
    ensures { GoesAlong (if is_word then Some (decimal number) else None) text.now result }
{
    if !is_word {
        return Along::NoWord;
    }
    let mut buffer = Buffer::new();
    along_word(buffer.format(number).as_bytes(), text)
}

fn along_word(word: &[u8], text: &[u8]) -> Along
    ensures { GoesAlong (Some word.now) text.now result }
{
    let same = same_front(word, text);
    if same < word.len() {
        return Along::Until(same);
    }
    if same == text.len() {
        return Along::Until(same);
    }
    if text[same] != b' ' {
        return Along::Until(same);
    }
    Along::Whole(same)
}

/// The greater of two lengths.
fn longer(a: usize, b: usize) -> usize
    ensures first { a ≤ result }
    ensures second { b ≤ result }
    ensures one { (result ≡ a) ⊎ (result ≡ b) }
{
    if a < b { b } else { a }
}

/// How many bytes at the front are the same.
fn same_front(a: &[u8], b: &[u8]) -> usize
    ensures { IsSameFront a.now b.now result }
{
    let mut same = 0;
    while same < a.len() && same < b.len() && a[same] == b[same] {
        same += 1;
    }
    same
}
