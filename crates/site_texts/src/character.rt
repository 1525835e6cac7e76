//! One character of a text in UTF-8, byte by byte (Unicode, table 3-7).
ghost use Rattle.std.specs.Prelude.{◌≡◌, ◌<◌, ◌≤◌, length, slice_index};
ghost use Rattle.std.specs.Int.{is_in_range};
ghost use Rattle.std.specs.Str.Lossy.{second_byte_max, second_byte_min};
ghost use Rattle.site_texts.specs.Names.{IsCharacter, is_blank};

/// What stands at the front of a text.
#[derive(Clone, Copy, Debug, PartialEq, Eq)]
pub(crate) enum Character {
    /// A character of so many bytes that is no blank.
    Whole(usize),
    /// After so many bytes no such character goes on, or the text ends.
    Cut(usize),
}

/// The character at the front of the text.
pub(crate) fn first_character(text: &[u8]) -> Character
    requires { 0 < length text.now }
    ensures { IsCharacter text.now result }
{
    let first = text[0];
    if first < 0x80 {
        if is_blank(first) {
            Character::Cut(0)
        } else {
            Character::Whole(1)
        }
    } else if first < 0xC2 {
        Character::Cut(0)
    } else if first < 0xE0 {
        two_bytes(text)
    } else if first < 0xF0 {
        three_bytes(text)
    } else if first < 0xF5 {
        four_bytes(text)
    } else {
        Character::Cut(0)
    }
}

/// Space, tab, newline, carriage return or form feed.
fn is_blank(byte: u8) -> bool
    ensures { result ≡ is_blank byte }
{
    matches!(byte, b' ' | b'\t' | b'\n' | b'\r' | 0x0C)
}

fn two_bytes(text: &[u8]) -> Character
    requires some { 0 < length text.now }
    requires least { 194 ≤ slice_index text.now 0 }
    requires most { slice_index text.now 0 < 224 }
    ensures { IsCharacter text.now result }
{
    if text.len() < 2 {
        return Character::Cut(1);
    }
    if !continues(text[1]) {
        return Character::Cut(1);
    }
    Character::Whole(2)
}

fn three_bytes(text: &[u8]) -> Character
    requires some { 0 < length text.now }
    requires least { 224 ≤ slice_index text.now 0 }
    requires most { slice_index text.now 0 < 240 }
    ensures { IsCharacter text.now result }
{
    if text.len() < 2 {
        return Character::Cut(1);
    }
    if !may_be_second(text[0], text[1]) {
        return Character::Cut(1);
    }
    if text.len() < 3 {
        return Character::Cut(2);
    }
    if !continues(text[2]) {
        return Character::Cut(2);
    }
    Character::Whole(3)
}

fn four_bytes(text: &[u8]) -> Character
    requires some { 0 < length text.now }
    requires least { 240 ≤ slice_index text.now 0 }
    requires most { slice_index text.now 0 < 245 }
    ensures { IsCharacter text.now result }
{
    if text.len() < 2 {
        return Character::Cut(1);
    }
    if !may_be_second(text[0], text[1]) {
        return Character::Cut(1);
    }
    if text.len() < 3 {
        return Character::Cut(2);
    }
    if !continues(text[2]) {
        return Character::Cut(2);
    }
    if text.len() < 4 {
        return Character::Cut(3);
    }
    if !continues(text[3]) {
        return Character::Cut(3);
    }
    Character::Whole(4)
}

/// The byte may stand behind the second one of a character, or behind the first of a character of two bytes.
fn continues(byte: u8) -> bool
    ensures { result ≡ is_in_range 0x80 0xBF byte }
{
    0x80 <= byte && byte <= 0xBF
}

/// The byte may stand behind the first one of a character of three or four bytes.
fn may_be_second(first: u8, byte: u8) -> bool
    ensures { result ≡ is_in_range (second_byte_min first) (second_byte_max first) byte }
{
    let least = match first {
        0xE0 => 0xA0,
        0xF0 => 0x90,
        _ => 0x80,
    };
    let most = match first {
        0xED => 0x9F,
        0xF4 => 0x8F,
        _ => 0xBF,
    };
    least <= byte && byte <= most
}
