//! Names: texts in UTF-8 without blanks. A blank stands behind each.
ghost use Rattle.std.specs.Prelude.{◌≡◌, ◌∷◌, ◌++◌, MatchResult};
ghost use Rattle.site_texts.specs.Choices.{IsBadField};
ghost use Rattle.site_texts.specs.Names.{IsFront, IsName};

use crate::character::{Character, first_character};
use std::str::from_utf8;

/// How far a text is UTF-8 without blanks.
#[derive(Clone, Copy, Debug, PartialEq, Eq)]
pub(crate) struct Front {
    /// So many bytes at the front are whole characters.
    pub whole: usize,
    /// After so many bytes no such text goes on, or the text ends.
    pub stop: usize,
}

/// The name at the front of the text, and what stands behind its blank; or the first byte after which no name goes on.
pub(crate) fn read_name(text: &[u8]) -> Result<(&str, &[u8]), usize>
    ensures { MatchResult result (λ found. IsName found.0.now × (text.now ≡ found.0.now ++ 32 ∷ found.1.now)) (IsBadField IsName text.now) }
{
    let front = front_of(text);
    let len = front.whole;
    if len == 0 {
        return Err(front.stop);
    }
    if len < front.stop {
        return Err(front.stop);
    }
    if len == text.len() {
        return Err(front.stop);
    }
    if text[len] != b' ' {
        return Err(front.stop);
    }
    let name = from_utf8(&text[..len]).unwrap();
    Ok((name, &text[len + 1..]))
}

/// The longest front of the text that is UTF-8 without blanks.
pub(crate) fn front_of(text: &[u8]) -> Front
    ensures { IsFront text.now result }
{
    let mut whole = 0;
    while whole < text.len() {
        match first_character(&text[whole..]) {
            Character::Whole(len) => whole += len,
            Character::Cut(at) => {
                return Front {
                    whole,
                    stop: whole + at,
                };
            }
        }
    }
    Front { whole, stop: whole }
}
