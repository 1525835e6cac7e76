//! The names of all rows, with their widths and signs.
use mcy_base::Word;

const NAMES: [(&str, u8, bool); 9] = [
    ("a", 8, false),
    ("b", 8, true),
    ("c", 4, false),
    ("d", 4, true),
    ("e", 16, false),
    ("f", 32, true),
    ("g", 128, false),
    ("h", 1, false),
    ("k", 64, true),
];

/// The value of a name, and whether it is signed.
#[derive(Clone, Copy, Debug, PartialEq, Eq)]
pub struct Given {
    pub value: Word,
    pub is_signed: bool,
}

/// The name in a word `name=value`, with that value at the name's width.
pub fn read_given(word: &str) -> Option<(&str, Given)> {
    let (name, value) = word.split_once('=')?;
    let bits: u128 = value.parse().ok()?;
    for (known, width, is_signed) in NAMES {
        if known == name {
            let value = Word::new(width, bits)?;
            return Some((name, Given { value, is_signed }));
        }
    }
    None
}
