//! A text that is printed as a whole, and the places in it.
ghost use Rattle.std.specs.Prelude.{◌<◌, ◌^◌, length, IsTrue};

use mcy_base::Span;
use std::alloc::Global;

/// The place behind the last token.
pub const END: Span = Span {
    file: 0,
    line: 0,
    col: 0,
};

/// The length from which on a text is not cut into tokens.
const TOO_LONG: usize = 1 << 31;

/// Whether a text is short enough to be cut into tokens.
pub fn is_short(text: &str) -> bool
    ensures { IsTrue result → length text.now < 2 ^ 31 }
{
    text.len() < TOO_LONG
}

/// What is to be printed. Where memory is wanting a part is left out.
#[derive(Drop)]
pub struct Page {
    alloc: Global,
    text: String,
    is_whole: bool,
}

impl Page {
    pub fn new(alloc: Global) -> Page {
        Page {
            alloc,
            text: String::new(alloc),
            is_whole: true,
        }
    }

    /// What is printed so far.
    pub fn text(&self) -> &str {
        if self.is_whole {
            self.text.as_str()
        } else {
            "no memory"
        }
    }

    pub fn put(&mut self, part: &str) {
        if self.text.push_str(part).is_err() {
            self.is_whole = false;
        }
    }

    /// A whole line.
    pub fn put_line(&mut self, line: &str) {
        self.put(line);
        self.put("\n");
    }

    pub fn put_number(&mut self, number: u128) {
        match format!(in self.alloc; "{number}") {
            Ok(part) => self.put(part.as_str()),
            Err(_) => self.is_whole = false,
        }
    }

    /// Line and column, or `end` for the place behind the last token.
    pub fn put_place(&mut self, place: Span) {
        if place.line == 0 {
            self.put("end");
        } else {
            self.put_number(place.line.into());
            self.put(":");
            self.put_number(place.col.into());
        }
    }

    /// A word, and a place behind it.
    pub fn put_at(&mut self, word: &str, place: Span) {
        self.put(word);
        self.put(" ");
        self.put_place(place);
    }

    /// A byte, one that controls as its picture.
    pub fn put_byte(&mut self, byte: u8) {
        match byte {
            b'\t' => self.put("␉"),
            b'\n' => self.put("␊"),
            _ => {
                if self.text.push(char::from(byte)).is_err() {
                    self.is_whole = false;
                }
            }
        }
    }
}
