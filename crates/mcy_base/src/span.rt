//! Places in the sources.
ghost use Rattle.std.specs.Prelude.{◌≡◌};
ghost use Rattle.mcy_base.specs.Places.{stands_before};

/// A place in a source.
#[derive(Clone, Copy, Debug, PartialEq, Eq)]
pub struct Span {
    /// The file, counted from 0 in the order of reading.
    pub file: u16,
    /// The line, counted from 1.
    pub line: u32,
    /// The byte of the line, counted from 1.
    pub col: u32,
}

impl Span {
    /// Whether it stands before another: by file, line and column.
    pub fn stands_before(self, other: Span) -> bool
        ensures { result ≡ stands_before self other }
    {
        if self.file != other.file {
            self.file < other.file
        } else if self.line != other.line {
            self.line < other.line
        } else {
            self.col < other.col
        }
    }
}
