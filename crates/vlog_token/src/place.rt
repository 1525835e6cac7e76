//! Places in a file: lines by the newlines, columns by the bytes of the line, both counted from 1.
ghost use Rattle.std.specs.Prelude.{◌≡◌, ◌<◌, ◌≤◌, ◌+◌, ◌^◌, length};
ghost use Rattle.vlog_token.specs.Places.{next_place, place_moved};

use mcy_base::Span;

/// The place behind these bytes, which begin at a place.
pub fn moved(at: Span, bytes: &[u8]) -> Span
    requires first { 1 ≤ at.col }
    requires line { at.line + length bytes.now < 2 ^ 32 }
    requires col { at.col + length bytes.now < 2 ^ 32 }
    ensures { result ≡ place_moved at bytes.now }
{
    let mut place = at;
    for b in bytes {
        place = next_place(place, *b);
    }
    place
}

fn next_place(at: Span, b: u8) -> Span
    requires line { at.line + 1 < 2 ^ 32 }
    requires col { at.col + 1 < 2 ^ 32 }
    ensures { result ≡ next_place at b }
{
    if b == b'\n' {
        Span {
            file: at.file,
            line: at.line + 1,
            col: 1,
        }
    } else {
        Span {
            file: at.file,
            line: at.line,
            col: at.col + 1,
        }
    }
}
