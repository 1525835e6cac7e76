//! The place behind a file.
ghost use Rattle.std.specs.Prelude.{◌≡◌, ◌+◌, ◌<◌, ◌≤◌, ◌^◌, length};
ghost use Rattle.vlog_token.specs.Places.{next_place, place_after, place_moved};

use mcy_base::Span;

/// The place one past the last of these bytes of the file with this number.
#[tactic(auto, using(crate::proofs::Places::moved_from_first))]
pub(crate) fn end_of(number: u16, bytes: &[u8]) -> Span
    requires { length bytes.now < 2 ^ 31 }
    ensures { result ≡ place_after number bytes.now }
{
    let first = Span {
        file: number,
        line: 1,
        col: 1,
    };
    moved(first, bytes)
}

/// The place behind these bytes, which begin at a place.
fn moved(at: Span, bytes: &[u8]) -> Span
    requires line { at.line + length bytes.now < 2 ^ 32 }
    requires col { at.col + length bytes.now < 2 ^ 32 }
    requires first { 1 ≤ at.col }
    ensures { result ≡ place_moved at bytes.now }
{
    let mut place = at;
    for byte in bytes {
        place = next_place(place, *byte);
    }
    place
}

/// The place one byte on.
fn next_place(at: Span, byte: u8) -> Span
    requires line { at.line + 1 < 2 ^ 32 }
    requires col { at.col + 1 < 2 ^ 32 }
    ensures { result ≡ next_place at byte }
{
    if byte == b'\n' {
        Span {
            file: at.file,
            line: at.line + 1,
            col: 1,
        }
    } else {
        Span {
            file: at.file,
            line: at.line,
            col: at.col + 1,
        }
    }
}
