//! The lines of a file, from its parts between newlines. Only a part before a newline loses a carriage return, and an empty
//! last part is no line.
ghost use Rattle.std.specs.Prelude.{◌≡◌, ◌==◌, ◌+◌, ◌<◌, ◌∷◌, [], IfOk, IfNone, IfSome, length, map};
ghost use Rattle.std.specs.List.{slice_split};
ghost use Rattle.std.specs.Str.Lines.{strip_carriage_return};
ghost use Rattle.source_report.specs.Sources.{lines_from};

use std::alloc::{AllocError, Global};

/// The parts of a text between its newlines.
pub(crate) fn parts_of(alloc: Global, text: &[u8]) -> Result<Vec<&[u8]>, AllocError>
    ensures { IfOk result (λ parts. map (λ part. part.now) parts.items ≡ slice_split (λ byte. byte == 10) text.now) }
{
    text.split(|byte| *byte == b'\n').collect(alloc)
}

/// The part without the carriage return at its end.
fn without_return(part: &[u8]) -> &[u8]
    ensures { result.now ≡ strip_carriage_return part.now }
{
    let len = part.len();
    if len > 0 && part[len - 1] == b'\r' {
        &part[..len - 1]
    } else {
        part
    }
}

/// The line that a part is, or nothing where it is an empty last part.
pub(crate) fn line_at<'a>(parts: &[&'a [u8]], row: usize) -> Option<&'a [u8]>
    requires { row < length parts.now }
    ensures line { IfSome result (λ line. lines_from parts.now row ≡ line.now ∷ lines_from parts.now (row + 1)) }
    ensures none { IfNone result (lines_from parts.now row ≡ []) }
    ensures none_behind { IfNone result (lines_from parts.now (row + 1) ≡ []) }
{
    let part = parts[row];
    if row + 1 < parts.len() {
        Some(without_return(part))
    } else if part.is_empty() {
        None
    } else {
        Some(part)
    }
}
