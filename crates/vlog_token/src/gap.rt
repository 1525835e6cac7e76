//! Comments (IEEE 1364-2005, 3.3).
ghost use Rattle.std.specs.Prelude.{MatchOption};
ghost use Rattle.vlog_token.specs.Pieces.{NoneCloses};
ghost use Rattle.vlog_token.specs.Reading.{IsFirstClose};

/// Where the first `*/` is.
pub fn first_close(bytes: &[u8]) -> Option<usize>
    ensures { MatchOption result (NoneCloses bytes.now) (IsFirstClose bytes.now) }
{
    for slash in 1..bytes.len() {
        if bytes[slash - 1] == b'*' && bytes[slash] == b'/' {
            return Some(slash - 1);
        }
    }
    None
}
