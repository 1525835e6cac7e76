//! What a terminal is told as a campaign begins: which benches do not pass with the design itself.
use mcy_base::Bytes;

/// Who tells it, as a line for each such bench.
pub trait Look {
    /// The lines; nothing where they cannot be told.
    fn lines(&mut self) -> Option<Bytes>;
}
