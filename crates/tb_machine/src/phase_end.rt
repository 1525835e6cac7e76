//! How phases end.

/// How a phase ends.
#[derive(Clone, Copy, Debug, PartialEq, Eq)]
pub enum PhaseEnd {
    /// All processes wait.
    Going,
    /// `$finish` was reached.
    Finished,
    /// A statement was due after the last one that a phase may have.
    TooLong,
}
