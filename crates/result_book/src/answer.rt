//! What a test of a mutation answered.

/// A test of a mutation, and its word.
#[derive(Clone, Copy, Debug, PartialEq, Eq)]
pub struct Answer {
    /// The test, counted from 0 in the order of the project.
    pub test: u32,
    /// The code of its word.
    pub word: u32,
}
