//! The answer of a script to the words that there are.
/// What a script asks for, or how it ended.
#[derive(Clone, Copy, Debug, PartialEq, Eq)]
pub enum Ask {
    /// The word of this test is needed.
    Need(u32),
    /// It ended with these tags, tag i in bit i.
    Done(u32),
    /// The assertion on this line failed.
    AssertFailed(u32),
    /// The word of this test is not one that the project expects.
    Unexpected(u32),
}
