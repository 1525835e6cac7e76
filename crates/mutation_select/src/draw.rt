//! Draws, and the order in which they are taken.
/// A draw with its rank. Draws are taken by rank, word and number.
#[derive(Clone, Copy, Debug, PartialEq, Eq, PartialOrd, Ord)]
pub struct Draw {
    pub rank: u32,
    pub word: u64,
    pub number: u32,
}
