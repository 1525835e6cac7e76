//! What has a limit.
/// What there may be too many of.
#[derive(Clone, Copy, Debug, PartialEq, Eq)]
pub enum Kind {
    Tokens,
    LoopTurns,
    Cells,
    NetBits,
    RegisterBits,
    Sites,
    Gates,
    FreeBits,
    Scopes,
}
