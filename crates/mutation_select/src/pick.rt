//! How sites are selected.
/// By what sites are selected.
#[derive(Clone, Copy, Debug, PartialEq, Eq)]
pub enum Pick {
    /// By their words alone.
    Plain,
    /// First one site of each line of the sources, then a second one of each, and so on; by their words within a line, and
    /// among the lines.
    Even,
}
