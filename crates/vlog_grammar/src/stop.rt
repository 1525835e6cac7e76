//! What the reader gives: the steps that it read, and where and why it stopped.
use crate::step::Step;
use vlog_syntax::Feature;

/// Why tokens are no source text, by the number of a token from 0. The end has the number past the last token.
#[derive(Clone, Copy)]
pub enum Stop {
    /// The first token after which no text of the grammar goes on.
    Unexpected(usize),
    /// The first token of a construct that is refused by name.
    Unsupported(usize, Feature),
}

/// What was read.
#[derive(Drop)]
pub struct Reading {
    /// The steps of the trees, or where reading stopped those up to the last token before.
    pub steps: Vec<Step>,
    /// None where the tokens are a text.
    pub stop: Option<Stop>,
}
