//! What the reader takes, and the steps that it gives.
use crate::class::Class;
use crate::rule::Rule;

/// A token as the grammar sees it.
#[derive(Clone, Copy)]
pub struct Token {
    pub class: Class,
    /// Its number among the tokens of the source, from 0.
    pub at: usize,
}

/// A step of reading: a token is taken, or a production is begun, whose parts follow.
#[derive(Clone, Copy)]
pub enum Step {
    Take(Token),
    Begin(Rule),
}
