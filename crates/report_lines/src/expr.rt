//! Expressions of a report.
use tree_parts::{Boxed, Listed};

/// An operator between two values.
#[derive(Clone, Copy, Debug, PartialEq, Eq)]
pub enum Operator {
    Or,
    And,
    Equal,
    NotEqual,
    Less,
    LessEqual,
    Greater,
    GreaterEqual,
    Plus,
    Minus,
    Times,
    Over,
}

/// An expression.
#[cycle(expr)]
#[derive(Drop)]
pub enum Expr {
    /// A number in millionths. Those above 10^12 are all told as one, since they are out of range alike.
    Number(u64),
    /// How many mutations have a tag, by the tag's place among those of the project, or how many these are where it is none of them.
    Count(usize),
    Not(Boxed<Expr>),
    /// A value, and what is done with it from left to right. There are one or more terms.
    Chain(Boxed<Expr>, Listed<Term>),
}

/// An operator and its right operand.
#[cycle(expr)]
#[derive(Drop)]
pub struct Term {
    pub operator: Operator,
    pub operand: Expr,
}
