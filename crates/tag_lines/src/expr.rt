//! Expressions of a tag script.
use mcy_base::Bytes;
use tree_parts::{Boxed, Listed};

/// How two values are compared.
#[derive(Clone, Copy, Debug, PartialEq, Eq)]
pub enum Comparison {
    Equal,
    NotEqual,
}

/// An expression.
#[derive(Drop)]
pub enum Expr {
    /// A number below 2^31. True is 1 and False is 0.
    Number(u32),
    Text(Bytes),
    /// The value of a name, by the name's place among those of the script in the order in which it has them.
    Name(usize),
    /// The word of a test, by its place among those of the project, or how many these are where it is none of them.
    Word(usize),
    Not(Boxed<Expr>),
    Compare(Boxed<Expr>, Comparison, Boxed<Expr>),
    /// The first operand that is false, else the last one. There are two or more.
    And(Listed<Expr>),
    /// The first operand that is true, else the last one. There are two or more.
    Or(Listed<Expr>),
}
