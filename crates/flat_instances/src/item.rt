//! Flattened items: trees with the scopes in which their names are read.
use crate::error::ItemError;
use flat_scopes::Lent;
use vlog_syntax::{Expr, Identifier, LeftSide, Process};

/// A flattened item. Signals and scopes are told by their numbers.
#[derive(Drop)]
pub enum FlatItem<'a> {
    /// A signal is declared here.
    Declares(u32),
    /// A scope, and a left and a right side of an `assign` in it.
    Assigns(u32, Lent<'a, LeftSide>, Lent<'a, Expr>),
    /// A scope, and a net in it with its initial value.
    Drives(u32, Lent<'a, Identifier>, Lent<'a, Expr>),
    /// An input of an instance gets the value of an expression of a scope.
    Enters(u32, u32, Lent<'a, Expr>),
    /// An input of an instance is 0, since nothing is connected to it.
    Open(u32),
    /// A left side of a scope gets the value of an output, which has a name in the scope of its instance.
    Leaves(u32, Lent<'a, Expr>, u32, Lent<'a, Identifier>),
    /// A scope, and an `initial` or `always` in it.
    Runs(u32, Lent<'a, Process>),
    /// A variable, and its start value, which is read in a scope.
    Starts(u32, u32, Lent<'a, Expr>),
    /// The design is refused here.
    Refuses(ItemError),
}
