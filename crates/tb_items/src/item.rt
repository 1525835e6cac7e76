//! What the items of a testbench are.
use crate::generator::Generator;
use flat_scopes::Lent;
use mcy_base::Span;
use tb_faults::BenchFault;
use vlog_syntax::{Assignment, Expr, Identifier, LeftSide, Process};

/// What an item of a testbench is, or a part of one. Of the items of a module they stand in the order of the source.
#[derive(Drop)]
pub enum BenchItem<'a> {
    /// It is refused.
    Refused(BenchFault),
    /// A variable, by its number, and its start value.
    Starts(u32, Lent<'a, Expr>),
    /// A net and its initial value, which it is assigned.
    Drives(Lent<'a, Identifier>, Lent<'a, Expr>),
    /// An assignment of an `assign`.
    Assigns(Lent<'a, Assignment>),
    /// A clock generator, at its first token.
    Clocks(Span, Generator<'a>),
    /// Another process.
    Runs(Lent<'a, Process>),
    /// An instance of the design. Its connections stand behind it.
    Holds(Span),
    /// What is connected to the design's clock where no clock is generated.
    Reads(Lent<'a, Expr>),
    /// The hidden signal of an input, and the value that it is assigned.
    Enters(Identifier, Lent<'a, Expr>),
    /// The hidden signal of an output, and the left side that is assigned it.
    Leaves(Identifier, LeftSide),
}
