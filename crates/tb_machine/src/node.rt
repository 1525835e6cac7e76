//! Statements as a list, in which a statement names its parts by their numbers, and what remains of
//! a process as a stack of such numbers.
//!
//! A `Run` is not tied to its bench by a lifetime, so it names statements by number.
use crate::event::Event;
use mcy_base::Items;
use vlog_syntax::{Argument, Assignment, CaseKind, Expr, Identifier, Listed};

/// Numbers of statements.
pub type Numbers = Items<u32>;

/// An item of a case statement. The default has no labels.
#[derive(Drop)]
pub struct Choice {
    pub labels: Listed<Expr>,
    pub body: u32,
}

/// A statement.
#[derive(Drop)]
pub enum Node {
    /// `;`
    Null,
    /// `begin .. end`
    SeqBlock(Numbers),
    /// `if (condition) yes else no`
    Conditional(Expr, u32, Option<u32>),
    /// `case (selector) .. endcase`
    Case(CaseKind, Expr, Listed<Choice>),
    /// `for (start; condition; step) body`
    For(Assignment, Expr, Assignment, u32),
    /// `while (condition) body`
    While(Expr, u32),
    /// `repeat (count) body`
    Repeat(Expr, u32),
    /// `forever body`
    Forever(u32),
    /// `@(edge) body`
    EventControl(Event, u32),
    /// `$finish;`
    Finish,
    /// `$name(..);`
    SystemTaskEnable(Identifier, Listed<Argument>),
    /// `left = value;`
    Blocking(Assignment),
    /// `left <= value;`
    Nonblocking(Assignment),
}

/// Which assignment of a statement is meant.
#[derive(Clone, Copy, Debug, PartialEq, Eq)]
pub enum Part {
    /// That of an assignment statement.
    Itself,
    /// The start of a `for`.
    Start,
    /// The step of a `for`.
    Step,
}

/// A part of what remains of a process.
#[derive(Clone, Copy, Debug, PartialEq, Eq)]
pub enum Frame {
    /// The statement.
    Do(u32),
    /// The statement, for ever.
    Again(u32),
    /// The `for` or `while` statement before its first test.
    First(u32),
    /// The same after a turn.
    Next(u32),
    /// The statement so many times, before a test.
    Turns(u128, u32),
}

/// A process: what it waits for, and what remains of it. The part that comes next stands last.
#[derive(Drop)]
pub struct Process {
    pub event: Event,
    pub stack: Vec<Frame>,
}
