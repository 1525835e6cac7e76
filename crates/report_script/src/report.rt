//! Reports.
use mcy_base::Items;
use report_lines::{Expr, Format};
use tree_parts::Listed;

/// A statement. `pass` says nothing and is none.
#[cycle(statement)]
#[derive(Drop)]
pub enum Statement {
    /// `print`, with its line, the formats of its text, and as many values as they take.
    Print(u32, Items<Format>, Listed<Expr>),
    /// The arms of `if` and of each `elif`, and the statements of `else`.
    If(Listed<Arm>, Listed<Statement>),
}

/// A condition with its line, and the statements that it guards.
#[cycle(statement)]
#[derive(Drop)]
pub struct Arm {
    pub line: u32,
    pub condition: Expr,
    pub body: Listed<Statement>,
}

/// A report. Tags stand in it by their places among those of the project.
#[derive(Drop)]
pub struct Report {
    pub statements: Listed<Statement>,
}
