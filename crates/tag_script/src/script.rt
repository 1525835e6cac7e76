//! Scripts, and why there is none.
ghost use Rattle.std.specs.Prelude.{◌≡◌};

use std::alloc::AllocError;
use tag_lines::Expr;
use tree_parts::Listed;

/// A statement. `pass` says nothing and is none.
#[cycle(statement)]
#[derive(Drop)]
pub enum Statement {
    /// `name = value`, with the name's place.
    Assign(usize, Expr),
    /// `tag("NAME")`, with the tag's place.
    Tag(usize),
    /// `assert condition`, with its line.
    Assert(u32, Expr),
    /// The arms of `if` and of each `elif`, and the statements of `else`.
    If(Listed<Arm>, Listed<Statement>),
}

/// A condition, and the statements that it guards.
#[cycle(statement)]
#[derive(Drop)]
pub struct Arm {
    pub condition: Expr,
    pub body: Listed<Statement>,
}

/// A script. Names, tests and tags stand in it by their places among those of the script or project.
#[derive(Drop)]
pub struct Script {
    pub statements: Listed<Statement>,
}

/// Why lines are no script, with the line.
#[derive(Clone, Copy, Debug, PartialEq, Eq)]
pub enum ScriptError {
    /// A tab in the indentation, or an indentation that fits no block.
    Indent(u32),
    /// The line is in no form of the language, or goes past a limit.
    Bad(u32),
    UnknownTest(u32),
    UnknownTag(u32),
    /// A name that some path of arms reaches unassigned.
    Unassigned(u32),
    /// There was no memory for the script.
    Memory,
}

impl From<AllocError> for ScriptError {
    ghost use Rattle.tag_script.specs.declared.script.ScriptError.TheVariants.{Memory};

    ghost from_gives = { λ _ e. e ≡ Memory };

    fn from(_: AllocError) -> ScriptError {
        ScriptError::Memory
    }
}
