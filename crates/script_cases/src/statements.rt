//! What the statements of a tag script are, each in parentheses, operators first.
use crate::exprs::{push_expr, push_place};
use std::alloc::{AllocError, Global};
use tag_script::{Arm, Statement};

/// Adds the arms of an `if`, each in brackets.
#[cycle(tell_statements)]
fn push_arms(alloc: Global, text: &mut String, arms: &[Arm]) -> Result<(), AllocError> {
    for arm in arms {
        text.push_str(" [")?;
        push_expr(alloc, text, &arm.condition)?;
        text.push_str(" :")?;
        push_statements(alloc, text, arm.body.as_slice())?;
        text.push(']')?;
    }
    Ok(())
}

/// Adds a statement.
#[cycle(tell_statements)]
fn push_statement(
    alloc: Global,
    text: &mut String,
    statement: &Statement,
) -> Result<(), AllocError> {
    match statement {
        Statement::Assign(name, value) => {
            text.push_str(" (set")?;
            push_place(alloc, text, 'n', *name)?;
            push_expr(alloc, text, value)?;
            text.push(')')
        }
        Statement::Tag(tag) => {
            text.push_str(" (tag")?;
            push_place(alloc, text, 'g', *tag)?;
            text.push(')')
        }
        Statement::Assert(line, condition) => {
            let said = format!(in alloc; " (assert {line}")?;
            text.push_str(said.as_str())?;
            push_expr(alloc, text, condition)?;
            text.push(')')
        }
        Statement::If(arms, other) => {
            text.push_str(" (if")?;
            push_arms(alloc, text, arms.as_slice())?;
            text.push_str(" [:")?;
            push_statements(alloc, text, other.as_slice())?;
            text.push_str("])")
        }
    }
}

/// Adds statements.
#[cycle(tell_statements)]
pub(crate) fn push_statements(
    alloc: Global,
    text: &mut String,
    statements: &[Statement],
) -> Result<(), AllocError> {
    for statement in statements {
        push_statement(alloc, text, statement)?;
    }
    Ok(())
}
