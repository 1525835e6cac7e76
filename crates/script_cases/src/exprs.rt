//! Expressions of tag scripts, in parentheses, operators first.
use crate::texts::push_bytes;
use std::alloc::{AllocError, Global};
use tag_lines::{Comparison, Expr};

/// Adds a letter and a number behind a blank.
pub(crate) fn push_place(
    alloc: Global,
    text: &mut String,
    letter: char,
    place: usize,
) -> Result<(), AllocError> {
    let said = format!(in alloc; " {letter}{place}")?;
    text.push_str(said.as_str())
}

/// Adds an expression behind a blank: `n` stands before a name's place, `w` before a test's, `t:` before a text.
#[cycle(tell)]
pub(crate) fn push_expr(alloc: Global, text: &mut String, expr: &Expr) -> Result<(), AllocError> {
    match expr {
        Expr::Number(number) => {
            let said = format!(in alloc; " {number}")?;
            text.push_str(said.as_str())
        }
        Expr::Text(quoted) => {
            text.push_str(" t:")?;
            push_bytes(text, quoted.as_slice())
        }
        Expr::Name(name) => push_place(alloc, text, 'n', *name),
        Expr::Word(test) => push_place(alloc, text, 'w', *test),
        Expr::Not(operand) => {
            text.push_str(" (not")?;
            push_expr(alloc, text, operand.get())?;
            text.push(')')
        }
        Expr::Compare(left, operator, right) => {
            text.push_str(match operator {
                Comparison::Equal => " (==",
                Comparison::NotEqual => " (!=",
            })?;
            push_expr(alloc, text, left.get())?;
            push_expr(alloc, text, right.get())?;
            text.push(')')
        }
        Expr::And(operands) => {
            text.push_str(" (and")?;
            push_exprs(alloc, text, operands.as_slice())
        }
        Expr::Or(operands) => {
            text.push_str(" (or")?;
            push_exprs(alloc, text, operands.as_slice())
        }
    }
}

/// Adds operands and the end of their parentheses.
#[cycle(tell)]
fn push_exprs(alloc: Global, text: &mut String, exprs: &[Expr]) -> Result<(), AllocError> {
    for expr in exprs {
        push_expr(alloc, text, expr)?;
    }
    text.push(')')
}
