//! The statements of a block as far as it was read, and how one line more goes onto them.
//!
//! An `if` is open until a line comes that does not go on it, or `else` has ended it.
ghost use Rattle.std.specs.Prelude.{◌≡◌, IfOk};
ghost use Rattle.report_script.specs.Blocks.{arm_of, closed, is_open, joined, new_draft};

use crate::report::{Arm, Statement};
use report_lines::{Expr, Head};
use std::alloc::{AllocError, Global};
use tree_parts::Listed;

/// Statements, and an `if` behind them where its arms are not empty.
#[derive(Drop)]
pub struct Draft {
    pub done: Listed<Statement>,
    /// The arms of the `if` that is open.
    pub arms: Listed<Arm>,
}

/// No statements yet.
pub fn new_draft(alloc: Global) -> Draft
    ensures { result ≡ new_draft }
{
    Draft {
        done: Listed::from_vec(Vec::new(alloc)),
        arms: Listed::from_vec(Vec::new(alloc)),
    }
}

/// Whether an `if` is open.
pub fn is_open(draft: &Draft) -> bool
    ensures { result ≡ is_open draft.now }
{
    match draft.arms.as_slice() {
        [] => false,
        [_, ..] => true,
    }
}

/// All statements.
pub fn closed(alloc: Global, draft: Draft) -> Result<Listed<Statement>, AllocError>
    ensures { IfOk result (λ all. all ≡ closed draft) }
{
    if !is_open(&draft) {
        return Ok(draft.done);
    }
    let mut done = draft.done;
    let other = Listed::from_vec(Vec::new(alloc));
    done.push(Statement::If(draft.arms, other))?;
    Ok(done)
}

/// An arm with this body.
fn arm_of(alloc: Global, line: u32, condition: Expr, draft: Draft) -> Result<Arm, AllocError>
    ensures { IfOk result (λ arm. arm ≡ arm_of line condition draft) }
{
    Ok(Arm {
        line,
        condition,
        body: closed(alloc, draft)?,
    })
}

/// A draft with what a line says that has this body.
#[tactic(auto, unfolding(crate::specs::Blocks::joined))]
pub fn joined(
    alloc: Global,
    draft: Draft,
    number: u32,
    said: Head,
    inner: Draft,
) -> Result<Draft, AllocError>
    ensures { IfOk result (λ new. new ≡ joined draft number said inner) }
{
    match said {
        Head::If(condition) => {
            let done = closed(alloc, draft)?;
            let mut arms = Listed::from_vec(Vec::new(alloc));
            arms.push(arm_of(alloc, number, condition, inner)?)?;
            Ok(Draft { done, arms })
        }
        Head::Elif(condition) => {
            let mut arms = draft.arms;
            arms.push(arm_of(alloc, number, condition, inner)?)?;
            Ok(Draft {
                done: draft.done,
                arms,
            })
        }
        Head::Else => {
            let mut done = draft.done;
            done.push(Statement::If(draft.arms, closed(alloc, inner)?))?;
            let arms = Listed::from_vec(Vec::new(alloc));
            Ok(Draft { done, arms })
        }
        Head::Print(formats, values) => {
            let mut done = closed(alloc, draft)?;
            done.push(Statement::Print(number, formats, values))?;
            let arms = Listed::from_vec(Vec::new(alloc));
            Ok(Draft { done, arms })
        }
        Head::Pass => {
            let done = closed(alloc, draft)?;
            let arms = Listed::from_vec(Vec::new(alloc));
            Ok(Draft { done, arms })
        }
    }
}
