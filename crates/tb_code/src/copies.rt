//! Copies of the parts of statements that nodes hold.
ghost use Rattle.std.specs.Prelude.{◌≡◌, IfOk};

use mcy_base::Bytes;
use std::alloc::{AllocError, Global};
use vlog_syntax::{Argument, Assignment, Boxed, Expr, Listed};

/// The same expressions.
pub(crate) fn copy_exprs(alloc: Global, exprs: &[Expr]) -> Result<Listed<Expr>, AllocError>
    ensures { IfOk result (λ l. l ≡ exprs.now) }
{
    let mut copies = Listed::from_vec(Vec::new(alloc));
    for expr in exprs {
        copies.push(expr.copy(alloc)?)?;
    }
    Ok(copies)
}

/// The same assignment.
pub(crate) fn copy_assignment(
    alloc: Global,
    assignment: &Assignment,
) -> Result<Assignment, AllocError>
    ensures { IfOk result (λ a. a ≡ assignment.now) }
{
    Ok(Assignment {
        left: assignment.left.copy(alloc)?,
        span: assignment.span,
        value: Boxed::new(alloc, assignment.value.get().copy(alloc)?)?,
    })
}

/// The same argument of a system task.
fn copy_argument(alloc: Global, argument: &Argument) -> Result<Argument, AllocError>
    ensures { IfOk result (λ a. a ≡ argument.now) }
{
    match argument {
        Argument::String(text, span) => {
            Ok(Argument::String(Bytes::copy(alloc, text.as_slice())?, *span))
        }
        Argument::Expr(expr) => {
            let copy = Boxed::new(alloc, expr.get().copy(alloc)?)?;
            Ok(Argument::Expr(copy))
        }
    }
}

/// The same arguments.
pub(crate) fn copy_arguments(
    alloc: Global,
    arguments: &[Argument],
) -> Result<Listed<Argument>, AllocError>
    ensures { IfOk result (λ l. l ≡ arguments.now) }
{
    let mut copies = Listed::from_vec(Vec::new(alloc));
    for argument in arguments {
        copies.push(copy_argument(alloc, argument)?)?;
    }
    Ok(copies)
}
