//! The assignments of nets that the items of a testbench are.
ghost use Rattle.std.specs.Prelude.{◌≡◌, IfOk};
ghost use Rattle.vlog_syntax.specs.declared.expr.Expr.TheVariants as e;
ghost use Rattle.vlog_syntax.specs.declared.left_side.LeftSide.TheVariants as l;
ghost use Rattle.tb_items.specs.Assignments.{assignment_of, name_assigned};

use crate::item::BenchItem;
use std::alloc::{AllocError, Global};
use vlog_syntax::{Assignment, Boxed, Expr, Identifier, LeftSide};

/// `name = value`
fn name_assigned(alloc: Global, name: &Identifier, value: &Expr) -> Result<Assignment, AllocError>
    ensures { IfOk result (λ a. a ≡ name_assigned name.now value.now) }
{
    let value = Boxed::new(alloc, value.copy(alloc)?)?;
    Ok(Assignment {
        left: LeftSide::Name(name.copy(alloc)?),
        span: name.span,
        value,
    })
}

/// `left = name`
fn name_taken(alloc: Global, left: &LeftSide, name: &Identifier) -> Result<Assignment, AllocError>
    ensures { IfOk result (λ a. a ≡ record { left = left.now; span = name.now.span; value = e.Name name.now }) }
{
    let value = Boxed::new(alloc, Expr::Name(name.copy(alloc)?))?;
    Ok(Assignment {
        left: left.copy(alloc)?,
        span: name.span,
        value,
    })
}

/// The same assignment.
fn copied(alloc: Global, assignment: &Assignment) -> Result<Assignment, AllocError>
    ensures { IfOk result (λ a. a ≡ assignment.now) }
{
    let value = Boxed::new(alloc, assignment.value.get().copy(alloc)?)?;
    Ok(Assignment {
        left: assignment.left.copy(alloc)?,
        span: assignment.span,
        value,
    })
}

/// The assignment that an item is, if it is one.
pub fn assignment_of(alloc: Global, item: &BenchItem<'_>) -> Result<Option<Assignment>, AllocError>
    ensures { IfOk result (λ a. a ≡ assignment_of item.now) }
{
    match item {
        BenchItem::Drives(name, value) => Ok(Some(name_assigned(alloc, name.get(), value.get())?)),
        BenchItem::Assigns(assignment) => Ok(Some(copied(alloc, assignment.get())?)),
        BenchItem::Enters(port, value) => Ok(Some(name_assigned(alloc, port, value.get())?)),
        BenchItem::Leaves(port, left) => Ok(Some(name_taken(alloc, left, port)?)),
        _ => Ok(None),
    }
}
