//! The first fault of the items of a testbench.
ghost use Rattle.std.specs.Prelude.{IfOk};
ghost use Rattle.vlog_meaning.specs.Scopes.{names_of};
ghost use Rattle.elab_proc.specs.Refusals.{AreSized};
ghost use Rattle.tb_refusals.specs.Refusals.{IsFirstIn};
ghost use Rattle.tb_refusals.specs.Views.{context_of};

use crate::check::item_fault;
use crate::context::Context;
use crate::seen::Seen;
use std::alloc::{AllocError, Global};
use tb_faults::BenchFault;
use tb_items::BenchItem;

/// The first fault of the first item that has one.
pub fn first_fault(
    alloc: Global,
    context: Context<'_>,
    items: &[BenchItem<'_>],
) -> Result<Option<BenchFault>, AllocError>
    requires { AreSized (names_of context.scope.now) }
    ensures { IfOk result (λ f. IsFirstIn (context_of context.entry) items.now f) }
{
    let mut seen = Seen::new(alloc, context)?;
    for item in items {
        if let Some(fault) = item_fault(alloc, context, &mut seen, item)? {
            return Ok(Some(fault));
        }
    }
    Ok(None)
}
