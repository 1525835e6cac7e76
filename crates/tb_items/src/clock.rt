//! The clock that a testbench generates: that of its first generator.
ghost use Rattle.std.specs.Prelude.{◌≡◌, IfOk};
ghost use Rattle.vlog_meaning.specs.Scopes.{names_of};
ghost use Rattle.tb_items.specs.Items.{listed_clock, step_clock, clock_of};

use crate::generator::{Generator, generator_of};
use flat_scopes::Step;
use mcy_base::Text;
use std::alloc::{AllocError, Global};
use vlog_meaning::Scope;
use vlog_syntax::PlainItem;

/// The generator that an item is.
fn listed_clock<'a>(scope: &Scope, item: &'a PlainItem) -> Option<Generator<'a>>
    ensures { result ≡ listed_clock (names_of scope.now) item.now }
{
    match item {
        PlainItem::Process(process) => generator_of(scope, process),
        _ => None,
    }
}

/// The generator that a step lists.
fn step_clock<'a>(scope: &Scope, step: &Step<'a>) -> Option<Generator<'a>>
    ensures { result ≡ step_clock (names_of scope.now) step.now }
{
    match step {
        Step::Lists(item) => listed_clock(scope, item.get().get()),
        _ => None,
    }
}

/// The name of the clock: that of the first generator.
pub fn clock_of(
    alloc: Global,
    scope: &Scope,
    steps: &[Step<'_>],
) -> Result<Option<Text>, AllocError>
    ensures { IfOk result (λ clock. clock ≡ clock_of (names_of scope.now) steps.now) }
{
    for step in steps {
        if let Some(generator) = step_clock(scope, step) {
            return Ok(Some(Text::copy(alloc, generator.clock.get().name.as_str())?));
        }
    }
    Ok(None)
}
