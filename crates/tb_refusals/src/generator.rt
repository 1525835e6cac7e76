//! What the clock generator is refused for.
ghost use Rattle.vlog_meaning.specs.Scopes.{names_of};
ghost use Rattle.elab_proc.specs.Refusals.{AreSized};
ghost use Rattle.tb_faults.specs.Order.{IsFirst};
ghost use Rattle.tb_refusals.specs.Refusals.{name_faults, first_faults, generator_faults};
ghost use Rattle.tb_refusals.specs.Views.{context_of};

use crate::context::Context;
use crate::start::start_fault;
use mcy_base::Span;
use tb_checks::own_fault;
use tb_faults::{BenchFault, earlier, wrong};
use tb_items::Generator;
use vlog_meaning::{Cause, Decl, Fault};

/// What the name of a clock is refused for.
fn name_fault(at: Span, decl: Option<Decl>) -> Option<BenchFault>
    ensures { IsFirst (name_faults at decl) result }
{
    match decl {
        Some(Decl::Signal { .. }) => None,
        _ => Some(BenchFault::Wrong(Fault {
            cause: Cause::Unknown,
            span: at,
        })),
    }
}

/// What the clock's name and its first value are refused for.
fn first_value_fault(context: Context<'_>, generator: &Generator<'_>) -> Option<BenchFault>
    requires { AreSized (names_of context.scope.now) }
    ensures { IsFirst (first_faults (context_of context.entry) generator.now generator.now.first) result }
{
    let clock = generator.clock.get();
    let decl = context.scope.get(clock.name.as_str());
    match &generator.first {
        None => name_fault(clock.span, decl),
        Some(value) => start_fault(context, true, clock.span, value.get(), decl),
    }
}

/// What a clock generator is refused for.
pub(crate) fn generator_fault(context: Context<'_>, generator: &Generator<'_>) -> Option<BenchFault>
    requires { AreSized (names_of context.scope.now) }
    ensures { IsFirst (generator_faults (context_of context.entry) generator.now) result }
{
    let first = first_value_fault(context, generator);
    let delay = wrong(own_fault(generator.delay.get(), context.scope));
    earlier(first, delay)
}
