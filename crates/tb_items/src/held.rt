//! The instance of the design in a testbench: the first of its module without parameters.
ghost use Rattle.std.specs.Prelude.{◌≡◌};
ghost use Rattle.tb_items.specs.Items.{placed_instance, step_instance, held_instance};

use crate::design::Design;
use crate::instance::is_strange;
use flat_scopes::{Lent, Placing, Step};
use vlog_syntax::Identifier;

/// The name of an instance, if it is of the design.
fn placed_instance<'a>(design: &Design<'_>, placing: &Placing<'a>) -> Option<Lent<'a, Identifier>>
    ensures { result ≡ placed_instance design.now placing.now }
{
    if is_strange(design, placing.module_name.get(), placing.values.get()) {
        return None;
    }
    Some(Lent::of(&placing.instance.get().name))
}

/// The same of a step.
fn step_instance<'a>(design: &Design<'_>, step: &Step<'a>) -> Option<Lent<'a, Identifier>>
    ensures { result ≡ step_instance design.now step.now }
{
    match step {
        Step::Places(placing) => placed_instance(design, placing),
        _ => None,
    }
}

/// The name of the instance of the design that steps list, if there is one.
pub fn held_instance<'a>(design: &Design<'_>, steps: &[Step<'a>]) -> Option<Lent<'a, Identifier>>
    ensures { result ≡ held_instance design.now steps.now }
{
    for step in steps {
        if let Some(name) = step_instance(design, step) {
            return Some(name);
        }
    }
    None
}
