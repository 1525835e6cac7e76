//! The instances of a testbench: one of the design, without parameters.
ghost use Rattle.std.specs.Prelude.{◌≡◌, ◌++◌, IfOk};
ghost use Rattle.tb_items.specs.Items.{has_values, held, is_strange, placed};

use crate::connection::{add_connections, add_taken};
use crate::design::Design;
use crate::item::BenchItem;
use flat_scopes::Placing;
use mcy_base::Text;
use std::alloc::{AllocError, Global};
use tb_faults::BenchFault;
use vlog_syntax::{Feature, Identifier, ParameterValues};

/// Whether values are given to parameters.
fn has_values(values: &ParameterValues) -> bool
    ensures { result ≡ has_values values.now }
{
    match values {
        ParameterValues::Ordered(values) => !values.as_slice().is_empty(),
        ParameterValues::Named(values) => !values.as_slice().is_empty(),
    }
}

/// Whether instances are of another module, or have parameters.
pub(crate) fn is_strange(design: &Design<'_>, name: &Identifier, values: &ParameterValues) -> bool
    ensures { result ≡ is_strange design.now name.now values.now }
{
    design.name.as_str() != name.name.as_str() || has_values(values)
}

/// Adds an instance of the design: the first of its item with its connections, a further one at its name.
fn add_held<'a>(
    alloc: Global,
    design: &Design<'a>,
    clock: &Option<Text>,
    placing: &Placing<'a>,
    items: &mut Vec<BenchItem<'a>>,
) -> Result<(), AllocError>
    ensures { IfOk result (λ done. items.new.items ≡ items.old.items ++ held design.now clock.now placing.now) }
{
    if placing.is_first {
        items.push(BenchItem::Holds(placing.module_name.get().span))?;
        return add_connections(alloc, design, clock, placing, items);
    }
    add_taken(placing, items)?;
    items.push(BenchItem::Holds(placing.instance.get().name.span))?;
    Ok(())
}

/// Adds an instance.
pub(crate) fn add_instance<'a>(
    alloc: Global,
    design: &Design<'a>,
    clock: &Option<Text>,
    placing: &Placing<'a>,
    items: &mut Vec<BenchItem<'a>>,
) -> Result<(), AllocError>
    ensures { IfOk result (λ done. items.new.items ≡ items.old.items ++ placed design.now clock.now placing.now) }
{
    let name = placing.module_name.get();
    if is_strange(design, name, placing.values.get()) {
        let fault = BenchFault::Unsupported(name.span, Feature::Helper);
        items.push(BenchItem::Refused(fault))?;
        return Ok(());
    }
    add_held(alloc, design, clock, placing, items)
}
