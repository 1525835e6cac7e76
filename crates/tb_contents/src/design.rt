//! The design of a testbench, from its top module and its netlist.
ghost use Rattle.std.specs.Prelude.{◌≡◌, IfOk};
ghost use Rattle.tb_contents.specs.Designs.{IsDesign};

use flat_scopes::{NameList, ports_of};
use mcy_base::Text;
use netlist_core::Netlist;
use std::alloc::{AllocError, Global};
use tb_items::Design;
use tb_signals::open_alone;
use vlog_syntax::Module;

/// The name of the clock, where there is one.
fn clock_name(alloc: Global, clock: &Option<Text>) -> Result<Option<Text>, AllocError>
    ensures { IfOk result (λ o. o ≡ clock.now) }
{
    match clock {
        Some(clock) => Ok(Some(Text::copy(alloc, clock.as_str())?)),
        None => Ok(None),
    }
}

/// The design that this netlist is of, with this top.
pub fn design_of<'a>(
    alloc: Global,
    top: &'a Module,
    netlist: &Netlist,
) -> Result<Design<'a>, AllocError>
    ensures { IfOk result (IsDesign top.now netlist.now.raw) }
{
    let raw = netlist.raw();
    let ports = ports_of(alloc, &top.ports)?;
    Ok(Design {
        name: Text::copy(alloc, raw.top.as_str())?,
        ports: NameList::of(alloc, ports.as_slice())?,
        clock: clock_name(alloc, &raw.clock)?,
        top: open_alone(alloc, top)?,
    })
}
