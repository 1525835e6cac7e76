//! Elaborates sources, and runs their netlists.
mod netlist;
mod refusals;
mod runs;

use anyhow::{Result, bail};
use case_lines::Page;
use case_sources::modules_of;
use cycle_sim::Sim;
use elab_hier::elaborate;
use netlist::put_netlist;
use netlist_core::Netlist;
use refusals::put_error;
use runs::{inputs_of, put_outputs};
use std::alloc::Global;

/// The netlist of a source; where it is refused, that is put on the page.
fn netlist_of(alloc: Global, page: &mut Page, text: &str, top: &str) -> Result<Option<Netlist>> {
    let modules = modules_of(alloc, text)?;
    match elaborate(alloc, modules.as_slice(), top) {
        Ok(netlist) => Ok(Some(netlist)),
        Err(error) => {
            put_error(page, &error);
            Ok(None)
        }
    }
}

/// The simulator of a source's netlist, if it has one. The netlist is put on the page where it is asked for.
pub(crate) fn sim_of(
    alloc: Global,
    page: &mut Page,
    text: &str,
    top: &str,
    is_told: bool,
) -> Result<Option<Sim>> {
    match netlist_of(alloc, page, text, top)? {
        Some(netlist) => {
            if is_told {
                put_netlist(page, &netlist);
            }
            Ok(Some(Sim::new(alloc, netlist)?))
        }
        None => Ok(None),
    }
}

/// Settles the nets, puts the outputs, and gives each register its D.
pub(crate) fn step(alloc: Global, page: &mut Page, sim: &mut Sim, numbers: &str) -> Result<()> {
    let ports = sim.netlist().raw().inputs.as_slice();
    let inputs = inputs_of(alloc, ports, numbers)?;
    if !sim.takes(inputs.as_slice()) {
        bail!("other inputs");
    }
    sim.settle(inputs.as_slice());
    put_outputs(page, sim);
    sim.clock();
    Ok(())
}
