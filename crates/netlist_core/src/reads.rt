//! Which cells each cell reads.
ghost use Rattle.std.specs.Prelude.{◌≡◌, ◌++◌, ℕ, List, IfOk, OnOk, map};
ghost use Rattle.netlist_core.specs.Marking.{driver_at};
ghost use Rattle.netlist_core.specs.Sources.{with_source, sources, sources_at, all_sources};

use crate::bit::{Bit, BitList};
use crate::cell::{Cell, input_ports};
use crate::drivers::{Driver, driver_of};
use std::alloc::{AllocError, Global};

/// Adds the cell that drives, if one does.
fn add_source(driver: Driver, found: &mut Vec<usize>) -> Result<(), AllocError>
    ensures { OnOk result ((rest : List ℕ) → found.new.items ++ rest ≡ found.old.items ++ with_source driver rest) }
{
    match driver {
        Driver::Cell(c) => found.push(c as usize)?,
        Driver::Nothing | Driver::Source => {}
    }
    Ok(())
}

/// Adds the cells that drive bits.
fn add_sources(table: &[Driver], bits: &[Bit], found: &mut Vec<usize>) -> Result<(), AllocError>
    ensures { OnOk result (found.new.items ≡ found.old.items ++ sources (driver_at table.now) bits.now) }
{
    for bit in bits {
        if let Bit::Net(net) = *bit {
            add_source(driver_of(table, net), found)?;
        }
    }
    Ok(())
}

/// The cells that drive the bits at ports.
fn sources_at(alloc: Global, table: &[Driver], ports: &[BitList]) -> Result<Vec<usize>, AllocError>
    ensures { IfOk result (λ v. v.items ≡ sources_at (driver_at table.now) ports.now) }
{
    let mut found = Vec::new(alloc);
    for port in ports {
        add_sources(table, port.as_slice(), &mut found)?;
    }
    Ok(found)
}

/// For each cell the cells that it reads, one for each bit that it reads of them.
pub(crate) fn all_sources(
    alloc: Global,
    table: &[Driver],
    cells: &[Cell],
) -> Result<Vec<Vec<usize>>, AllocError>
    ensures { IfOk result (λ v. map (λ w. w.items) v.items ≡ all_sources (driver_at table.now) cells.now) }
{
    let mut lists = Vec::new(alloc);
    for cell in cells {
        lists.push(sources_at(alloc, table, input_ports(cell.ports.as_slice()))?)?;
    }
    Ok(lists)
}
