//! The cells of a netlist as gates, in its order.
ghost use Rattle.std.specs.Prelude.{◌≡◌, ◌≤◌, ◌<◌, IfOk, IfErr, OnOk, Some, length};
ghost use Rattle.netlist_core.specs.Runs.{output_port};
ghost use Rattle.netlist_core.specs.Shapes.{HasShape};
ghost use Rattle.netlist_core.specs.Checked.{AllWide, free_bits};
ghost use Rattle.gate_words.specs.Bits.{Grows};
ghost use Rattle.netlist_core.specs.Below.{AllBelow};
ghost use Rattle.netlist_gates.specs.NetLits.{lits_of, AreWithin};
ghost use Rattle.netlist_gates.specs.Made.{with_cell, with_cells, netlist_made, weight_of};
ghost use Rattle.netlist_gates.specs.Meanings.{Solves};

use crate::free::free_literals;
use crate::lits::{NetLits, lay, rows_at};
use cell_gates::{GateError, cell_gates};
use gate_list::{GateList, GateLit};
use netlist_core::{Cell, Netlist, input_ports, one_run, output_port};
use std::alloc::Global;

/// Adds a cell, and gives the nets of its Y their literals.
fn add_cell(
    alloc: Global,
    cell: &Cell,
    table: &mut Vec<GateLit>,
    gates: &mut GateList,
) -> Result<(), GateError>
    requires shape { HasShape cell.now }
    requires wide { AllWide cell.now.ports }
    requires below { AllBelow (length table.old.items) (output_port cell.now.ports) }
    requires within { AreWithin gates.old (lits_of table.old.items) }
    ensures made { OnOk result (record { gates = gates.new; lits = lits_of table.new.items } ≡ with_cell (Some cell.now) (record { gates = gates.old; lits = lits_of table.old.items })) }
    ensures within { OnOk result (AreWithin gates.new (lits_of table.new.items)) }
    ensures long { length table.new.items ≡ length table.old.items }
    ensures limit { OnOk result (length gates.new.made ≤ 200000) }
    ensures too_many { IfErr result (λ e. e ≡ GateError.TooMany → 200000 < length (with_cell (Some cell.now) (record { gates = gates.old; lits = lits_of table.old.items })).gates.made) }
{
    let ports = cell.ports.as_slice();
    let rows = rows_at(alloc, table.as_slice(), input_ports(ports))?;
    let row = cell_gates(alloc, cell, rows.as_slice(), gates)?;
    lay(table, output_port(ports), row.as_slice());
    Ok(())
}

/// Adds the cells in their order.
fn add_cells(
    alloc: Global,
    netlist: &Netlist,
    table: &mut Vec<GateLit>,
    gates: &mut GateList,
) -> Result<(), GateError>
    requires long { length table.old.items ≡ netlist.now.nets }
    requires within { AreWithin gates.old (lits_of table.old.items) }
    requires few { length gates.old.made ≤ 200000 }
    ensures made { OnOk result (record { gates = gates.new; lits = lits_of table.new.items } ≡ with_cells netlist.now.raw.cells netlist.now.order (record { gates = gates.old; lits = lits_of table.old.items })) }
    ensures limit { OnOk result (length gates.new.made ≤ 200000) }
    ensures too_many { IfErr result (λ e. e ≡ GateError.TooMany → 200000 < length (with_cells netlist.now.raw.cells netlist.now.order (record { gates = gates.old; lits = lits_of table.old.items })).gates.made) }
{
    let cells = netlist.raw().cells.as_slice();
    let order = netlist.order();
    for i in 0..order.len() {
        let number = order[i];
        add_cell(alloc, &cells[number as usize], table, gates)?;
    }
    Ok(())
}

/// Adds the cells of a netlist as gates, in its order, and gives the literals of its nets. Inputs and registers are the free bits
/// from variable 1 on. After a refusal the gates that were there stand, with more behind them.
pub fn netlist_gates(
    alloc: Global,
    netlist: &Netlist,
    gates: &mut GateList,
) -> Result<NetLits, GateError>
    requires free { free_bits netlist.now.raw ≤ gates.old.free }
    requires few { length gates.old.made ≤ 200000 }
    ensures made { IfOk result (λ lits. record { gates = gates.new; lits = lits_of lits } ≡ netlist_made gates.old netlist.now) }
    ensures solves { IfOk result (λ lits. Solves netlist.now.raw gates.new (lits_of lits)) }
    ensures within { IfOk result (λ lits. AreWithin gates.new (lits_of lits)) }
    ensures grows { OnOk result (Grows gates.old gates.new (weight_of netlist.now.raw.cells netlist.now.order)) }
    ensures limit { OnOk result (length gates.new.made ≤ 200000) }
    ensures too_many { IfErr result (λ e. e ≡ GateError.TooMany → 200000 < length (netlist_made gates.old netlist.now).gates.made) }
{
    // By this law the cells in their order settle a cycle.
    one_run();
    let _ = gates.free();
    let _parts = netlist.raw();
    let mut table = free_literals(alloc, netlist)?;
    add_cells(alloc, netlist, &mut table, gates)?;
    Ok(NetLits::of(table))
}
