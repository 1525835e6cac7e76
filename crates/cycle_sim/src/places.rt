//! Where each net is driven.
ghost use Rattle.std.specs.Prelude.{◌≡◌, ◌≤◌, ◌<◌, ◌+◌, ◌^◌, [], IfOk, map, length, slice_index_or};
ghost use Rattle.netlist_core.specs.Solutions.{driving};
ghost use Rattle.cycle_sim.specs.Places.{AreBelow, AreMarked, ArePortsPlaced};

use crate::parts::Place;
use netlist_core::{Bit, Netlist, RawNetlist, output_port};
use std::alloc::{AllocError, Global};

/// The bits of a driver: inputs, registers' Q and cells' Y, counted in this order.
pub(crate) fn driver_bits(raw: &RawNetlist, driver: usize) -> &[Bit]
    ensures { result.now ≡ slice_index_or (driving raw.now) driver [] }
{
    let inputs = raw.inputs.as_slice();
    if driver < inputs.len() {
        return inputs[driver].bits.as_slice();
    }
    let register = driver - inputs.len();
    let registers = raw.registers.as_slice();
    if register < registers.len() {
        return registers[register].q.as_slice();
    }
    let cell = register - registers.len();
    let cells = raw.cells.as_slice();
    if cell < cells.len() {
        return output_port(cells[cell].ports.as_slice());
    }
    &[]
}

/// How many drivers there are.
pub(crate) fn driver_count(netlist: &Netlist) -> usize
    ensures count { result ≡ length (driving netlist.now.raw) }
    ensures small { result < 2 ^ 32 }
{
    let raw = netlist.raw();
    raw.inputs.as_slice().len() + raw.registers.as_slice().len() + raw.cells.as_slice().len()
}

/// Gives the nets among a driver's bits their places.
fn mark(places: &mut Vec<Place>, driver: u32, bits: &[Bit])
    requires below { AreBelow (length places.old.items) bits.now }
    requires narrow { length bits.now ≤ 128 }
    ensures long { length places.new.items ≡ length places.old.items }
    ensures marked { AreMarked driver bits.now bits.now places.old.items places.new.items }
{
    for i in 0..bits.len() {
        match bits[i] {
            Bit::Fixed(_) => {}
            Bit::Net(net) => {
                places[net as usize] = Place {
                    driver,
                    bit: i as u8,
                };
            }
        }
    }
}

/// For each net that is driven its place.
pub(crate) fn places_of(alloc: Global, netlist: &Netlist) -> Result<Vec<Place>, AllocError>
    ensures long { IfOk result (λ p. length p.items ≡ netlist.now.nets) }
    ensures placed { IfOk result (λ p. ArePortsPlaced (driving netlist.now.raw) p.items (driving netlist.now.raw)) }
{
    let raw = netlist.raw();
    let mut places = vec![in alloc; Place { driver: 0, bit: 0 }; netlist.nets()]?;
    for driver in 0..driver_count(netlist) {
        mark(&mut places, driver as u32, driver_bits(raw, driver));
    }
    Ok(places)
}

/// The width of each driver.
pub(crate) fn widths_of(alloc: Global, netlist: &Netlist) -> Result<Vec<u8>, AllocError>
    ensures { IfOk result (λ w. w.items ≡ map length (driving netlist.now.raw)) }
{
    let raw = netlist.raw();
    let mut widths = Vec::new(alloc);
    for driver in 0..driver_count(netlist) {
        widths.push(driver_bits(raw, driver).len() as u8)?;
    }
    Ok(widths)
}
