//! Which cells read each driver, by their places in the netlist's order.
ghost use Rattle.std.specs.Prelude.{◌≡◌, ℕ, ◌≤◌, ◌<◌, [], IfOk, OnOk, IsTrue, length, replicate};
ghost use Rattle.std.specs.List.{Contains};
ghost use Rattle.netlist_core.specs.Solutions.{driving};
ghost use Rattle.netlist_core.specs.Drivers.{times, times_at};
ghost use Rattle.cycle_sim.specs.Places.{place_of, AreBelow, ArePortsBelow, ArePortsPlaced};
ghost use Rattle.cycle_sim.specs.Marks.{AreReaders, AreAdded};

use crate::parts::Place;
use crate::places::driver_count;
use mcy_base::Items;
use netlist_core::{Bit, BitList, Netlist, input_ports};
use std::alloc::{AllocError, Global};

/// So many lists of nothing.
fn no_lists(alloc: Global, count: usize) -> Result<Vec<Items<usize>>, AllocError>
    ensures { IfOk result (λ r. r.items ≡ replicate count []) }
{
    let mut lists = Vec::new(alloc);
    while lists.len() < count {
        lists.push(Items::from_vec(Vec::new(alloc)))?;
    }
    Ok(lists)
}

/// Whether a place is the last one of a list.
fn ends_with(list: &[usize], place: usize) -> bool
    ensures { IsTrue result → Contains list.now place }
{
    match list {
        [.., last] => *last == place,
        [] => false,
    }
}

/// A net is read at a place.
fn add_net(
    readers: &mut Vec<Items<usize>>,
    places: &[Place],
    net: u32,
    place: usize,
) -> Result<(), AllocError>
    requires below { net < length places.now }
    requires inside { (place_of places.now net).driver < length readers.old.items }
    ensures { OnOk result (AreAdded (λ n. n ≡ net) places.now place readers.old.items readers.new.items) }
{
    let driver = places[net as usize].driver as usize;
    if ends_with(readers[driver].as_slice(), place) {
        return Ok(());
    }
    readers[driver].push(place)?;
    Ok(())
}

/// Bits are read at a place.
fn add_bits(
    readers: &mut Vec<Items<usize>>,
    places: &[Place],
    bits: &[Bit],
    place: usize,
) -> Result<(), AllocError>
    requires below { AreBelow (length places.now) bits.now }
    requires inside { (n : ℕ) → 1 ≤ times n bits.now → (place_of places.now n).driver < length readers.old.items }
    ensures { OnOk result (AreAdded (λ n. 1 ≤ times n bits.now) places.now place readers.old.items readers.new.items) }
{
    for bit in bits {
        match *bit {
            Bit::Fixed(_) => {}
            Bit::Net(net) => add_net(readers, places, net, place)?,
        }
    }
    Ok(())
}

/// Ports are read at a place.
fn add_ports(
    readers: &mut Vec<Items<usize>>,
    places: &[Place],
    ports: &[BitList],
    place: usize,
) -> Result<(), AllocError>
    requires below { ArePortsBelow (length places.now) ports.now }
    requires inside { (n : ℕ) → 1 ≤ times_at n ports.now → (place_of places.now n).driver < length readers.old.items }
    ensures { OnOk result (AreAdded (λ n. 1 ≤ times_at n ports.now) places.now place readers.old.items readers.new.items) }
{
    for port in ports {
        add_bits(readers, places, port.as_slice(), place)?;
    }
    Ok(())
}

/// For each driver the places of the cells that read it.
pub(crate) fn readers_of(
    alloc: Global,
    places: &[Place],
    netlist: &Netlist,
) -> Result<Vec<Items<usize>>, AllocError>
    requires long { length places.now ≡ netlist.now.nets }
    requires placed { ArePortsPlaced (driving netlist.now.raw) places.now (driving netlist.now.raw) }
    ensures { IfOk result (λ r. AreReaders netlist.now r.items) }
{
    let cells = netlist.raw().cells.as_slice();
    let order = netlist.order();
    let mut readers = no_lists(alloc, driver_count(netlist))?;
    for place in 0..order.len() {
        let cell = &cells[order[place] as usize];
        add_ports(
            &mut readers,
            places,
            input_ports(cell.ports.as_slice()),
            place,
        )?;
    }
    Ok(readers)
}
