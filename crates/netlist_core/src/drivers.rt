//! What drives each net.
//!
//! `table` has for each net the first bit that drives it, of inputs, registers and cells in this order, and `twice`
//! is the least net that has another. A net past the table's end is driven by nothing, and the last net in it is driven.
ghost use Rattle.std.specs.Prelude.{◌≡◌, ◌+◌, ◌<◌, ◌≤◌, OnOk, IfOk, length, vec_len};
ghost use Rattle.netlist_core.specs.Runs.{bits_at, d_bits, input_ports, output_port};
ghost use Rattle.netlist_core.specs.Checked.{max_cells};
ghost use Rattle.netlist_core.specs.Marking.{Known, known_of, driver_at, is_driven, lesser, with_room, after_net, after_bits, after_ports, after_registers, after_cells, all_known, undriven_net, undriven_bits, undriven_at, undriven_cells, all_undriven};

use crate::bit::{Bit, BitList};
use crate::cell::{Cell, input_ports, output_port};
use crate::port::{Port, Register};
use crate::raw::RawNetlist;
use std::alloc::{AllocError, Global};

/// What drives a net.
#[derive(Clone, Copy, Debug, PartialEq, Eq)]
pub(crate) enum Driver {
    Nothing,
    /// An input or a register.
    Source,
    /// A cell, by its number.
    Cell(u32),
}

/// The drivers of the nets.
#[derive(Drop)]
pub(crate) struct Drivers {
    table: Vec<Driver>,
    twice: Option<u32>,
}

/// The lesser of what was found so far and a net.
fn lesser_of(found: Option<u32>, net: u32) -> u32
    ensures { result ≡ lesser found net }
{
    match found {
        Some(least) if least < net => least,
        _ => net,
    }
}

impl Drivers {
    /// The drivers of the nets of a netlist.
    pub(crate) fn of(alloc: Global, raw: &RawNetlist) -> Result<Drivers, AllocError>
        requires { length raw.now.cells ≤ max_cells }
        ensures { IfOk result (λ d. known_of d ≡ all_known raw.now) }
    {
        let mut drivers = Drivers {
            table: Vec::new(alloc),
            twice: None,
        };
        drivers.drive_ports(raw.inputs.as_slice())?;
        drivers.drive_registers(raw.registers.as_slice())?;
        drivers.drive_cells(raw.cells.as_slice())?;
        Ok(drivers)
    }

    /// The table.
    pub(crate) fn table(&self) -> &[Driver]
        ensures drivers { driver_at result.now ≡ (known_of self.now).driver }
        ensures nets { length result.now ≡ (known_of self.now).nets }
    {
        self.table.as_slice()
    }

    /// The least net that has two drivers.
    pub(crate) fn twice(&self) -> Option<u32>
        ensures { result ≡ (known_of self.now).twice }
    {
        self.twice
    }

    /// Makes the table so long that it has this net.
    fn make_room(&mut self, net: usize) -> Result<(), AllocError>
        ensures room { OnOk result (net < length self.new.table.items) }
        ensures known { OnOk result (known_of self.new ≡ with_room net (known_of self.old)) }
    {
        while self.table.len() <= net {
            self.table.push(Driver::Nothing)?;
        }
        Ok(())
    }

    /// Adds a driver of a net.
    fn drive_net(&mut self, driver: Driver, net: u32) -> Result<(), AllocError>
        ensures { OnOk result (known_of self.new ≡ after_net driver net (known_of self.old)) }
    {
        let place = net as usize;
        self.make_room(place)?;
        match self.table[place] {
            Driver::Nothing => self.table[place] = driver,
            _ => self.twice = Some(lesser_of(self.twice, net)),
        }
        Ok(())
    }

    /// Adds a driver of the nets of bits.
    fn drive(&mut self, driver: Driver, bits: &[Bit]) -> Result<(), AllocError>
        ensures { OnOk result (known_of self.new ≡ after_bits driver bits.now (known_of self.old)) }
    {
        for bit in bits {
            if let Bit::Net(net) = *bit {
                self.drive_net(driver, net)?;
            }
        }
        Ok(())
    }

    fn drive_ports(&mut self, ports: &[Port]) -> Result<(), AllocError>
        ensures { OnOk result (known_of self.new ≡ after_ports ports.now (known_of self.old)) }
    {
        for port in ports {
            self.drive(Driver::Source, port.bits.as_slice())?;
        }
        Ok(())
    }

    fn drive_registers(&mut self, registers: &[Register]) -> Result<(), AllocError>
        ensures { OnOk result (known_of self.new ≡ after_registers registers.now (known_of self.old)) }
    {
        for register in registers {
            self.drive(Driver::Source, register.q.as_slice())?;
        }
        Ok(())
    }

    fn drive_cells(&mut self, cells: &[Cell]) -> Result<(), AllocError>
        requires { length cells.now ≤ max_cells }
        ensures { OnOk result (known_of self.new ≡ after_cells 0 cells.now (known_of self.old)) }
    {
        for i in 0..cells.len() {
            self.drive(
                Driver::Cell(i as u32),
                output_port(cells[i].ports.as_slice()),
            )?;
        }
        Ok(())
    }
}

/// What drives a net.
pub(crate) fn driver_of(table: &[Driver], net: u32) -> Driver
    ensures { result ≡ driver_at table.now net }
{
    match table.get(net as usize) {
        Some(driver) => *driver,
        None => Driver::Nothing,
    }
}

/// The lesser of what was found so far and a net that is read, where nothing drives it.
fn with_net(table: &[Driver], net: u32, found: Option<u32>) -> Option<u32>
    ensures { result ≡ undriven_net (driver_at table.now) net found }
{
    match driver_of(table, net) {
        Driver::Nothing => Some(lesser_of(found, net)),
        Driver::Source | Driver::Cell(_) => found,
    }
}

/// The least of the nets at these bits that have no driver, and of what was found before.
fn undriven_among(table: &[Driver], bits: &[Bit], mut found: Option<u32>) -> Option<u32>
    ensures { result ≡ undriven_bits (driver_at table.now) bits.now found }
{
    for bit in bits {
        if let Bit::Net(net) = *bit {
            found = with_net(table, net, found);
        }
    }
    found
}

/// The same at several ports.
fn undriven_at(table: &[Driver], ports: &[BitList], mut found: Option<u32>) -> Option<u32>
    ensures { result ≡ undriven_at (driver_at table.now) ports.now found }
{
    for port in ports {
        found = undriven_among(table, port.as_slice(), found);
    }
    found
}

fn undriven_of_cells(table: &[Driver], cells: &[Cell], mut found: Option<u32>) -> Option<u32>
    ensures { result ≡ undriven_cells (driver_at table.now) cells.now found }
{
    for cell in cells {
        found = undriven_at(table, input_ports(cell.ports.as_slice()), found);
    }
    found
}

fn undriven_of_registers(
    table: &[Driver],
    registers: &[Register],
    mut found: Option<u32>,
) -> Option<u32>
    ensures { result ≡ undriven_at (driver_at table.now) (d_bits registers.now) found }
{
    for register in registers {
        found = undriven_among(table, register.d.as_slice(), found);
    }
    found
}

fn undriven_of_ports(table: &[Driver], ports: &[Port], mut found: Option<u32>) -> Option<u32>
    ensures { result ≡ undriven_at (driver_at table.now) (bits_at ports.now) found }
{
    for port in ports {
        found = undriven_among(table, port.bits.as_slice(), found);
    }
    found
}

/// The least net that is read and has no driver.
pub(crate) fn undriven(table: &[Driver], raw: &RawNetlist) -> Option<u32>
    ensures { result ≡ all_undriven (driver_at table.now) raw.now }
{
    let found = undriven_of_cells(table, raw.cells.as_slice(), None);
    let found = undriven_of_registers(table, raw.registers.as_slice(), found);
    undriven_of_ports(table, raw.outputs.as_slice(), found)
}
