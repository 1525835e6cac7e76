//! The mutation sites of a netlist, in their order: by place, port, bit and mode.
ghost use Rattle.std.specs.Prelude.{◌≡◌, ◌≤◌, ◌++◌, length, All, IfOk, OnOk, map};
ghost use Rattle.mutation_sites.specs.Modes.{modes_of};
ghost use Rattle.mutation_sites.specs.Mutants.{IsSite};
ghost use Rattle.mutation_sites.specs.Sites.{sites, cells_sites, registers_sites, ports_sites, port_sites, bit_sites};

use crate::mode::{ModeSet, all_modes};
use crate::site::{Place, Site};
use netlist_core::{Bit, BitList, Netlist};
use std::alloc::{AllocError, Global};

/// The sites of the netlist for a set of modes. At each there is a bit.
pub fn sites(alloc: Global, netlist: &Netlist, modes: ModeSet) -> Result<Vec<Site>, AllocError>
    ensures all { IfOk result (λ list. list.items ≡ sites modes netlist.now.raw) }
    ensures placed { IfOk result (λ list. All (IsSite netlist.now.raw) list.items) }
{
    let mut list = Vec::new(alloc);
    add_cells(&mut list, netlist, modes)?;
    add_registers(&mut list, netlist, modes)?;
    Ok(list)
}

/// Adds the sites of the cells.
fn add_cells(list: &mut Vec<Site>, netlist: &Netlist, modes: ModeSet) -> Result<(), AllocError>
    ensures { OnOk result (list.new.items ≡ list.old.items ++ cells_sites modes 0 netlist.now.raw.cells) }
{
    for (number, cell) in netlist.raw().cells.as_slice().iter().enumerate() {
        add_ports(
            list,
            modes,
            Place::Cell(number as u32),
            cell.ports.as_slice(),
        )?;
    }
    Ok(())
}

/// Adds the sites of the registers.
fn add_registers(list: &mut Vec<Site>, netlist: &Netlist, modes: ModeSet) -> Result<(), AllocError>
    ensures { OnOk result (list.new.items ≡ list.old.items ++ registers_sites modes 0 netlist.now.raw.registers) }
{
    for (number, register) in netlist.raw().registers.as_slice().iter().enumerate() {
        let place = Place::Register(number as u32);
        add_port(list, modes, place, 0, register.d.as_slice())?;
        add_port(list, modes, place, 1, register.q.as_slice())?;
    }
    Ok(())
}

/// Adds the sites of a cell, from the bits at its ports.
fn add_ports(
    list: &mut Vec<Site>,
    modes: ModeSet,
    place: Place,
    ports: &[BitList],
) -> Result<(), AllocError>
    requires few { length ports.now ≤ 4 }
    requires narrow { All (λ bits. length bits ≤ 128) ports.now }
    ensures { OnOk result (list.new.items ≡ list.old.items ++ ports_sites modes place 0 ports.now) }
{
    for (port, bits) in ports.iter().enumerate() {
        add_port(list, modes, place, port as u8, bits.as_slice())?;
    }
    Ok(())
}

/// Adds the sites of a port, from its bits.
fn add_port(
    list: &mut Vec<Site>,
    modes: ModeSet,
    place: Place,
    port: u8,
    bits: &[Bit],
) -> Result<(), AllocError>
    requires { length bits.now ≤ 128 }
    ensures { OnOk result (list.new.items ≡ list.old.items ++ port_sites modes place port bits.now) }
{
    let modes = modes.at_width(bits.len());
    for bit in 0..bits.len() {
        add_bit(list, modes, place, port, bit as u8)?;
    }
    Ok(())
}

/// Adds the sites of a bit: one for each mode of the set.
fn add_bit(
    list: &mut Vec<Site>,
    modes: ModeSet,
    place: Place,
    port: u8,
    bit: u8,
) -> Result<(), AllocError>
    ensures { OnOk result (list.new.items ≡ list.old.items ++ bit_sites (modes_of modes) place port bit) }
{
    for mode in all_modes() {
        if modes.contains(mode) {
            list.push(Site {
                mode,
                place,
                port,
                bit,
            })?;
        }
    }
    Ok(())
}
