//! The mutants of a netlist, printed with their parts.
ghost use Rattle.std.specs.Prelude.{◌≡◌, ◌+◌, length};
ghost use Rattle.std.specs.List.{All};
ghost use Rattle.netlist_core.specs.Checked.{IsSound};
ghost use Rattle.mutation_sites.specs.Mutants.{IsSite};

use anyhow::Result;
use mutation_sites::{Site, mutate};
use netlist_core::{Bit, BitList, Cell, Netlist, Register};
use std::io;

/// Prints the mutants at these sites of a small netlist.
pub(crate) fn tell_mutants<R: Print + AllocGlobal>(
    rt: &R,
    netlist: &Netlist,
    list: &[Site],
) -> Result<()>
    requires { All (IsSite netlist.now.raw) list.now }
{
    if part_count(netlist) > 8000 {
        println!(rt; "not small")?;
        return Ok(());
    }
    for site in list {
        println!(rt;
            "{:?} {:?} {} {}",
            site.mode, site.place, site.port, site.bit
        )?;
        let mutant = mutate(rt.alloc(), netlist, site)?;
        tell_parts(rt, &mutant)?;
    }
    Ok(())
}

/// How many inputs, outputs, registers and cells there are together.
fn part_count(netlist: &Netlist) -> u128
    ensures count { result ≡ length netlist.now.raw.inputs + length netlist.now.raw.outputs + length netlist.now.raw.registers + length netlist.now.raw.cells }
    ensures sound { IsSound netlist.now }
{
    let raw = netlist.raw();
    let ports = raw.inputs.as_slice().len() as u128 + raw.outputs.as_slice().len() as u128;
    ports + raw.registers.as_slice().len() as u128 + raw.cells.as_slice().len() as u128
}

/// Prints outputs, registers and cells.
fn tell_parts<R: Print>(rt: &R, netlist: &Netlist) -> io::Result<()> {
    let raw = netlist.raw();
    for output in raw.outputs.as_slice() {
        print!(rt; "Output")?;
        tell_port(rt, output.bits.as_slice())?;
        println!(rt; "")?;
    }
    tell_registers(rt, raw.registers.as_slice())?;
    tell_cells(rt, raw.cells.as_slice())
}

/// Prints registers, each with its D and its Q.
fn tell_registers<R: Print>(rt: &R, registers: &[Register]) -> io::Result<()> {
    for register in registers {
        print!(rt; "Register")?;
        tell_port(rt, register.d.as_slice())?;
        tell_port(rt, register.q.as_slice())?;
        println!(rt; "")?;
    }
    Ok(())
}

/// Prints cells.
fn tell_cells<R: Print>(rt: &R, cells: &[Cell]) -> io::Result<()> {
    for cell in cells {
        print!(rt; "{:?}", cell.kind)?;
        tell_ports(rt, cell.ports.as_slice())?;
        println!(rt; "")?;
    }
    Ok(())
}

/// Prints the bits at each port.
fn tell_ports<R: Print>(rt: &R, ports: &[BitList]) -> io::Result<()> {
    for bits in ports {
        tell_port(rt, bits.as_slice())?;
    }
    Ok(())
}

/// Prints the bits at a port, behind a bar.
fn tell_port<R: Print>(rt: &R, bits: &[Bit]) -> io::Result<()> {
    print!(rt; " |")?;
    for bit in bits {
        match *bit {
            Bit::Fixed(value) => print!(rt; " {value}")?,
            Bit::Net(net) => print!(rt; " {net}")?,
        }
    }
    Ok(())
}
