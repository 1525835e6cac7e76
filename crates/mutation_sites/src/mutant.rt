//! The mutant of a netlist at a site.
//!
//! It is a copy in which the readers of the mutated bit are connected to a new one: a constant, or a net that a new last
//! cell drives from the unmutated bit and the unmutated control bit.
ghost use Rattle.std.specs.Prelude.{◌≡◌, ◌++◌, ◌≤◌, length, IfOk};
ghost use Rattle.netlist_core.specs.declared.netlist.NetError.{NetError};
ghost use Rattle.netlist_core.specs.declared.netlist.NetError.TheVariants.{Memory};
ghost use Rattle.netlist_core.specs.Checked.{net_bits, IsFormed, IsRefused, IsSound};
ghost use Rattle.mutation_sites.specs.Mutants.{IsSite, HasOneMore, HasSameNames, HasSameShapes, RunsAlike, HasEachRun};
ghost use Rattle.mutation_sites.specs.Wiring.{mutant_of, IsMutant, new_bit, new_cells, cells_connected};

use crate::driver::Driver;
use crate::mode::Mode;
use crate::place::{bit_of, control_of, port_at, readers_at, span_at};
use crate::readers::Change;
use crate::site::Site;
use crate::unused::unused_net;
use crate::wiring::{Wiring, cells_connected, ports_changed, registers_connected};
use mcy_base::{Items, Text};
use netlist_core::{Bit, CellList, NetError, Netlist, RawNetlist};
use std::alloc::{AllocError, Global};

/// The mutant at a site of a netlist of at most 65,535 cells and 1,048,576 net bits.
///
/// `AllocError`: want of memory. There is no other refusal: the mutant passes all tests of `Netlist::check`.
pub fn mutate(alloc: Global, netlist: &Netlist, site: &Site) -> Result<Netlist, AllocError>
    requires site { IsSite netlist.now.raw site.now }
    requires cells { length netlist.now.raw.cells ≤ 65535 }
    requires bits { net_bits netlist.now.raw ≤ 1048576 }
    ensures valid { IfOk result IsSound }
    ensures is { IfOk result (λ mutant. IsMutant netlist.now site.now mutant.raw) }
    ensures one_more { IfOk result (λ mutant. HasOneMore netlist.now.raw mutant.raw) }
    ensures names { IfOk result (λ mutant. HasSameNames netlist.now.raw mutant.raw) }
    ensures shapes { IfOk result (λ mutant. HasSameShapes netlist.now.raw mutant.raw site.now.mode) }
    ensures alike { IfOk result (λ mutant. RunsAlike netlist.now.raw mutant.raw site.now) }
    ensures each_run { IfOk result (λ mutant. HasEachRun netlist.now.raw mutant.raw site.now) }
{
    let net = unused_net(netlist);
    let parts = parts(alloc, netlist, site, net)?;
    checked(alloc, parts)
}

/// The netlist of parts that pass all tests.
fn checked(alloc: Global, parts: RawNetlist) -> Result<Netlist, AllocError>
    requires formed { IsFormed parts }
    requires accepted { (error : NetError) → IsRefused parts error → error ≡ Memory }
    ensures valid { IfOk result IsSound }
    ensures parts { IfOk result (λ netlist. netlist.raw ≡ parts) }
{
    match Netlist::check(alloc, parts) {
        Ok(netlist) => Ok(netlist),
        Err(refusal) => {
            prove!(matches!(refusal, NetError::Memory));
            Err(AllocError)
        }
    }
}

/// The parts of the mutant, whose new net has this number.
fn parts(alloc: Global, netlist: &Netlist, site: &Site, net: u32) -> Result<RawNetlist, AllocError>
    requires { IsSite netlist.now.raw site.now }
    ensures { IfOk result (λ parts. parts ≡ mutant_of netlist.now.raw site.now net) }
{
    let raw = netlist.raw();
    let wiring = Wiring {
        readers: readers_at(raw, site),
        new: new_bit(site.mode, net),
    };
    let bits = port_at(raw, site.place, site.port);
    let driver = Driver {
        mode: site.mode,
        bit: bit_of(bits, site.bit as usize),
        control: control_of(bits, site.bit as usize),
        net,
        span: span_at(raw, site.place),
    };
    Ok(RawNetlist {
        top: Text::copy(alloc, raw.top.as_str())?,
        clock: copy_clock(alloc, &raw.clock)?,
        inputs: ports_changed(alloc, &raw.inputs, Change::Nothing, wiring.new)?,
        outputs: ports_changed(alloc, &raw.outputs, wiring.readers.at_outputs(), wiring.new)?,
        registers: registers_connected(alloc, wiring, netlist)?,
        cells: mutant_cells(alloc, wiring, netlist, driver)?,
    })
}

/// The same name.
fn copy_clock(alloc: Global, clock: &Option<Text>) -> Result<Option<Text>, AllocError>
    ensures { IfOk result (λ c. c ≡ clock.now) }
{
    match clock {
        Some(name) => Ok(Some(Text::copy(alloc, name.as_str())?)),
        None => Ok(None),
    }
}

/// The cells, with the one that drives the new net.
fn mutant_cells(
    alloc: Global,
    wiring: Wiring,
    netlist: &Netlist,
    driver: Driver,
) -> Result<CellList, AllocError>
    ensures { IfOk result (λ cells. cells ≡ cells_connected wiring.readers wiring.new 0 netlist.now.raw.cells
        ++ new_cells driver.mode driver.bit driver.control driver.net driver.span) }
{
    let mut cells = cells_connected(alloc, wiring, netlist)?;
    driver.add(alloc, &mut cells)?;
    Ok(Items::from_vec(cells))
}

/// The bit that is read in place of the unmutated one.
fn new_bit(mode: Mode, net: u32) -> Bit
    ensures { result ≡ new_bit mode net }
{
    match mode {
        Mode::Const0 => Bit::Fixed(false),
        Mode::Const1 => Bit::Fixed(true),
        Mode::Inv | Mode::Cnot0 | Mode::Cnot1 => Bit::Net(net),
    }
}
