//! The simulator of a netlist.
use anyhow::{Context, Result};
use cycle_sim::Sim;
use mcy_base::Word;
use netlist_core::RawNetlist;
use netlist_rows::netlist_of;
use std::alloc::Global;
use std::io;

/// Prints the words at the outputs.
fn tell_outputs<R: Print>(rt: &R, sim: &Sim) -> io::Result<()> {
    print!(rt; "outputs")?;
    for port in 0..sim.netlist().raw().outputs.as_slice().len() {
        if let Ok(port) = u32::try_from(port) {
            print!(rt; " {}", sim.output(port).bits())?;
        }
    }
    println!(rt;)
}

/// Prints the words that the registers hold.
pub(crate) fn tell_registers<R: Print>(rt: &R, sim: &Sim) -> io::Result<()> {
    print!(rt; "registers")?;
    for number in 0..sim.netlist().raw().registers.as_slice().len() {
        if let Ok(number) = u32::try_from(number) {
            print!(rt; " {}", sim.register(number).bits())?;
        }
    }
    println!(rt;)
}

/// The words of the inputs, from their numbers.
fn inputs_of(alloc: Global, sim: &Sim, numbers: &str) -> Result<Vec<Word>> {
    let mut words = Vec::new(alloc);
    let mut numbers = numbers.split(' ');
    for port in sim.netlist().raw().inputs.as_slice() {
        let number = numbers.next().context("no number")?.parse::<u128>().ok();
        let width = u8::try_from(port.bits.as_slice().len()).ok();
        let word = Word::new(width.context("no width")?, number.context("no number")?);
        words.push(word.context("no word")?)?;
    }
    Ok(words)
}

/// The simulator of these parts.
pub(crate) fn sim_of(alloc: Global, raw: RawNetlist) -> Result<Sim> {
    let netlist = netlist_of(alloc, raw)?;
    Ok(Sim::new(alloc, netlist)?)
}

/// Settles the nets.
pub(crate) fn settle<R: Print + AllocGlobal>(rt: &R, sim: &mut Sim, numbers: &str) -> Result<()> {
    let inputs = inputs_of(rt.alloc(), sim, numbers)?;
    if sim.takes(inputs.as_slice()) {
        sim.settle(inputs.as_slice());
    }
    Ok(tell_outputs(rt, sim)?)
}

/// Settles the nets and gives each register its D.
pub(crate) fn step<R: Print + AllocGlobal>(rt: &R, sim: &mut Sim, numbers: &str) -> Result<()> {
    let inputs = inputs_of(rt.alloc(), sim, numbers)?;
    if sim.takes(inputs.as_slice()) {
        sim.step(inputs.as_slice());
    }
    tell_outputs(rt, sim)?;
    Ok(tell_registers(rt, sim)?)
}

/// Gives each register its D.
pub(crate) fn clock<R: Print>(rt: &R, sim: &mut Sim) -> Result<()> {
    sim.clock();
    tell_outputs(rt, sim)?;
    Ok(tell_registers(rt, sim)?)
}
