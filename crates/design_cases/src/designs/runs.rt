//! The words at the inputs and outputs of a simulator.
use anyhow::{Context, Result};
use case_lines::Page;
use cycle_sim::Sim;
use mcy_base::Word;
use netlist_core::Port;
use std::alloc::Global;

/// The word of an input, from its number.
fn input_of(port: &Port, number: Option<&str>) -> Option<Word> {
    let number = number?.parse::<u128>().ok()?;
    let width = u8::try_from(port.bits.as_slice().len()).ok()?;
    Word::new(width, number)
}

/// The words of inputs, from their numbers.
pub(crate) fn inputs_of(alloc: Global, ports: &[Port], numbers: &str) -> Result<Vec<Word>> {
    let mut words = Vec::new(alloc);
    let mut numbers = numbers.split(' ');
    for port in ports {
        words.push(input_of(port, numbers.next()).context("no word")?)?;
    }
    Ok(words)
}

/// Puts the words at the outputs.
pub(crate) fn put_outputs(page: &mut Page, sim: &Sim) {
    page.put("outputs");
    for port in 0..sim.netlist().raw().outputs.as_slice().len() {
        if let Ok(port) = u32::try_from(port) {
            page.put(" ");
            page.put_number(sim.output(port).bits());
        }
    }
    page.put("\n");
}
