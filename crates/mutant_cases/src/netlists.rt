//! Netlists without parts, and the bits at ports, as words give them.
use anyhow::{Context, Result};
use mcy_base::{Items, Text};
use netlist_core::{Bit, BitList, PortList, RawNetlist};
use std::alloc::{AllocError, Global};

/// No parts.
pub(crate) fn no_parts(alloc: Global) -> Result<RawNetlist, AllocError> {
    Ok(RawNetlist {
        top: Text::copy(alloc, "top")?,
        clock: Some(Text::copy(alloc, "clk")?),
        inputs: Items::from_vec(Vec::new(alloc)),
        outputs: Items::from_vec(Vec::new(alloc)),
        registers: Items::from_vec(Vec::new(alloc)),
        cells: Items::from_vec(Vec::new(alloc)),
    })
}

/// Adds the nets from the first to the last.
fn add_nets(bits: &mut BitList, first: u32, last: u32) -> Result<(), AllocError> {
    for net in first..=last {
        bits.push(Bit::Net(net))?;
    }
    Ok(())
}

/// The number in a text.
fn number_of(text: &str) -> Result<u32> {
    text.parse::<u32>().ok().context("no number")
}

/// Adds the bits that one word gives.
fn add_bits(bits: &mut BitList, word: &str) -> Result<()> {
    match word {
        "low" => bits.push(Bit::Fixed(false))?,
        "high" => bits.push(Bit::Fixed(true))?,
        _ => {
            let (first, last) = word.split_once("..").unwrap_or((word, word));
            add_nets(bits, number_of(first)?, number_of(last)?)?;
        }
    }
    Ok(())
}

/// The bits of a port; `none` is for none.
pub(crate) fn bits_of(alloc: Global, text: &str) -> Result<BitList> {
    let mut bits = Items::from_vec(Vec::new(alloc));
    if text != "none" {
        for word in text.split(',') {
            add_bits(&mut bits, word)?;
        }
    }
    Ok(bits)
}

/// The bits at each port.
pub(crate) fn ports_of(alloc: Global, words: &str) -> Result<PortList> {
    let mut ports = Items::from_vec(Vec::new(alloc));
    for word in words.split(' ') {
        ports.push(bits_of(alloc, word)?)?;
    }
    Ok(ports)
}
