//! The bits at ports, cells, and a netlist without parts.
use crate::kind::kind_of;
use anyhow::{Context, Result};
use mcy_base::{Items, Span, Text};
use netlist_core::{Bit, BitList, Cell, Port, PortList, RawNetlist};
use std::alloc::{AllocError, Global};

/// The place of parts for which none is told.
pub const PLACE: Span = Span {
    file: 0,
    line: 1,
    col: 1,
};

/// No parts.
pub fn no_parts(alloc: Global) -> Result<RawNetlist, AllocError> {
    Ok(RawNetlist {
        top: Text::copy(alloc, "top")?,
        clock: Some(Text::copy(alloc, "clk")?),
        inputs: Items::from_vec(Vec::new(alloc)),
        outputs: Items::from_vec(Vec::new(alloc)),
        registers: Items::from_vec(Vec::new(alloc)),
        cells: Items::from_vec(Vec::new(alloc)),
    })
}

/// The number in a text.
pub fn number_of(text: &str) -> Result<u32> {
    text.parse::<u32>().ok().context("no number")
}

/// Adds the nets from the first to the last.
pub fn add_nets(bits: &mut BitList, first: u32, last: u32) -> Result<(), AllocError> {
    for net in first..=last {
        bits.push(Bit::Net(net))?;
    }
    Ok(())
}

/// The bits that one word gives.
#[derive(Clone, Copy)]
enum Row {
    /// A constant.
    Fixed(bool),
    /// The nets from the first to the last.
    Nets(u32, u32),
}

/// The nets that a word gives.
fn nets_of(word: &str) -> Option<Row> {
    let (first, last) = word.split_once("..").unwrap_or((word, word));
    Some(Row::Nets(first.parse::<u32>().ok()?, last.parse::<u32>().ok()?))
}

/// The bits that a word gives.
fn row_of(word: &str) -> Option<Row> {
    match word {
        "low" => Some(Row::Fixed(false)),
        "high" => Some(Row::Fixed(true)),
        _ => nets_of(word),
    }
}

/// Adds the bits of a row.
fn add_row(bits: &mut BitList, row: Row) -> Result<(), AllocError> {
    match row {
        Row::Fixed(value) => bits.push(Bit::Fixed(value)),
        Row::Nets(first, last) => add_nets(bits, first, last),
    }
}

/// Adds the bits that words give.
fn add_rows(bits: &mut BitList, words: &str) -> Result<()> {
    for word in words.split(',') {
        add_row(bits, row_of(word).context("no number")?)?;
    }
    Ok(())
}

/// The bits of a port.
pub fn bits_of(alloc: Global, text: &str) -> Result<BitList> {
    let mut bits = Items::from_vec(Vec::new(alloc));
    if text != "none" {
        add_rows(&mut bits, text)?;
    }
    Ok(bits)
}

/// Adds the bits at each port.
fn add_ports(alloc: Global, ports: &mut PortList, words: &str) -> Result<()> {
    for word in words.split(' ') {
        ports.push(bits_of(alloc, word)?)?;
    }
    Ok(())
}

/// The bits at each port.
fn ports_of(alloc: Global, words: &str) -> Result<PortList> {
    let mut ports = Items::from_vec(Vec::new(alloc));
    add_ports(alloc, &mut ports, words)?;
    Ok(ports)
}

/// The cell of the kind of this name, with these bits at its ports.
pub fn cell(alloc: Global, kind: &str, is_signed: bool, span: Span, words: &str) -> Result<Cell> {
    Ok(Cell {
        kind: kind_of(kind).context("no statement")?,
        is_signed,
        ports: ports_of(alloc, words)?,
        span,
    })
}

/// The input or output of this name.
pub fn port(alloc: Global, name: &str, bits: &str) -> Result<Port> {
    Ok(Port {
        name: Text::copy(alloc, name)?,
        bits: bits_of(alloc, bits)?,
    })
}
