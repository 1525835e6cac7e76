//! The parts of a netlist with sites, as statements add them.
use crate::kind::kind_of;
use crate::netlists::{bits_of, ports_of};
use anyhow::{Context, Result};
use mcy_base::{Items, Span, Text, TextList, Word};
use netlist_core::{BitList, Cell, CellKind, Port, PortList, RawNetlist, Register};
use std::alloc::{AllocError, Global};

/// The names of the sources: there is one.
pub(crate) fn files(alloc: Global) -> Result<TextList, AllocError> {
    let name = Text::copy(alloc, "top.v")?;
    let names = vec![in alloc; name]?;
    Ok(Items::from_vec(names))
}

fn port(alloc: Global, bits: BitList) -> Result<Port, AllocError> {
    Ok(Port {
        name: Text::copy(alloc, "port")?,
        bits,
    })
}

/// The register that the words give.
fn register(alloc: Global, place: Span, words: &str) -> Result<Register> {
    let (width, ports) = words.split_once(' ').context("no width")?;
    let (d, q) = ports.split_once(' ').context("no Q")?;
    let width = width.parse::<u8>().ok().context("no width")?;
    Ok(Register {
        name: Text::copy(alloc, "state")?,
        span: place,
        d: bits_of(alloc, d)?,
        q: bits_of(alloc, q)?,
        start: Word::new(width, 0).context("no width")?,
    })
}

fn cell(kind: CellKind, place: Span, ports: PortList) -> Cell {
    Cell {
        kind,
        is_signed: false,
        ports,
        span: place,
    }
}

/// Adds what a statement gives, at a place in the sources.
pub(crate) fn add_part(
    alloc: Global,
    raw: &mut RawNetlist,
    place: Span,
    verb: &str,
    rest: &str,
) -> Result<()> {
    match verb {
        "input" => raw.inputs.push(port(alloc, bits_of(alloc, rest)?)?)?,
        "output" => raw.outputs.push(port(alloc, bits_of(alloc, rest)?)?)?,
        "register" => raw.registers.push(register(alloc, place, rest)?)?,
        _ => {
            let kind = kind_of(verb).context("no statement")?;
            raw.cells.push(cell(kind, place, ports_of(alloc, rest)?))?;
        }
    }
    Ok(())
}
