//! The parts of a netlist of a pair, as statements add them.
use crate::kind::kind_of;
use crate::netlists::{bits_of, ports_of};
use anyhow::{Context, Result};
use mcy_base::{Span, Text, Word};
use netlist_core::{Cell, Port, PortList, RawNetlist, Register};
use std::alloc::Global;

/// The input or output that the words give.
fn port(alloc: Global, words: &str) -> Result<Port> {
    let (name, bits) = words.split_once(' ').context("no bits")?;
    Ok(Port {
        name: Text::copy(alloc, name)?,
        bits: bits_of(alloc, bits)?,
    })
}

/// The place of each part in the source.
const PLACE: Span = Span {
    file: 0,
    line: 1,
    col: 1,
};

/// The register that the words give.
fn register(alloc: Global, words: &str) -> Result<Register> {
    let (name, rest) = words.split_once(' ').context("no D")?;
    let (d, q) = rest.split_once(' ').context("no Q")?;
    let q = bits_of(alloc, q)?;
    let width = u8::try_from(q.as_slice().len()).ok().context("no width")?;
    Ok(Register {
        name: Text::copy(alloc, name)?,
        span: PLACE,
        d: bits_of(alloc, d)?,
        q,
        start: Word::new(width, 0).context("no start value")?,
    })
}

/// The cell of the kind of this name.
fn cell(kind: &str, is_signed: bool, ports: PortList) -> Result<Cell> {
    Ok(Cell {
        kind: kind_of(kind).context("no statement")?,
        is_signed,
        ports,
        span: PLACE,
    })
}

/// Adds what a statement gives.
pub(crate) fn add_part(alloc: Global, raw: &mut RawNetlist, verb: &str, rest: &str) -> Result<()> {
    match verb {
        "input" => raw.inputs.push(port(alloc, rest)?)?,
        "output" => raw.outputs.push(port(alloc, rest)?)?,
        "register" => raw.registers.push(register(alloc, rest)?)?,
        "signed" => {
            let (kind, ports) = rest.split_once(' ').context("no ports")?;
            raw.cells.push(cell(kind, true, ports_of(alloc, ports)?)?)?;
        }
        _ => raw.cells.push(cell(verb, false, ports_of(alloc, rest)?)?)?,
    }
    Ok(())
}
