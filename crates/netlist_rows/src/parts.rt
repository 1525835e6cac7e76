//! The parts of a netlist, as statements add them.
//!
//! | statement | what it does |
//! |---|---|
//! | `input BITS` | There is an input more. |
//! | `output BITS` | There is an output more. |
//! | `register WIDTH D Q`, `register WIDTH START D Q` | There is a register more, with these bits at D and Q; its start value is 0 where none is given. |
//! | `KIND BITS ..`, `signed KIND BITS ..` | There is a cell more, with these bits at its ports, Y last. |
use crate::ports::{bits_of, cell, port};
use anyhow::{Context, Result, bail};
use mcy_base::{Items, Span, Text, Word};
use netlist_core::{Cell, Netlist, Port, RawNetlist, Register, is_formed};
use std::alloc::Global;

/// The start value of this width.
fn start_of(width: &str, number: &str) -> Option<Word> {
    Word::new(width.parse::<u8>().ok()?, number.parse::<u128>().ok()?)
}

/// What the words of a register are.
#[derive(Clone, Copy)]
struct Words<'a> {
    width: &'a str,
    start: &'a str,
    d: &'a str,
    q: &'a str,
}

/// The words of a register.
fn words_of(words: &str) -> Option<Words<'_>> {
    let (width, rest) = words.split_once(' ')?;
    let (first, rest) = rest.split_once(' ')?;
    let (start, d, q) = match rest.split_once(' ') {
        Some((d, q)) => (first, d, q),
        None => ("0", first, rest),
    };
    Some(Words { width, start, d, q })
}

/// The register of these words.
fn made(alloc: Global, span: Span, start: Word, words: Words<'_>) -> Result<Register> {
    Ok(Register {
        name: Text::copy(alloc, "state")?,
        span,
        d: bits_of(alloc, words.d)?,
        q: bits_of(alloc, words.q)?,
        start,
    })
}

/// The register that the words give.
fn register(alloc: Global, span: Span, words: &str) -> Result<Register> {
    let words = words_of(words).context("no register")?;
    let start = start_of(words.width, words.start).context("no start value")?;
    made(alloc, span, start, words)
}

/// The cell of these words, the first of which is `signed` or the kind.
fn cell_of(alloc: Global, span: Span, verb: &str, rest: &str) -> Result<Cell> {
    if verb == "signed" {
        let (kind, ports) = rest.split_once(' ').context("no ports")?;
        return cell(alloc, kind, true, span, ports);
    }
    cell(alloc, verb, false, span, rest)
}

/// Adds an input or an output.
fn add_port(alloc: Global, ports: &mut Items<Port>, bits: &str) -> Result<()> {
    Ok(ports.push(port(alloc, "port", bits)?)?)
}

/// Adds a register.
fn add_register(alloc: Global, raw: &mut RawNetlist, span: Span, words: &str) -> Result<()> {
    Ok(raw.registers.push(register(alloc, span, words)?)?)
}

/// Adds a cell.
fn add_cell(alloc: Global, raw: &mut RawNetlist, span: Span, verb: &str, rest: &str) -> Result<()> {
    Ok(raw.cells.push(cell_of(alloc, span, verb, rest)?)?)
}

/// Adds what a statement gives, at a place in the sources.
pub fn add_part(
    alloc: Global,
    raw: &mut RawNetlist,
    span: Span,
    verb: &str,
    rest: &str,
) -> Result<()> {
    match verb {
        "input" => add_port(alloc, &mut raw.inputs, rest),
        "output" => add_port(alloc, &mut raw.outputs, rest),
        "register" => add_register(alloc, raw, span, rest),
        _ => add_cell(alloc, raw, span, verb, rest),
    }
}

/// The netlist of these parts.
pub fn netlist_of(alloc: Global, raw: RawNetlist) -> Result<Netlist> {
    if is_formed(&raw) {
        Netlist::check(alloc, raw).ok().context("no netlist")
    } else {
        bail!("not formed")
    }
}
