//! Builds netlists as rows say.
//!
//! A row is a statement: a word, and what belongs to it, with one blank between words. K is a signal by its number, from 0, NET a
//! net by its number, and BIT a net, or `low` or `high` for a constant. Nets are numbered as signals and cells are made.
//!
//! | statement | what it does |
//! |---|---|
//! | `signal NAME WIDTH` | Declares the next signal. |
//! | `start K NUMBER` | Gives the signal a start value. |
//! | `join NET BIT` | Joins a net to a bit. |
//! | `register K D` | Adds a register with the signal's bits at Q, its start value, and the bits of the signal D at D. |
//! | `not K` | Adds a cell `not` that reads the signal. |
//! | `ask NET` | Prints whether the net is joined and to which bit, a bit of a register, or neither. |
//! | `input K`, `output K` | There is an input or output more, with the signal's name and bits. |
//! | `finish` | Prints the netlist, or the least net on a loop of joints, and begins another builder. |
//!
//! A line that begins with `#` is printed, and an empty one is left out.
mod parts;
mod told;

use anyhow::{Result, bail};
use case_lines::Page;
use mcy_base::Text;
use net_builder::{Builder, FinishError};
use netlist_core::Port;
use parts::{declare, invert, join, number_of, port_of, register, start};
use std::alloc::Global;
use std::mem;
use told::{put_asked, put_netlist};

/// A builder, and the ports of the netlist that is made of it.
pub(crate) struct Case {
    builder: Builder,
    inputs: Vec<Port>,
    outputs: Vec<Port>,
}

impl Drop for Case {
    fn drop(self) {
        let Case {
            builder: _builder,
            inputs: _inputs,
            outputs: _outputs,
        } = self;
    }
}

impl Case {
    pub(crate) fn new(alloc: Global) -> Case {
        Case {
            builder: Builder::new(alloc),
            inputs: Vec::new(alloc),
            outputs: Vec::new(alloc),
        }
    }
}

/// Takes the builder and the ports, and leaves others.
fn taken(alloc: Global, case: &mut Case) -> (Builder, Vec<Port>, Vec<Port>) {
    (
        mem::replace(&mut case.builder, Builder::new(alloc)),
        mem::replace(&mut case.inputs, Vec::new(alloc)),
        mem::replace(&mut case.outputs, Vec::new(alloc)),
    )
}

/// Puts the netlist, or that nets lead back to themselves.
fn finish(alloc: Global, page: &mut Page, case: &mut Case) -> Result<()> {
    let top = Text::copy(alloc, "top")?;
    let (builder, inputs, outputs) = taken(alloc, case);
    match builder.finish(top, None, inputs, outputs) {
        Ok(netlist) => put_netlist(page, &netlist),
        Err(FinishError::Loop(net)) => {
            page.put("loop ");
            page.put_number(net.into());
            page.put("\n");
        }
        Err(FinishError::Memory) => page.put_line("memory"),
    }
    Ok(())
}

/// Adds a port.
fn add_port(alloc: Global, builder: &Builder, ports: &mut Vec<Port>, words: &str) -> Result<()> {
    Ok(ports.push(port_of(alloc, builder, words)?)?)
}

/// Adds what a statement gives.
fn add(alloc: Global, case: &mut Case, verb: &str, rest: &str) -> Result<()> {
    match verb {
        "signal" => declare(&mut case.builder, rest),
        "start" => start(&mut case.builder, rest),
        "join" => join(&mut case.builder, rest),
        "register" => register(alloc, &mut case.builder, rest),
        "not" => invert(alloc, &mut case.builder, rest),
        "input" => add_port(alloc, &case.builder, &mut case.inputs, rest),
        "output" => add_port(alloc, &case.builder, &mut case.outputs, rest),
        _ => bail!("no statement"),
    }
}

/// Carries out a statement.
pub(crate) fn carry_out(alloc: Global, page: &mut Page, case: &mut Case, line: &str) -> Result<()> {
    let (verb, rest) = line.split_once(' ').unwrap_or((line, ""));
    match verb {
        "" => Ok(()),
        "#" => {
            page.put_line(line);
            Ok(())
        }
        "ask" => {
            put_asked(page, &case.builder, number_of(rest)?);
            Ok(())
        }
        "finish" => finish(alloc, page, case),
        _ => add(alloc, case, verb, rest),
    }
}
