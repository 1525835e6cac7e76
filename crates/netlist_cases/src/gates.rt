//! Cells as they are made of gates: what the gates of the cell in a row are worth, how many they are, and which, where they are few.
ghost use Rattle.std.specs.Prelude.{◌≡◌, IsTrue, All, length, map};
ghost use Rattle.netlist_core.specs.Runs.{input_ports};
ghost use Rattle.netlist_core.specs.Shapes.{widths};
ghost use Rattle.gate_list.specs.Gates.{count, IsLit};

use crate::givens::{Given, given_of};
use crate::single::{Head, head_of, netlist, port};
use crate::worth::{gate_value, number};
use anyhow::{Context, Result, bail};
use cell_gates::{GateBits, GateError, cell_gates};
use gate_list::{Gate, GateList, GateLit};
use mcy_base::Items;
use netlist_core::{BitList, RawNetlist, has_shape, is_formed};
use std::alloc::{AllocError, Global};
use std::io;

/// How many free bits a list has at most.
const MAX_FREE: usize = 2048;

/// How many gates are printed at most.
const MAX_SHOWN: u32 = 40;

/// Whether a row is as wide as a port.
fn is_as_wide(bits: &GateBits, port: &BitList) -> bool
    ensures { IsTrue result → length bits.now ≡ length port.now }
{
    bits.as_slice().len() == port.as_slice().len()
}

/// Whether there is a row for each input port, of its width.
fn fit(ports: &[BitList], inputs: &[GateBits]) -> bool
    ensures { IsTrue result → map length inputs.now ≡ widths (input_ports ports.now) }
{
    match (ports, inputs) {
        ([first, _], [a]) => is_as_wide(a, first),
        ([first, second, _], [a, b]) => is_as_wide(a, first) && is_as_wide(b, second),
        ([first, second, third, _], [a, b, d]) => {
            is_as_wide(a, first) && is_as_wide(b, second) && is_as_wide(d, third)
        }
        _ => false,
    }
}

/// Whether all literals of a row name variables that there are.
fn has_all(gates: &GateList, bits: &[GateLit]) -> bool
    ensures { IsTrue result → All (IsLit (count gates.now)) bits.now }
{
    bits.iter().all(|bit| gates.has(*bit))
}

/// Whether all literals of all rows do.
fn has_rows(gates: &GateList, inputs: &[GateBits]) -> bool
    ensures { IsTrue result → All (All (IsLit (count gates.now))) inputs.now }
{
    inputs.iter().all(|bits| has_all(gates, bits.as_slice()))
}

/// The literals of Y of the only cell of a netlist, where these rows fit its input ports.
fn made(
    alloc: Global,
    raw: &RawNetlist,
    inputs: &[GateBits],
    gates: &mut GateList,
) -> Option<Result<GateBits, GateError>> {
    if !is_formed(raw) {
        return None;
    }
    match raw.cells.as_slice() {
        [cell] => {
            if !has_shape(cell) {
                return None;
            }
            if !fit(cell.ports.as_slice(), inputs) {
                return None;
            }
            if !has_rows(gates, inputs) {
                return None;
            }
            Some(cell_gates(alloc, cell, inputs, gates))
        }
        _ => None,
    }
}

/// Prints a gate.
fn tell_gate<R: Print>(rt: &R, gate: Gate) -> io::Result<()> {
    match gate {
        Gate::And { a, b } => println!(rt; "and {a} {b}"),
        Gate::Xor { a, b } => println!(rt; "xor {a} {b}"),
        Gate::Mux { s, a, b } => println!(rt; "mux {s} {a} {b}"),
    }
}

/// Adds what the gates are worth to the values of the free bits.
fn add_values(gates: &GateList, values: &mut Vec<bool>) -> Result<()> {
    for number in 0..gates.len() {
        let bit = gate_value(values, gates.gate(number)).context("no such variable")?;
        values.push(bit)?;
    }
    Ok(())
}

/// Prints the gates, where they are few.
fn tell_few<R: Print>(rt: &R, gates: &GateList) -> io::Result<()> {
    if gates.len() <= MAX_SHOWN {
        for number in 0..gates.len() {
            tell_gate(rt, gates.gate(number))?;
        }
    }
    Ok(())
}

/// Prints what the literals of Y are worth, how many gates there are, and these where they are few.
fn tell<R: Print>(
    rt: &R,
    gates: &GateList,
    values: &mut Vec<bool>,
    bits: &[GateLit],
) -> Result<()> {
    add_values(gates, values)?;
    let number = number(values, bits).context("no such variable")?;
    println!(rt; "{number} {}", gates.len())?;
    Ok(tell_few(rt, gates)?)
}

/// Prints what came of a cell.
fn tell_answer<R: Print>(
    rt: &R,
    gates: &GateList,
    values: &mut Vec<bool>,
    answer: &Option<Result<GateBits, GateError>>,
) -> Result<()> {
    match answer {
        Some(Ok(bits)) => tell(rt, gates, values, bits.as_slice()),
        Some(Err(GateError::TooMany)) => bail!("too many gates"),
        Some(Err(GateError::Memory)) => bail!("no memory"),
        None => bail!("the ports do not fit the cell"),
    }
}

/// Makes the cell of a netlist with these rows at its input ports, and prints what came of it.
fn tell_made<R: Print + AllocGlobal>(
    rt: &R,
    raw: &RawNetlist,
    rows: &[GateBits],
    values: &mut Vec<bool>,
) -> Result<()> {
    let free = values.len();
    if free > MAX_FREE {
        bail!("too many bits");
    }
    let mut gates = GateList::new(rt.alloc(), free as u32);
    let answer = made(rt.alloc(), raw, rows, &mut gates);
    tell_answer(rt, &gates, values, &answer)
}

/// The ports of a row.
fn givens_of(alloc: Global, line: &str) -> Result<Vec<Given>> {
    let mut givens = Vec::new(alloc);
    for text in line.split(' ') {
        givens.push(given_of(text).context("no port")?)?;
    }
    Ok(givens)
}

/// The bits at ports of these widths.
fn ports_of(alloc: Global, givens: &[Given]) -> Result<Vec<BitList>, AllocError> {
    let mut ports = Vec::new(alloc);
    for given in givens {
        ports.push(port(alloc, given.width)?)?;
    }
    Ok(ports)
}

/// The last of the rows, or an empty one where there is none.
fn last_of<'a>(rows: &'a [GateBits]) -> &'a [GateLit] {
    match rows.last() {
        Some(row) => row.as_slice(),
        None => &[],
    }
}

/// Adds the row at a port behind those before. The values of its free bits are added to the values.
fn add_row(
    alloc: Global,
    rows: &mut Vec<GateBits>,
    port: &Given,
    values: &mut Vec<bool>,
) -> Result<()> {
    let literals = port.literals(alloc, last_of(rows.as_slice()), values)?;
    Ok(rows.push(Items::from_vec(literals))?)
}

/// The rows at the input ports. The values of their free bits are added to the values.
fn rows(alloc: Global, givens: &[Given], values: &mut Vec<bool>) -> Result<Vec<GateBits>> {
    let mut rows = Vec::new(alloc);
    for port in givens {
        add_row(alloc, &mut rows, port, values)?;
    }
    Ok(rows)
}

/// Prints what the gates of a cell with these input ports are.
fn tell_given<R: Print + AllocGlobal>(rt: &R, head: Head, givens: &[Given]) -> Result<()> {
    let alloc = rt.alloc();
    let mut values = Vec::new(alloc);
    let rows = rows(alloc, givens, &mut values)?;
    let raw = netlist(alloc, head, ports_of(alloc, givens)?)?;
    tell_made(rt, &raw, rows.as_slice(), &mut values)
}

/// Prints what the gates of the cell in a row are.
pub(crate) fn tell_gates<R: Print + AllocGlobal>(rt: &R, line: &str) -> Result<()> {
    let (head, rest) = head_of(line)?;
    let givens = givens_of(rt.alloc(), rest)?;
    tell_given(rt, head, givens.as_slice())
}
