//! Rows of inverters.
use anyhow::{Context, Result};
use mcy_base::Items;
use netlist_core::{BitList, Cell, CellKind, PortList, RawNetlist};
use netlist_rows::{PLACE, add_nets, number_of};
use std::alloc::{AllocError, Global};

/// A cell that inverts, with these bits at its ports.
fn inverter(ports: PortList) -> Cell {
    Cell {
        kind: CellKind::Not,
        is_signed: false,
        ports,
        span: PLACE,
    }
}

/// So many nets from one on.
fn nets_from(alloc: Global, first: u32, width: u32) -> Result<BitList, AllocError> {
    let mut bits = Items::from_vec(Vec::new(alloc));
    add_nets(
        &mut bits,
        first,
        first.saturating_add(width.saturating_sub(1)),
    )?;
    Ok(bits)
}

/// Adds an inverter that reads the nets from one on, and drives those from another on.
fn add_inverter(
    alloc: Global,
    raw: &mut RawNetlist,
    from: u32,
    to: u32,
    width: u32,
) -> Result<(), AllocError> {
    let mut ports = Items::from_vec(Vec::new(alloc));
    ports.push(nets_from(alloc, from, width)?)?;
    ports.push(nets_from(alloc, to, width)?)?;
    raw.cells.push(inverter(ports))
}

/// Adds inverters, each of which reads the one before it, or all of which read the first nets.
pub(crate) fn add_inverters(
    alloc: Global,
    raw: &mut RawNetlist,
    is_chain: bool,
    words: &str,
) -> Result<()> {
    let (count, width) = words.split_once(' ').context("no width")?;
    let width = number_of(width)?;
    let mut net: u32 = 0;
    for _ in 0..number_of(count)? {
        let next = net.saturating_add(width);
        add_inverter(alloc, raw, if is_chain { net } else { 0 }, next, width)?;
        net = next;
    }
    Ok(())
}
