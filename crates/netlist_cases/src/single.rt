//! Netlists of one cell: what a row says of the cell, and the netlist.
use anyhow::{Context, Result, bail};
use mcy_base::{Items, Text};
use netlist_core::{Bit, BitList, Cell, CellKind, RawNetlist};
use netlist_rows::{PLACE, kind_of};
use std::alloc::{AllocError, Global};

/// What a row says of its cell: the kind, the sign, and the width of Y.
#[derive(Clone, Copy)]
pub(crate) struct Head {
    kind: CellKind,
    is_signed: bool,
    width: u8,
}

/// The head that the first words of a row give, and the other words.
pub(crate) fn head_of(line: &str) -> Result<(Head, &str)> {
    let (kind, rest) = line.split_once(' ').context("no sign")?;
    let (sign, rest) = rest.split_once(' ').context("no width")?;
    let (width, rest) = rest.split_once(' ').context("no port")?;
    let head = Head {
        kind: kind_of(kind).context("no kind")?,
        is_signed: match sign {
            "signed" => true,
            "unsigned" => false,
            _ => bail!("no sign"),
        },
        width: width.parse::<u8>().ok().context("no width")?,
    };
    Ok((head, rest))
}

/// The bits of a port of so many, as nets.
pub(crate) fn port(alloc: Global, width: u8) -> Result<BitList, AllocError> {
    Ok(Items::from_vec(vec![in alloc; Bit::Net(0); usize::from(width)]?))
}

/// A netlist of one cell with these bits at its input ports.
pub(crate) fn netlist(
    alloc: Global,
    head: Head,
    mut ports: Vec<BitList>,
) -> Result<RawNetlist, AllocError> {
    ports.push(port(alloc, head.width)?)?;
    let mut cells = Vec::new(alloc);
    cells.push(Cell {
        kind: head.kind,
        is_signed: head.is_signed,
        ports: Items::from_vec(ports),
        span: PLACE,
    })?;
    Ok(RawNetlist {
        top: Text::copy(alloc, "top")?,
        clock: None,
        inputs: Items::from_vec(Vec::new(alloc)),
        outputs: Items::from_vec(Vec::new(alloc)),
        registers: Items::from_vec(Vec::new(alloc)),
        cells: Items::from_vec(cells),
    })
}
