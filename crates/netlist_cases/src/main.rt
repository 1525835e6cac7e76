//! Checks and simulates the netlists that the tables of standard input describe, computes cells, and makes them of gates.
//!
//! A line `§ NAME` begins the table of that name, and is printed. Each other line is a row of its table:
//!
//! | table | row |
//! |---|---|
//! | `netlists`, `netlists that run` | A statement, as below. |
//! | `cells` | A kind, the sign, the width of Y, and for each input port its width and its number, as `add unsigned 8 8:255 8:1`, of which the number at Y is printed. |
//! | `gates` | The same, with `:` before free bits, `=` before constants, and `~` before the bits of the port before, of which the number at Y, the number of gates, and the gates themselves are printed where there are at most 40. |
//!
//! A statement is a word, and what belongs to it, with one blank between words. `netlist_rows` has those that add parts and what BITS are.
//!
//! | statement | what it does |
//! |---|---|
//! | `chain COUNT WIDTH` | There are so many inverters of this width more. The first reads the nets from 0 on, each other one the Y of the one before; their Y are the nets that follow, in order. |
//! | `fan COUNT WIDTH` | The same, where all read the nets from 0 on. |
//! | `check` | Checks the netlist, and begins another one. Prints why it is refused, or of a copy the free bits and the order of the cells, where `5..8` stands for the cells from 5 to 8. |
//! | `start` | Makes the simulator of the netlist, prints the registers, and begins another netlist. |
//! | `settle NUMBER ..` | Settles the nets for these inputs, and prints the outputs. |
//! | `clock` | Gives each register its D, and prints the outputs and the registers. |
//! | `step NUMBER ..` | Does both, and prints the outputs and the registers. |
//! | `end` | Lets go of the simulator. |
//!
//! Among statements a line that begins with `#` is printed, and an empty one is left out.
#![tactic(auto)]

mod cells;
mod checks;
mod cycles;
mod gates;
mod givens;
mod inverters;
mod sheet;
mod single;
mod worth;

use anyhow::{Context, Result};
use cells::tell_cell;
use gates::tell_gates;
use sheet::Sheet;

/// What the rows are.
#[derive(Clone, Copy)]
enum Table {
    Netlists,
    Cells,
    Gates,
}

/// The table of this name.
fn table_of(name: &str) -> Option<Table> {
    match name {
        "netlists" | "netlists that run" => Some(Table::Netlists),
        "cells" => Some(Table::Cells),
        "gates" => Some(Table::Gates),
        _ => None,
    }
}

/// Carries out a row.
fn answer<R: Print + AllocGlobal>(
    rt: &R,
    sheet: &mut Sheet,
    table: Table,
    row: &str,
) -> Result<()> {
    match table {
        Table::Netlists => sheet::carry_out(rt, sheet, row),
        Table::Cells => tell_cell(rt, row),
        Table::Gates => tell_gates(rt, row),
    }
}

/// Begins a table, or carries out a row of this one.
fn carry_out<R: Print + AllocGlobal>(
    rt: &R,
    sheet: &mut Sheet,
    table: Table,
    line: &str,
) -> Result<Table> {
    if let Some(name) = line.strip_prefix("§ ") {
        println!(rt; "{line}")?;
        return table_of(name).context("no table");
    }
    answer(rt, sheet, table, line)?;
    Ok(table)
}

/// Carries out all lines.
fn carry_out_all<R: Print + Input + AllocGlobal>(rt: &R, sheet: &mut Sheet) -> Result<()> {
    let mut table = Table::Netlists;
    for line in rt.lines(rt.alloc()) {
        table = carry_out(rt, sheet, table, line?.as_str())?;
    }
    Ok(())
}

fn main(rt: HostRuntime) -> Result<()> {
    let mut sheet = Sheet::new(rt.alloc())?;
    carry_out_all(&rt, &mut sheet)
}
