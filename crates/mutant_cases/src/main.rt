//! Tests pairs of netlists, and lists the mutation sites of netlists, their mutants and picks. Prints what comes of each.
//!
//! A line `§ NAME` of standard input begins the table of that name, and is printed. Each other line is a row of its table:
//!
//! | table | row |
//! |---|---|
//! | `pairs` | A statement about a pair of netlists. |
//! | `sites` | A statement about a netlist with sites. |
#![tactic(auto)]

mod kind;
mod netlists;
mod pairs;
mod sites;

use anyhow::{Context, Result};
use std::alloc::Global;

/// What the rows are.
#[derive(Clone, Copy)]
enum Table {
    Pairs,
    Sites,
}

/// What the rows so far have left.
#[derive(Drop)]
struct Cases {
    pair: pairs::Case,
    sheet: sites::Sheet,
}

impl Cases {
    /// There were no rows.
    fn new(alloc: Global) -> Result<Cases> {
        Ok(Cases {
            pair: pairs::Case::new(alloc)?,
            sheet: sites::Sheet::new(alloc)?,
        })
    }
}

/// The table of this name.
fn table_of(name: &str) -> Option<Table> {
    match name {
        "pairs" => Some(Table::Pairs),
        "sites" => Some(Table::Sites),
        _ => None,
    }
}

/// Prints what comes of a row.
fn answer<R: Print + AllocGlobal>(
    rt: &R,
    table: Table,
    cases: &mut Cases,
    row: &str,
) -> Result<()> {
    match table {
        Table::Pairs => pairs::carry_out(rt, &mut cases.pair, row),
        Table::Sites => sites::carry_out(rt, &mut cases.sheet, row),
    }
}

/// Begins a table, or prints what comes of a row of this table.
fn carry_out<R: Print + AllocGlobal>(
    rt: &R,
    table: Table,
    cases: &mut Cases,
    line: &str,
) -> Result<Table> {
    if let Some(name) = line.strip_prefix("§ ") {
        println!(rt; "{line}")?;
        return table_of(name).context("no table");
    }
    answer(rt, table, cases, line)?;
    Ok(table)
}

fn main(rt: HostRuntime) -> Result<()> {
    let mut table = Table::Pairs;
    let mut cases = Cases::new(rt.alloc())?;
    for line in rt.lines(rt.alloc()) {
        table = carry_out(&rt, table, &mut cases, line?.as_str())?;
    }
    Ok(())
}
