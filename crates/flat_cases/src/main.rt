//! Opens and flattens short Verilog designs. Prints what they declare, their items and their clocks.
//!
//! A line `§ NAME` of standard input begins the table of that name, and is printed. Each other line is a row of its table:
//!
//! | table | row |
//! |---|---|
//! | `scopes` | A source, whose first module is opened. |
//! | `items`, `clocks` | A line of a source, or what is asked of the lines before it. |
#![tactic(auto)]

mod designs;
mod refusals;
mod scopes;

use anyhow::{Context, Result};

/// What the rows are.
#[derive(Clone, Copy)]
enum Table {
    Scopes,
    Designs,
}

/// The table of this name.
fn table_of(name: &str) -> Option<Table> {
    match name {
        "scopes" => Some(Table::Scopes),
        "items" | "clocks" => Some(Table::Designs),
        _ => None,
    }
}

/// Prints what a row says. The source is that of a table of designs.
fn answer<R: Print + AllocGlobal>(
    rt: &R,
    table: Table,
    source: &mut String,
    row: &str,
) -> Result<()> {
    match table {
        Table::Scopes => Ok(scopes::carry_out(rt, row)?),
        Table::Designs => Ok(designs::carry_out(rt, source, row)?),
    }
}

/// Begins a table, or prints what a row of this table says.
fn carry_out<R: Print + AllocGlobal>(
    rt: &R,
    table: Table,
    source: &mut String,
    line: &str,
) -> Result<Table> {
    if let Some(name) = line.strip_prefix("§ ") {
        println!(rt; "{line}")?;
        return table_of(name).context("no table");
    }
    answer(rt, table, source, line)?;
    Ok(table)
}

fn main(rt: HostRuntime) -> Result<()> {
    let mut table = Table::Scopes;
    let mut source = String::new(rt.alloc());
    for line in rt.lines(rt.alloc()) {
        table = carry_out(&rt, table, &mut source, line?.as_str())?;
    }
    Ok(())
}
