//! Reads short Verilog sources: as tokens, as trees, and as designs of several files. Prints what each says.
//!
//! A line `§ NAME` of standard input begins the table of that name, and is printed. Each other line is a row of its table:
//!
//! | table | row |
//! |---|---|
//! | `tokens` | A statement about the tokens of a text. |
//! | `trees` | A statement about the trees of a text. |
//! | `sources` | The files of a design. |
#![tactic(auto)]

mod sources;
mod tokens;
mod trees;

use anyhow::{Context, Result};

/// What the rows are.
#[derive(Clone, Copy)]
enum Table {
    Tokens,
    Trees,
    Sources,
}

/// The table of this name.
fn table_of(name: &str) -> Option<Table> {
    match name {
        "tokens" => Some(Table::Tokens),
        "trees" => Some(Table::Trees),
        "sources" => Some(Table::Sources),
        _ => None,
    }
}

/// Prints what a row says.
fn answer<R: Print + AllocGlobal>(rt: &R, table: Table, row: &str) -> Result<()> {
    match table {
        Table::Tokens => Ok(tokens::carry_out(rt, row)?),
        Table::Trees => Ok(trees::carry_out(rt, row)?),
        Table::Sources => sources::carry_out(rt, row),
    }
}

/// Begins a table, or prints what a row of this table says.
fn carry_out<R: Print + AllocGlobal>(rt: &R, table: Table, line: &str) -> Result<Table> {
    if let Some(name) = line.strip_prefix("§ ") {
        println!(rt; "{line}")?;
        return table_of(name).context("no table");
    }
    answer(rt, table, line)?;
    Ok(table)
}

fn main(rt: HostRuntime) -> Result<()> {
    let mut table = Table::Tokens;
    for line in rt.lines(rt.alloc()) {
        table = carry_out(&rt, table, line?.as_str())?;
    }
    Ok(())
}
