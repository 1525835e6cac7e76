//! Makes gates and clauses, adds lemmas to logs, searches for models, and reads site texts. Prints what comes of each.
//!
//! A line `§ NAME` of standard input begins the table of that name, and is printed. Each other line is a row of its table:
//!
//! | table | row |
//! |---|---|
//! | `lemmas` | A statement about a log of lemmas. |
//! | `gates` | A statement about a list of gates. |
//! | `searches` | A statement about the clauses of a search. |
//! | `texts` | A site text. |
#![tactic(auto)]

mod gates;
mod lemmas;
mod literals;
mod searches;
mod texts;

use anyhow::{Context, Result};
use clause_store::ClauseStore;
use gate_list::GateList;
use std::alloc::Global;

/// What the rows are.
#[derive(Clone, Copy)]
enum Table {
    Lemmas,
    Gates,
    Searches,
    Texts,
}

/// What the rows so far have left.
#[derive(Drop)]
struct Cases {
    log: lemmas::Case,
    gates: GateList,
    clauses: ClauseStore,
}

impl Cases {
    /// There were no rows.
    fn new(alloc: Global) -> Cases {
        Cases {
            log: lemmas::Case::new(alloc),
            gates: GateList::new(alloc, 0),
            clauses: ClauseStore::new(alloc),
        }
    }
}

/// The table of this name.
fn table_of(name: &str) -> Option<Table> {
    match name {
        "lemmas" => Some(Table::Lemmas),
        "gates" => Some(Table::Gates),
        "searches" => Some(Table::Searches),
        "texts" => Some(Table::Texts),
        _ => None,
    }
}

/// Prints what comes of a row.
fn answer<R: Print + AllocGlobal>(
    rt: &R,
    table: Table,
    cases: &mut Cases,
    row: &str,
) -> Result<()> {
    match table {
        Table::Lemmas => lemmas::carry_out(rt, &mut cases.log, row),
        Table::Gates => gates::carry_out(rt, &mut cases.gates, row),
        Table::Searches => searches::carry_out(rt, &mut cases.clauses, row),
        Table::Texts => texts::carry_out(rt, row),
    }
}

/// Begins a table, or prints what comes of a row of this table.
fn carry_out<R: Print + AllocGlobal>(
    rt: &R,
    table: Table,
    cases: &mut Cases,
    line: &str,
) -> Result<Table> {
    if let Some(name) = line.strip_prefix("§ ") {
        println!(rt; "{line}")?;
        return table_of(name).context("no table");
    }
    answer(rt, table, cases, line)?;
    Ok(table)
}

fn main(rt: HostRuntime) -> Result<()> {
    let mut table = Table::Lemmas;
    let mut cases = Cases::new(rt.alloc());
    for line in rt.lines(rt.alloc()) {
        table = carry_out(&rt, table, &mut cases, line?.as_str())?;
    }
    Ok(())
}
