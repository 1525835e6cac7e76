//! Computes expressions and assignments, and prints values by format texts.
//!
//! A line `§ NAME` of standard input begins the table of that name, and is printed. Each other line is a row of its table:
//!
//! | table | row |
//! |---|---|
//! | `constants` | A constant expression as `expression_rows` has it, of which the value is printed. |
//! | `draws` | The seed of `$random`, the number of the phase and an expression of a testbench, of which three evaluations are printed, one after the other. |
//! | `updates` | An assignment of a testbench, after which the values of four signals are printed. |
//! | `formats` | The sign of a value, its width and its number, and a format text, as `signed 8:255 <%d>`. Each format of the text is given this value, and `%s` the string `word`. |
//!
//! The signals of the second and the third table are `a`, which is 8'd200 and has the range [9:2], `b`, which is -8'sd3, `c`, which is
//! 4'd9, and `d`, which is 64'h0123456789abcdef. They have these values before each row.
#![tactic(auto)]

mod constants;
mod draws;
mod formats;
mod signals;
mod updates;

use anyhow::{Context, Result};
use case_lines::Page;
use constants::put_constant;
use draws::put_draws;
use formats::put_format;
use signals::Signals;
use std::alloc::Global;
use updates::put_updates;

/// What the rows are.
#[derive(Clone, Copy)]
enum Table {
    Constants,
    Draws,
    Updates,
    Formats,
}

/// The table of this name.
fn table_of(name: &str) -> Option<Table> {
    match name {
        "constants" => Some(Table::Constants),
        "draws" => Some(Table::Draws),
        "updates" => Some(Table::Updates),
        "formats" => Some(Table::Formats),
        _ => None,
    }
}

/// Puts what comes of a row.
fn put_answer(
    alloc: Global,
    page: &mut Page,
    signals: &Signals,
    table: Table,
    row: &str,
) -> Result<()> {
    match table {
        Table::Constants => {
            put_constant(alloc, page, row);
            Ok(())
        }
        Table::Draws => put_draws(alloc, page, signals, row),
        Table::Updates => put_updates(alloc, page, signals, row),
        Table::Formats => put_format(alloc, page, row),
    }
}

/// Begins a table, or prints what comes of a row of this table.
fn carry_out<R: Print + AllocGlobal>(
    rt: &R,
    signals: &Signals,
    table: Table,
    line: &str,
) -> Result<Table> {
    if let Some(name) = line.strip_prefix("§ ") {
        println!(rt; "{line}")?;
        return table_of(name).context("no table");
    }
    let mut page = Page::new(rt.alloc());
    put_answer(rt.alloc(), &mut page, signals, table, line)?;
    print!(rt; "{}", page.text())?;
    Ok(table)
}

/// Carries out all lines.
fn carry_out_all<R: Print + Input + AllocGlobal>(rt: &R, signals: &Signals) -> Result<()> {
    let mut table = Table::Constants;
    for line in rt.lines(rt.alloc()) {
        table = carry_out(rt, signals, table, line?.as_str())?;
    }
    Ok(())
}

fn main(rt: HostRuntime) -> Result<()> {
    let signals = Signals::new(rt.alloc())?;
    carry_out_all(&rt, &signals)
}
