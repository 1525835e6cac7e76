//! Builds netlists, expressions and items as rows say, and prints what is built or refused.
//!
//! A line `§ NAME` of standard input begins the table of that name, and is printed. Each other line is a row of its table:
//!
//! | table | row |
//! |---|---|
//! | `builders` | A statement of `builders`. |
//! | `expressions` | An expression as `expression_rows` has it, of which the value is printed that its cells compute. |
//! | `assigns`, `processes`, `checks` | A statement of `items`. |
#![tactic(auto)]

ghost use Rattle.std.specs.Prelude.{OnOk};
ghost use Rattle.elab_cases.specs.Benches.{IsSound};

mod bench;
mod builders;
mod expressions;
mod items;
mod told;

use anyhow::{Context, Result};
use bench::Bench;
use builders::Case;
use case_lines::Page;
use expressions::put_value;
use items::Asked;
use std::alloc::Global;

/// What the rows are.
#[derive(Clone, Copy)]
enum Table {
    Builders,
    Expressions,
    Items(Asked),
}

/// The table of this name.
fn table_of(name: &str) -> Option<Table> {
    match name {
        "builders" => Some(Table::Builders),
        "expressions" => Some(Table::Expressions),
        "assigns" => Some(Table::Items(Asked::Assigns)),
        "processes" => Some(Table::Items(Asked::Processes)),
        "checks" => Some(Table::Items(Asked::Checks)),
        _ => None,
    }
}

/// Puts what comes of a row.
fn put_answer(
    alloc: Global,
    page: &mut Page,
    case: &mut Case,
    bench: &mut Bench,
    table: Table,
    row: &str,
) -> Result<()>
    requires { IsSound bench.old }
    ensures { OnOk result (IsSound bench.new) }
{
    match table {
        Table::Builders => builders::carry_out(alloc, page, case, row),
        Table::Expressions => {
            put_value(alloc, page, row);
            Ok(())
        }
        Table::Items(asked) => items::carry_out(alloc, page, bench, asked, row),
    }
}

/// Begins a table, or prints what comes of a row of this table.
fn carry_out<R: Print + AllocGlobal>(
    rt: &R,
    case: &mut Case,
    bench: &mut Bench,
    table: Table,
    line: &str,
) -> Result<Table>
    requires { IsSound bench.old }
    ensures { OnOk result (IsSound bench.new) }
{
    if let Some(name) = line.strip_prefix("§ ") {
        println!(rt; "{line}")?;
        return table_of(name).context("no table");
    }
    let mut page = Page::new(rt.alloc());
    put_answer(rt.alloc(), &mut page, case, bench, table, line)?;
    print!(rt; "{}", page.text())?;
    Ok(table)
}

fn main(rt: HostRuntime) -> Result<()> {
    let mut table = Table::Builders;
    let mut case = Case::new(rt.alloc());
    let mut bench = Bench::new(rt.alloc());
    for line in rt.lines(rt.alloc()) {
        table = carry_out(&rt, &mut case, &mut bench, table, line?.as_str())?;
    }
    Ok(())
}
