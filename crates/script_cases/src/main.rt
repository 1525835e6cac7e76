//! Takes lines of scripts apart, and reads tag scripts, reports and project files, as the tables of standard input list them, and prints
//! what each says.
//!
//! A line `§ NAME` begins the table of that name, and is printed. Each other line is a row of its table:
//!
//! | table | row |
//! |---|---|
//! | `script lines` | A line of a script, of which the indentation and the tokens are printed. |
//! | `tag lines` | A line of a tag script. |
//! | `tag scripts` | A tag script, with `^` between its lines. |
//! | `reports` | A report, with `^` between its lines. |
//! | `project files` | A project file, with `\` before the two hexadecimal digits of a byte, or a remark. |
#![tactic(auto)]

mod bytes;
mod exprs;
mod files;
mod heads;
mod projects;
mod reports;
mod scripts;
mod statements;
mod texts;
mod tokens;

use anyhow::{Context, Result};
use files::tell_project;
use heads::tell_head;
use reports::tell_report;
use scripts::tell_script;
use tokens::tell_tokens;

/// What the rows are.
#[derive(Clone, Copy)]
enum Table {
    ScriptLines,
    TagLines,
    TagScripts,
    Reports,
    ProjectFiles,
}

/// The table of this name.
fn table_of(name: &str) -> Option<Table> {
    match name {
        "script lines" => Some(Table::ScriptLines),
        "tag lines" => Some(Table::TagLines),
        "tag scripts" => Some(Table::TagScripts),
        "reports" => Some(Table::Reports),
        "project files" => Some(Table::ProjectFiles),
        _ => None,
    }
}

/// Prints what a row says.
fn answer<R: Print + AllocGlobal>(rt: &R, table: Table, row: &str) -> Result<()> {
    match table {
        Table::ScriptLines => tell_tokens(rt, row),
        Table::TagLines => tell_head(rt, row),
        Table::TagScripts => tell_script(rt, row),
        Table::Reports => tell_report(rt, row),
        Table::ProjectFiles => tell_project(rt, row),
    }
}

/// Begins a table, or prints what a row of this table says.
fn carry_out<R: Print + AllocGlobal>(rt: &R, table: Table, line: &str) -> Result<Table> {
    if let Some(name) = line.strip_prefix("§ ") {
        println!(rt; "{line}")?;
        return table_of(name).context("no table");
    }
    answer(rt, table, line)?;
    Ok(table)
}

fn main(rt: HostRuntime) -> Result<()> {
    let mut table = Table::ScriptLines;
    for line in rt.lines(rt.alloc()) {
        table = carry_out(&rt, table, line?.as_str())?;
    }
    Ok(())
}
