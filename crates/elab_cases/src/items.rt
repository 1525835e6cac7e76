//! Items over declared names: what is built of them, or why they are refused.
//!
//! A row is a statement. Signals are numbered as they are declared, and nets from the lowest bit of the first signal on.
//!
//! | statement | what it does |
//! |---|---|
//! | `wire NAME WIDTH LOW`, `reg NAME WIDTH LOW` | Declares the next signal, whose lowest bit has the declared number LOW. |
//! | `input NAME WIDTH LOW` | The same, and it is an input of the top. |
//! | `written NAME WIDTH LOW` | The same, and it has a writer outside the processes. |
//! | `constant NAME NUMBER` | Declares a constant of 32 bits. |
//! | `clock NAME` | The clock has this name, and the next `initial` may set it before its first wait. |
//! | `assign LEFT = RIGHT;` | Among assigns it builds the assignment, and prints how many cells it adds, or the refusal with its column. Among checks it prints the first fault of the assign of a testbench with its column, or that it has none. |
//! | `always STATEMENT`, `initial STATEMENT` | Among processes it prints the first refusal of the process with its column, or that it is accepted. Among checks the same of the first fault of a process of a testbench; where an `initial` sets the clock before its first wait, a later one may not. |
//! | `show NAME` | Prints to what each bit of the signal is joined, from its lowest bit on. |
//! | `end` | Forgets all that was said. |
//!
//! A line that begins with `#` is printed, and an empty one is left out.
ghost use Rattle.std.specs.Prelude.{OnOk};
ghost use Rattle.elab_cases.specs.Benches.{IsSound};

mod assigns;
mod checks;
mod processes;

use crate::bench::Bench;
use anyhow::{Context, Result, bail};
use assigns::{put_assign, put_joined};
use case_lines::Page;
use case_sources::{first_item, module_around};
use checks::put_check;
use processes::put_process;
use std::alloc::Global;

/// What is asked of items.
#[derive(Clone, Copy)]
pub(crate) enum Asked {
    /// What is built of assignments.
    Assigns,
    /// Why processes are refused.
    Processes,
    /// What is wrong in assigns and processes of testbenches.
    Checks,
}

/// Puts what is asked of the item that a line is.
fn put_item(
    alloc: Global,
    page: &mut Page,
    bench: &mut Bench,
    asked: Asked,
    line: &str,
) -> Result<()>
    requires { IsSound bench.old }
    ensures { OnOk result (IsSound bench.new) }
{
    let modules = module_around(alloc, line)?;
    let item = first_item(modules.as_slice()).context("no item")?;
    match asked {
        Asked::Assigns => put_assign(page, bench, item),
        Asked::Processes => put_process(alloc, page, bench, item),
        Asked::Checks => put_check(alloc, page, bench, item),
    }
}

/// Says something of names.
fn say(alloc: Global, bench: &mut Bench, verb: &str, words: &str) -> Result<()>
    requires { IsSound bench.old }
    ensures { OnOk result (IsSound bench.new) }
{
    match verb {
        "wire" | "reg" => bench.declare(words, false),
        "input" | "written" => bench.declare(words, true),
        "constant" => bench.constant(words),
        "clock" => bench.set_clock(alloc, words),
        "end" => {
            *bench = Bench::new(alloc);
            Ok(())
        }
        _ => bail!("no statement"),
    }
}

/// Carries out a statement.
pub(crate) fn carry_out(
    alloc: Global,
    page: &mut Page,
    bench: &mut Bench,
    asked: Asked,
    line: &str,
) -> Result<()>
    requires { IsSound bench.old }
    ensures { OnOk result (IsSound bench.new) }
{
    let (verb, rest) = line.split_once(' ').unwrap_or((line, ""));
    match verb {
        "" => Ok(()),
        "#" => {
            page.put_line(line);
            Ok(())
        }
        "assign" | "always" | "initial" => put_item(alloc, page, bench, asked, line),
        "show" => put_joined(page, bench, rest),
        _ => say(alloc, bench, verb, rest),
    }
}
