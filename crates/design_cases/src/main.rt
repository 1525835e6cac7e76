//! Elaborates short Verilog sources, prints their netlists or what is refused, and runs them; and simulates testbenches with their
//! designs, and prints their transcripts or why they are refused.
//!
//! A line of standard input is a line of a source, but for these:
//!
//! | line | what it does |
//! |---|---|
//! | `elaborate TOP` | Makes the netlist of the lines before it with this top, and prints what is refused. |
//! | `netlist TOP` | The same, and prints the clock, the ports, the registers and the cells. |
//! | `step NUMBER ..` | Settles the nets of the last netlist for these inputs, prints the outputs, and gives each register its D. |
//! | `simulate BENCH TOP SEED CYCLES` | Simulates the module BENCH of the lines before it with the design of this top, for at most so many cycles, with the words of `$random` by the seed. It prints the transcript, and whether `$finish` was reached, or why the bench is refused. |
//! | `look BENCH TOP` | Prints the first reason why an item of the module BENCH is refused, as a testbench of the design of this top, or that none is. |
//! | `# ..` | It is printed. |
//! | `§ ..` | It is printed, and begins the table of this name. |
//!
//! The next line behind one that takes a source, and that is none of these, is the first of another source.
#![tactic(auto)]

mod benches;
mod designs;

use anyhow::Result;
use benches::{look, simulate};
use case_lines::Page;
use cycle_sim::Sim;
use designs::{sim_of, step};
use std::alloc::Global;

/// A source that is read, and the simulator of the netlist before it.
#[derive(Drop)]
struct Case {
    source: String,
    sim: Option<Sim>,
}

/// Puts what a line asks of the source before it.
fn put_answer(
    alloc: Global,
    page: &mut Page,
    case: &mut Case,
    verb: &str,
    words: &str,
) -> Result<()> {
    let text = case.source.as_str();
    match verb {
        "elaborate" => case.sim = sim_of(alloc, page, text, words, false)?,
        "netlist" => case.sim = sim_of(alloc, page, text, words, true)?,
        "simulate" => simulate(alloc, page, text, words)?,
        _ => look(alloc, page, text, words)?,
    }
    case.source = String::new(alloc);
    Ok(())
}

/// Adds a line to a source.
fn add(source: &mut String, line: &str) -> Result<()> {
    source.push_str(line)?;
    source.push_str("\n")?;
    Ok(())
}

/// Makes a step of the last netlist; where there is none, the line is one of a source.
fn put_step(
    alloc: Global,
    page: &mut Page,
    case: &mut Case,
    line: &str,
    numbers: &str,
) -> Result<()> {
    match &mut case.sim {
        Some(sim) => step(alloc, page, sim, numbers),
        None => add(&mut case.source, line),
    }
}

/// Carries out a line.
fn carry_out(alloc: Global, page: &mut Page, case: &mut Case, line: &str) -> Result<()> {
    let (verb, rest) = line.split_once(' ').unwrap_or((line, ""));
    match verb {
        "elaborate" | "netlist" | "simulate" | "look" => put_answer(alloc, page, case, verb, rest),
        "step" => put_step(alloc, page, case, line, rest),
        "#" | "§" => {
            page.put_line(line);
            Ok(())
        }
        _ => add(&mut case.source, line),
    }
}

/// Prints what comes of a line.
fn answer<R: Print + AllocGlobal>(rt: &R, case: &mut Case, line: &str) -> Result<()> {
    let mut page = Page::new(rt.alloc());
    carry_out(rt.alloc(), &mut page, case, line)?;
    Ok(print!(rt; "{}", page.text())?)
}

/// Prints what comes of all lines.
fn answer_all<R: Print + Input + AllocGlobal>(rt: &R, case: &mut Case) -> Result<()> {
    for line in rt.lines(rt.alloc()) {
        answer(rt, case, line?.as_str())?;
    }
    Ok(())
}

fn main(rt: HostRuntime) -> Result<()> {
    let mut case = Case {
        source: String::new(rt.alloc()),
        sim: None,
    };
    answer_all(&rt, &mut case)
}
