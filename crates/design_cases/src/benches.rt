//! Testbenches with their designs: their transcripts, or why they are refused.
use anyhow::{Context, Result};
use case_lines::Page;
use case_sources::{module_named, modules_of};
use elab_hier::elaborate;
use netlist_core::Netlist;
use std::alloc::Global;
use tb_faults::BenchError;
use tb_reading::read_bench;
use tb_runner::{Transcript, transcript};
use vlog_syntax::Module;

/// The name of a bench and of the top of its design.
#[derive(Clone, Copy)]
struct Names<'a> {
    bench: &'a str,
    top: &'a str,
}

/// The words of `$random`, and how many cycles there are at most.
#[derive(Clone, Copy)]
struct Run {
    seed: u64,
    cycles: u32,
}

/// The names that words begin with, and the other words.
fn names_in(words: &str) -> Result<(Names<'_>, &str)> {
    let (bench, rest) = words.split_once(' ').context("no top")?;
    let (top, rest) = rest.split_once(' ').unwrap_or((rest, ""));
    Ok((Names { bench, top }, rest))
}

/// The run that words give.
fn run_in(words: &str) -> Result<Run> {
    let (seed, cycles) = words.split_once(' ').context("no cycles")?;
    Ok(Run {
        seed: seed.parse::<u64>().ok().context("no seed")?,
        cycles: cycles.parse::<u32>().ok().context("no cycles")?,
    })
}

/// The netlist of a design.
fn netlist_of(alloc: Global, modules: &[Module], top: &str) -> Result<Netlist> {
    elaborate(alloc, modules, top).ok().context("no design")
}

/// Puts why a bench is refused.
fn put_error(alloc: Global, page: &mut Page, error: BenchError) -> Result<()> {
    let text = format!(in alloc; "{error:?}")?;
    page.put_line(text.as_str());
    Ok(())
}

/// Puts a transcript, and whether `$finish` was reached.
fn put_transcript(page: &mut Page, told: &Transcript) -> Result<()> {
    let text = std::str::from_utf8(told.text.as_slice()).ok();
    page.put(text.context("no text")?);
    page.put_line(if told.finished {
        "finished"
    } else {
        "not finished"
    });
    Ok(())
}

/// Simulates the bench of a module with a design, or puts why it is refused.
fn put_simulated(
    alloc: Global,
    page: &mut Page,
    module: &Module,
    top: &Module,
    netlist: Netlist,
    run: Run,
) -> Result<()> {
    match read_bench(alloc, module, top, &netlist) {
        Ok(bench) => {
            let told = transcript(alloc, &bench, netlist, run.seed, run.cycles)?;
            put_transcript(page, &told)
        }
        Err(error) => put_error(alloc, page, error),
    }
}

/// Simulates the bench of a source with its design, or puts why it is refused.
pub(crate) fn simulate(alloc: Global, page: &mut Page, text: &str, words: &str) -> Result<()> {
    let (names, rest) = names_in(words)?;
    let run = run_in(rest)?;
    let modules = modules_of(alloc, text)?;
    let module = module_named(modules.as_slice(), names.bench)?;
    let top = module_named(modules.as_slice(), names.top)?;
    let netlist = netlist_of(alloc, modules.as_slice(), names.top)?;
    put_simulated(alloc, page, module, top, netlist, run)
}

/// The reason where it is one of an item, and not that there is none of a kind.
fn of_item(error: BenchError) -> Option<BenchError> {
    match error {
        BenchError::NoDesign | BenchError::NoClock => None,
        _ => Some(error),
    }
}

/// The first reason why an item of a bench is refused, if one is.
fn refusal_of(
    alloc: Global,
    module: &Module,
    top: &Module,
    netlist: &Netlist,
) -> Option<BenchError> {
    match read_bench(alloc, module, top, netlist) {
        Ok(_) => None,
        Err(error) => of_item(error),
    }
}

/// Puts the first reason why an item of a bench is refused, or that none is.
fn put_refused(
    alloc: Global,
    page: &mut Page,
    module: &Module,
    top: &Module,
    netlist: &Netlist,
) -> Result<()> {
    match refusal_of(alloc, module, top, netlist) {
        Some(error) => put_error(alloc, page, error),
        None => {
            page.put_line("nothing");
            Ok(())
        }
    }
}

/// Looks at the bench of a source, and puts the first reason why an item of it is refused, or that none is.
pub(crate) fn look(alloc: Global, page: &mut Page, text: &str, words: &str) -> Result<()> {
    let (names, _) = names_in(words)?;
    let modules = modules_of(alloc, text)?;
    let module = module_named(modules.as_slice(), names.bench)?;
    let top = module_named(modules.as_slice(), names.top)?;
    let netlist = netlist_of(alloc, modules.as_slice(), names.top)?;
    put_refused(alloc, page, module, top, &netlist)
}
