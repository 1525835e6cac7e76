//! Testing a pair of netlists.
ghost use Rattle.std.specs.Prelude.{◌<◌, ◌≤◌, IfOk};
ghost use Rattle.equiv_test.specs.Jobs.{IsGoing};

use anyhow::{Context, Result, bail};
use equiv_test::{DiffPlace, Difference, EqJob, EqVerdict};
use mcy_base::Word;
use netlist_core::Netlist;
use std::alloc::Global;
use std::io;

/// How a pair is tested: with at most so many lemmas, and so many in a turn.
#[derive(Clone, Copy)]
pub(crate) struct Effort {
    limit: u32,
    conflicts: u32,
}

/// The two numbers of a text.
pub(crate) fn effort_of(text: &str) -> Result<Effort> {
    let (limit, conflicts) = text.split_once(' ').context("one number")?;
    let limit = limit.parse::<u32>().ok().context("no limit")?;
    let conflicts = conflicts.parse::<u32>().ok().context("no turn")?;
    Ok(Effort { limit, conflicts })
}

/// A test of a pair whose clauses can be made.
fn begin(alloc: Global, original: &Netlist, mutant: &Netlist, limit: u32) -> Result<EqJob>
    requires { (1 ≤ limit) × (limit ≤ 100000) }
    ensures { IfOk result IsGoing }
{
    match EqJob::new(alloc, original, mutant, limit) {
        Ok(job) => Ok(job),
        Err(_) => bail!("no clauses"),
    }
}

/// The verdict of a test, by turns of so many lemmas.
fn find(job: &mut EqJob, effort: Effort) -> Result<EqVerdict>
    requires going { IsGoing job.old }
    requires some { 0 < effort.conflicts }
{
    for _turn in 0..effort.limit {
        if let Some(verdict) = job.turn(effort.conflicts)? {
            return Ok(verdict);
        }
    }
    bail!("no verdict")
}

/// The verdict of a pair.
fn verdict_of(
    alloc: Global,
    original: &Netlist,
    mutant: &Netlist,
    effort: Effort,
) -> Result<EqVerdict>
    requires limit { (1 ≤ effort.limit) × (effort.limit ≤ 100000) }
    requires some { 0 < effort.conflicts }
{
    let mut job = begin(alloc, original, mutant, effort.limit)?;
    find(&mut job, effort)
}

/// Prints the numbers of words.
fn tell_words<R: Print>(rt: &R, words: &[Word]) -> io::Result<()> {
    for word in words {
        print!(rt; " {}", word.bits())?;
    }
    Ok(())
}

/// Prints where a pair differs, and with what.
fn tell_difference<R: Print>(rt: &R, difference: &Difference) -> io::Result<()> {
    match difference.place {
        DiffPlace::Output(number) => print!(rt; "output {number} differs with inputs")?,
        DiffPlace::Register(number) => print!(rt; "register {number} differs with inputs")?,
    }
    tell_words(rt, difference.inputs.as_slice())?;
    print!(rt; ", registers")?;
    tell_words(rt, difference.registers.as_slice())?;
    println!(rt; "")
}

/// Prints a verdict, in detail or its word alone.
fn tell_verdict<R: Print>(rt: &R, verdict: &EqVerdict, in_detail: bool) -> io::Result<()> {
    match verdict {
        EqVerdict::NoChange(refutation) if in_detail => {
            println!(rt; "no change after {} lemmas", refutation.len())
        }
        EqVerdict::NoChange(_) => println!(rt; "no change"),
        EqVerdict::Change(difference) if in_detail => tell_difference(rt, difference),
        EqVerdict::Change(_) => println!(rt; "change"),
        EqVerdict::Unknown(attempt) => println!(rt; "unknown after {} lemmas", attempt.len()),
    }
}

/// Prints the verdict of a test of a pair whose clauses can be made.
pub(crate) fn tell_test<R: Print + AllocGlobal>(
    rt: &R,
    original: &Netlist,
    mutant: &Netlist,
    effort: Effort,
    in_detail: bool,
) -> Result<()> {
    if effort.limit == 0 || effort.limit > 100_000 || effort.conflicts == 0 {
        bail!("no such limit");
    }
    let verdict = verdict_of(rt.alloc(), original, mutant, effort)?;
    tell_verdict(rt, &verdict, in_detail)?;
    Ok(())
}
