//! A netlist to which statements add, what it is checked for, and its simulator.
use crate::checks::check;
use crate::cycles::{clock, settle, sim_of, step, tell_registers};
use crate::inverters::add_inverters;
use anyhow::Result;
use cycle_sim::Sim;
use netlist_core::RawNetlist;
use netlist_rows::{PLACE, add_part, no_parts};
use std::alloc::{AllocError, Global};
use std::mem;

/// The parts of a netlist, and the simulator of the netlist before it, once it was started.
#[derive(Drop)]
pub(crate) struct Sheet {
    raw: RawNetlist,
    sim: Option<Sim>,
}

impl Sheet {
    /// Nothing.
    pub(crate) fn new(alloc: Global) -> Result<Sheet, AllocError> {
        Ok(Sheet {
            raw: no_parts(alloc)?,
            sim: None,
        })
    }

    /// Takes the parts, and begins another netlist.
    fn take(&mut self, alloc: Global) -> Result<RawNetlist, AllocError> {
        Ok(mem::replace(&mut self.raw, no_parts(alloc)?))
    }

    /// Makes the simulator of the parts, and begins another netlist.
    fn start(&mut self, alloc: Global) -> Result<()> {
        let raw = self.take(alloc)?;
        self.sim = Some(sim_of(alloc, raw)?);
        Ok(())
    }

    /// Lets go of the simulator.
    fn end(&mut self) {
        self.sim = None;
    }
}

/// Adds what a statement gives.
fn add<R: AllocGlobal>(rt: &R, sheet: &mut Sheet, verb: &str, rest: &str) -> Result<()> {
    match verb {
        "chain" => add_inverters(rt.alloc(), &mut sheet.raw, true, rest),
        "fan" => add_inverters(rt.alloc(), &mut sheet.raw, false, rest),
        _ => add_part(rt.alloc(), &mut sheet.raw, PLACE, verb, rest),
    }
}

/// Starts the simulator, and prints the registers.
fn start<R: Print + AllocGlobal>(rt: &R, sheet: &mut Sheet) -> Result<()> {
    sheet.start(rt.alloc())?;
    match &sheet.sim {
        Some(sim) => Ok(tell_registers(rt, sim)?),
        None => Ok(()),
    }
}

/// Checks the parts, and begins another netlist.
fn check_parts<R: Print + AllocGlobal>(rt: &R, sheet: &mut Sheet) -> Result<()> {
    let raw = sheet.take(rt.alloc())?;
    check(rt, raw)
}

/// Carries out a statement.
pub(crate) fn carry_out<R: Print + AllocGlobal>(
    rt: &R,
    sheet: &mut Sheet,
    line: &str,
) -> Result<()> {
    let (verb, rest) = line.split_once(' ').unwrap_or((line, ""));
    match (verb, &mut sheet.sim) {
        ("", _) => {}
        ("#", _) => println!(rt; "{line}")?,
        ("check", _) => check_parts(rt, sheet)?,
        ("start", None) => start(rt, sheet)?,
        ("settle", Some(sim)) => settle(rt, sim, rest)?,
        ("clock", Some(sim)) => clock(rt, sim)?,
        ("step", Some(sim)) => step(rt, sim, rest)?,
        ("end", _) => sheet.end(),
        _ => add(rt, sheet, verb, rest)?,
    }
    Ok(())
}
