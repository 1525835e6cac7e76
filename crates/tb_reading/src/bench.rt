//! The bench of a testbench, or why there is none.
ghost use Rattle.std.specs.Prelude.{◌≡◌, ◌<◌, ℕ, List, IfOk, IfErr, length};
ghost use Rattle.std.specs.List.{All};
ghost use Rattle.vlog_meaning.specs.Scopes.{names_of};
ghost use Rattle.tb_contents.specs.Nets.{nodes_of};
ghost use Rattle.tb_settling.specs.Settling.{CanSettle};
ghost use Rattle.tb_bench.specs.Runnable.{FitsDesign};
ghost use Rattle.tb_refusals.specs.Refusals.{AreFaultless};
ghost use Rattle.tb_reading.specs.Reasons.{context_in};
ghost use Rattle.tb_reading.specs.Benches.{first_generator, IsClockOf, HasParts, IsBenchOf, IsRefusal, IsMade};

use crate::clock::clock_in;
use crate::judge::reason;
use crate::processes::list_processes;
use crate::reading::{Reading, read};
use mcy_base::Items;
use netlist_core::Netlist;
use std::alloc::{AllocError, Global};
use tb_bench::{Bench, Clock, Parts, WaitingList};
use tb_code::Code;
use tb_faults::BenchError;
use tb_machine::Numbers;
use tb_nets::Nets;
use tb_plans::{plan_all, plan_nets};
use tb_wired::{Wired, wire};
use vlog_syntax::{Feature, Module, ProcessKind};

/// The bench of what was read, where nothing is wrong with it.
fn assemble(
    alloc: Global,
    reading: Reading<'_>,
    clock: Clock,
    nets: Nets,
) -> Result<Bench, AllocError>
    requires faultless { AreFaultless (context_in reading) reading.items.items (length reading.items.items) }
    requires clock { IsClockOf (names_of reading.signals.scope) (first_generator reading.items.items) clock }
    requires nodes { nets.nodes ≡ nodes_of reading.items.items }
    requires settle { CanSettle (names_of reading.signals.scope) reading.signals.widths reading.inputs.items reading.outputs.items nets }
    ensures { IfOk result (HasParts reading.entry) }
{
    let Reading {
        signals,
        declared: _declared,
        clock: _name,
        items,
        inputs,
        outputs,
    } = reading;
    let mut code = Code::new(alloc);
    let always = list_processes(alloc, &mut code, ProcessKind::Always, items.as_slice())?;
    let initial = list_processes(alloc, &mut code, ProcessKind::Initial, items.as_slice())?;
    let (scope, starts) = signals.into_parts();
    let plans = plan_all(alloc, &scope, code.nodes())?;
    let net_plans = plan_nets(alloc, &scope, nets.nodes.as_slice())?;
    Ok(Bench::of(Parts {
        scope,
        starts,
        code,
        plans: Items::from_vec(plans),
        always: WaitingList::from_vec(always),
        initial: WaitingList::from_vec(initial),
        clock,
        inputs: Numbers::from_vec(inputs),
        outputs: Numbers::from_vec(outputs),
        nets,
        net_plans: Items::from_vec(net_plans),
    }))
}

/// What comes of a testbench.
#[derive(Drop)]
pub(crate) enum Made {
    Bench(Bench),
    Refused(BenchError),
}

/// Makes the bench, or tells why there is none.
fn make(alloc: Global, module: &Module, top: &Module, netlist: &Netlist) -> Result<Made, AllocError>
    ensures { IfOk result (IsMade module.now top.now netlist.now.raw) }
{
    let reading = read(alloc, module, top, netlist)?;
    if let Some(error) = reason(alloc, module, &reading)? {
        return Ok(Made::Refused(error));
    }
    let items = reading.items.as_slice();
    let scope = reading.signals.scope();
    let Some(clock) = clock_in(items, scope) else {
        return Err(AllocError);
    };
    let wired = wire(
        alloc,
        items,
        scope,
        reading.inputs.as_slice(),
        reading.outputs.as_slice(),
    )?;
    match wired {
        Wired::Loop(at) => Ok(Made::Refused(BenchError::Unsupported(at, Feature::Helper))),
        Wired::Nets(nets) => Ok(Made::Bench(assemble(alloc, reading, clock, nets)?)),
    }
}

/// The bench that a testbench's module is for the design of a netlist, whose top is given too; or the first reason why it is refused.
pub fn read_bench(
    alloc: Global,
    module: &Module,
    top: &Module,
    netlist: &Netlist,
) -> Result<Bench, BenchError>
    ensures built { IfOk result (IsBenchOf module.now top.now netlist.now.raw) }
    ensures fits { IfOk result (λ b. FitsDesign b netlist.now.raw) }
    ensures refused { IfErr result (IsRefusal module.now top.now netlist.now.raw) }
{
    match make(alloc, module, top, netlist) {
        Ok(Made::Bench(bench)) => Ok(bench),
        Ok(Made::Refused(error)) => Err(error),
        Err(_) => Err(BenchError::Memory),
    }
}
