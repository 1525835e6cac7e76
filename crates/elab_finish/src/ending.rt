//! The netlist of a builder, with its registers in the order of declaration.
ghost use Rattle.std.specs.Prelude.{◌≡◌, List, IfOk};
ghost use Rattle.net_builder.specs.Finished.{Finished};
ghost use Rattle.elab_finish.specs.declared.left.Left.{Left as LeftSide};
ghost use Rattle.elab_finish.specs.Endings.{CanFinish, IsEnding};
ghost use Rattle.elab_finish.specs.Loops.{IsLoopFree};

use crate::ordering::{all_filled, slots};
use crate::ports::ports;
use mcy_base::Text;
use net_builder::{Builder, FinishError};
use netlist_core::{Port, RawNetlist, Register, RegisterList};
use std::alloc::AllocError;

/// What `finish` gives, where no nets lead back to themselves.
fn finished(
    builder: Builder,
    top: Text,
    clock: Option<Text>,
    inputs: Vec<Port>,
    outputs: Vec<Port>,
) -> Result<RawNetlist, AllocError>
    requires { IsLoopFree builder }
    ensures top { IfOk result (λ netlist. netlist.top ≡ top) }
    ensures clock { IfOk result (λ netlist. netlist.clock ≡ clock) }
    ensures finished { IfOk result (Finished builder inputs.items outputs.items) }
{
    match builder.finish(top, clock, inputs, outputs) {
        Ok(netlist) => Ok(netlist),
        Err(FinishError::Loop(_) | FinishError::Memory) => Err(AllocError),
    }
}

/// The netlist with these registers in place of its own, which take what its own take that have their Q.
fn with_registers(mut netlist: RawNetlist, registers: Vec<Register>) -> RawNetlist
    ensures { result ≡ record netlist { registers = registers.items } }
{
    netlist.registers = RegisterList::from_vec(registers);
    netlist
}

/// The netlist of a builder in which no nets lead back to themselves, with these ports and with its registers in this order.
pub(crate) fn ending(
    builder: Builder,
    top: Text,
    clock: Option<Text>,
    inputs: &[u32],
    outputs: &[u32],
    declared: &[u32],
) -> Result<RawNetlist, AllocError>
    requires can { (lefts : List LeftSide) × CanFinish builder inputs.now outputs.now declared.now lefts }
    requires free { IsLoopFree builder }
    ensures { IfOk result (IsEnding builder top clock inputs.now outputs.now declared.now) }
{
    let alloc = builder.alloc();
    let ins = ports(&builder, inputs)?;
    let outs = ports(&builder, outputs)?;
    let empty = slots(&builder, declared)?;
    let netlist = finished(builder, top, clock, ins, outs)?;
    let registers = all_filled(alloc, netlist.registers.as_slice(), empty.as_slice())?;
    Ok(with_registers(netlist, registers))
}
