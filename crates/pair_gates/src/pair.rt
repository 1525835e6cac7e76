//! The clauses of two netlists: the gates of both over the same free bits, and that a bit that a step shows differs.
ghost use Rattle.std.specs.Prelude.{◌≡◌, ◌++◌, ◌≤◌, IfOk, IfErr, OnOk, length};
ghost use Rattle.netlist_core.specs.Runs.{bits_at, d_bits};
ghost use Rattle.netlist_core.specs.Checked.{free_bits};
ghost use Rattle.step_trials.specs.Inputs.{joined};
ghost use Rattle.gate_list.specs.Gates.{count};
ghost use Rattle.netlist_gates.specs.NetLits.{lits_of, bits_lits};
ghost use Rattle.pair_gates.specs.Matching.{AreAlike};
ghost use Rattle.pair_gates.specs.Copies.{step_bits, pair_row, pair_clauses};
ghost use Rattle.pair_gates.specs.Differences.{TellDifferences};
ghost use Rattle.pair_gates.specs.Refusals.{IsRefused, IsAccepted};

use crate::error::EncodeError;
use crate::matching::{port_apart, register_apart};
use clause_encoder::Miter;
use gate_clauses::miter;
use gate_list::{GateList, GateLit, gates_have_values};
use gate_words::{Operation, row};
use netlist_core::{Netlist, Port, RawNetlist, Register, one_run};
use netlist_gates::{NetLits, netlist_gates};
use std::alloc::{AllocError, Global};

/// The most bits of inputs and registers.
const MAX_FREE: u32 = 2048;

/// Adds the literals of outputs to a row.
fn add_outputs(ports: &[Port], lits: &NetLits, row: &mut Vec<GateLit>) -> Result<(), AllocError>
    ensures { OnOk result (row.new.items ≡ row.old.items ++ bits_lits (lits_of lits.now) (joined (bits_at ports.now))) }
{
    for port in ports {
        lits.read(port.bits.as_slice(), row)?;
    }
    Ok(())
}

/// Adds the literals of what registers take to a row.
fn add_next(
    registers: &[Register],
    lits: &NetLits,
    row: &mut Vec<GateLit>,
) -> Result<(), AllocError>
    ensures { OnOk result (row.new.items ≡ row.old.items ++ bits_lits (lits_of lits.now) (joined (d_bits registers.now))) }
{
    for register in registers {
        lits.read(register.d.as_slice(), row)?;
    }
    Ok(())
}

/// The literals of the bits that a step shows.
fn step_literals(
    alloc: Global,
    raw: &RawNetlist,
    lits: &NetLits,
) -> Result<Vec<GateLit>, AllocError>
    ensures { IfOk result (λ row. row.items ≡ bits_lits (lits_of lits.now) (step_bits raw.now)) }
{
    let mut row = Vec::new(alloc);
    add_outputs(raw.outputs.as_slice(), lits, &mut row)?;
    add_next(raw.registers.as_slice(), lits, &mut row)?;
    Ok(row)
}

/// The netlists have the same ports and registers.
fn test_alike(alloc: Global, original: &Netlist, mutant: &Netlist) -> Result<(), EncodeError>
    ensures alike { OnOk result (AreAlike original.now.raw mutant.now.raw) }
    ensures refused { IfErr result (IsRefused original.now mutant.now) }
{
    if let Some(name) = port_apart(alloc, original.raw(), mutant.raw())? {
        return Err(EncodeError::PortsDiffer(name));
    }
    if let Some(name) = register_apart(alloc, original.raw(), mutant.raw())? {
        return Err(EncodeError::RegistersDiffer(name));
    }
    Ok(())
}

/// The miter of two netlists with the same ports and registers, which stand at the same places.
fn pair_miter(
    alloc: Global,
    original: &Netlist,
    mutant: &Netlist,
    free: u32,
) -> Result<Miter, EncodeError>
    requires alike { AreAlike original.now.raw mutant.now.raw }
    requires free { free ≡ free_bits original.now.raw }
    requires few { free ≤ 2048 }
    ensures accepted { OnOk result (IsAccepted original.now mutant.now) }
    ensures refused { IfErr result (IsRefused original.now mutant.now) }
    ensures clauses { IfOk result (λ m. m.store ≡ pair_clauses original.now mutant.now) }
    ensures variables { IfOk result (λ m. m.variables ≡ count (pair_row original.now mutant.now).gates) }
    ensures free { IfOk result (λ m. m.free ≡ free_bits original.now.raw) }
    ensures tell { IfOk result (λ m. TellDifferences original.now.raw mutant.now.raw m.store) }
{
    // By these laws each step has one solution, and gates have values for all free bits.
    one_run();
    gates_have_values();
    let (left, right) = (original.raw(), mutant.raw());
    let mut gates = GateList::new(alloc, free);
    let first = netlist_gates(alloc, original, &mut gates)?;
    let second = netlist_gates(alloc, mutant, &mut gates)?;
    let shown = step_literals(alloc, left, &first)?;
    let others = step_literals(alloc, right, &second)?;
    let apart = row(alloc, Operation::Xor, &shown, &others, &mut gates)?;
    let _ = gates.len();
    Ok(miter(alloc, &gates, &apart)?)
}

/// The clauses of a pair of netlists. They have a model exactly where a step of the two differs: its free bits are the inputs and
/// the registers, from variable 1 on.
pub fn encode(alloc: Global, original: &Netlist, mutant: &Netlist) -> Result<Miter, EncodeError>
    ensures accepted { OnOk result (IsAccepted original.now mutant.now) }
    ensures refused { IfErr result (IsRefused original.now mutant.now) }
    ensures clauses { IfOk result (λ m. m.store ≡ pair_clauses original.now mutant.now) }
    ensures variables { IfOk result (λ m. m.variables ≡ count (pair_row original.now mutant.now).gates) }
    ensures free { IfOk result (λ m. m.free ≡ free_bits original.now.raw) }
    ensures tell { IfOk result (λ m. TellDifferences original.now.raw mutant.now.raw m.store) }
{
    test_alike(alloc, original, mutant)?;
    let free = original.free_bits();
    if free > MAX_FREE {
        return Err(EncodeError::TooManyFree(free));
    }
    pair_miter(alloc, original, mutant, free)
}
