//! Inputs and registers as free bits.
ghost use Rattle.std.specs.Prelude.{◌≡◌, ◌+◌, ◌<◌, ◌≤◌, ◌^◌, IfOk, length, pos};
ghost use Rattle.gate_list.specs.declared.literal.GateLit.TheVariants.{Var};
ghost use Rattle.netlist_core.specs.Runs.{bits_at, q_bits};
ghost use Rattle.netlist_core.specs.Checked.{all_bits, free_bits};
ghost use Rattle.netlist_core.specs.Below.{AllBelow, PortsBelow};
ghost use Rattle.netlist_gates.specs.NetLits.{lits_of, variables, laid_lits, laid_free};
ghost use Rattle.netlist_gates.specs.Made.{free_lits};

use crate::lits::set;
use gate_list::GateLit;
use netlist_core::{Bit, Netlist, Port, Register};
use std::alloc::{AllocError, Global};

/// The literal of a variable.
fn variable(number: u32) -> GateLit
    requires { number < 2 ^ 31 }
    ensures { result ≡ Var (pos number) }
{
    GateLit::Var(number as i32)
}

/// Gives the nets of bits the variables from this one on.
fn lay_variables(table: &mut Vec<GateLit>, first: u32, bits: &[Bit])
    requires below { AllBelow (length table.old.items) bits.now }
    requires few { first + length bits.now < 2 ^ 31 }
    ensures laid { lits_of table.new.items ≡ laid_lits (lits_of table.old.items) bits.now (variables first (length bits.now)) }
    ensures long { length table.new.items ≡ length table.old.items }
{
    match bits {
        [] => {}
        [bit, bits @ ..] => {
            set(table, *bit, variable(first));
            lay_variables(table, first + 1, bits);
        }
    }
}

/// Gives the nets of ports the variables from this one on, and tells the next one.
fn lay_inputs(table: &mut Vec<GateLit>, first: u32, ports: &[Port]) -> u32
    requires below { PortsBelow (length table.old.items) (bits_at ports.now) }
    requires few { first + all_bits (bits_at ports.now) < 2 ^ 31 }
    ensures laid { lits_of table.new.items ≡ laid_free (lits_of table.old.items) first (bits_at ports.now) }
    ensures next { result ≡ first + all_bits (bits_at ports.now) }
    ensures long { length table.new.items ≡ length table.old.items }
{
    let mut next = first;
    for port in ports {
        let bits = port.bits.as_slice();
        lay_variables(table, next, bits);
        next += bits.len() as u32;
    }
    next
}

/// Gives the nets of registers the variables from this one on.
fn lay_registers(table: &mut Vec<GateLit>, first: u32, registers: &[Register])
    requires below { PortsBelow (length table.old.items) (q_bits registers.now) }
    requires few { first + all_bits (q_bits registers.now) < 2 ^ 31 }
    ensures laid { lits_of table.new.items ≡ laid_free (lits_of table.old.items) first (q_bits registers.now) }
    ensures long { length table.new.items ≡ length table.old.items }
{
    let mut next = first;
    for register in registers {
        let bits = register.q.as_slice();
        lay_variables(table, next, bits);
        next += bits.len() as u32;
    }
}

/// The literals of all nets before a gate is made: inputs and registers are free bits, from variable 1 on.
pub(crate) fn free_literals(alloc: Global, netlist: &Netlist) -> Result<Vec<GateLit>, AllocError>
    requires { free_bits netlist.now.raw ≤ 2048 }
    ensures laid { IfOk result (λ table. lits_of table.items ≡ free_lits netlist.now.raw) }
    ensures long { IfOk result (λ table. length table.items ≡ netlist.now.nets) }
{
    let raw = netlist.raw();
    let mut table = vec![in alloc; GateLit::Fixed(false); netlist.nets()]?;
    let next = lay_inputs(&mut table, 1, raw.inputs.as_slice());
    lay_registers(&mut table, next, raw.registers.as_slice());
    Ok(table)
}
