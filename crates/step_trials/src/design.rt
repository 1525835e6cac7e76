//! The equivalence test: whether a mutant is equal to its design in one step, by trying all values of the free bits.
//!
//! The bits of all inputs and then those of all registers form one list, and each number of that many bits is laid over it, in
//! a table of net values that is then settled. What the design gives is kept for each number, that is what stands at its outputs and
//! then what its registers take, and compared with what each mutant gives.
ghost use Rattle.std.specs.Prelude.{◌≡◌, ◌++◌, ◌≤◌, ◌<◌, ◌^◌, ◌↔◌, length, IfOk, IsTrue};
ghost use Rattle.netlist_core.specs.Runs.{bits_at, q_bits, d_bits, port_numbers};
ghost use Rattle.netlist_core.specs.Checked.{AllWide, IsSound, net_bits};
ghost use Rattle.mutation_sites.specs.Mutants.{IsSite};
ghost use Rattle.step_trials.specs.Equal.{design, mutant, OneStepEqual, EqualOnAllRuns};
ghost use Rattle.step_trials.specs.Inputs.{joined, free_list, max_free_bits};
ghost use Rattle.step_trials.specs.Tables.{nets_of};
ghost use Rattle.step_trials.specs.Trials.{GivesAt, GivesAll};

use crate::bits::{lay, number_of};
use crate::settle::settle;
use mcy_base::Items;
use mutation_sites::{Site, mutate};
use netlist_core::{Bit, Netlist, Port, Register, one_run};
use std::alloc::{AllocError, Global};

/// The most bits that inputs and registers may have together for all their values to be tried.
pub const MAX_FREE_BITS: usize = 8;

/// What a cycle gives: the number at each output, and then the number that each register takes.
pub type Given = Items<u128>;

/// What is given for each number over the free bits, from 0 on.
pub type GivenList = Items<Given>;

/// A design of at most 65,535 cells and 1,048,576 net bits, the bits of all its inputs and registers together, and what it gives for
/// each number over them.
#[derive(Drop)]
pub struct Design<'a> {
    pub netlist: &'a Netlist,
    bits: Vec<Bit>,
    given: GivenList,
    ghost few_cells: { length netlist.now.raw.cells ≤ 65535 },
    ghost few_bits: { net_bits netlist.now.raw ≤ 1048576 },
    ghost all_free: { bits.items ≡ free_list netlist.now.raw },
    ghost all_numbers: { length given ≡ 2 ^ length bits.items },
    ghost gives: { GivesAll (design netlist.now.raw) given },
}

impl<'a> Design<'a> {
    /// The design of this netlist.
    pub fn of(alloc: Global, netlist: &'a Netlist) -> Result<Design<'a>, AllocError>
        requires cells { length netlist.now.raw.cells ≤ 65535 }
        requires bits { net_bits netlist.now.raw ≤ 1048576 }
        requires small { length (free_list netlist.now.raw) ≤ max_free_bits }
        ensures { IfOk result (λ made. made.netlist.now ≡ netlist.now) }
    {
        let raw = netlist.raw();
        let bits = free_list(alloc, raw.inputs.as_slice(), raw.registers.as_slice())?;
        let given = all_given(alloc, netlist, &bits)?;
        Ok(Design {
            netlist,
            bits,
            given,
        })
    }

    /// Whether the mutant at a site gives what the design gives, for all values of inputs and registers. Where it does, it shows
    /// the same on every list of inputs from equal registers.
    pub fn is_equal_to_mutant(&self, alloc: Global, site: &Site) -> Result<bool, AllocError>
        requires { IsSite self.now.netlist.now.raw site.now }
        ensures equal { IfOk result (λ same. IsTrue same
            ↔ OneStepEqual (design self.now.netlist.now.raw) (mutant self.now.netlist.now.raw site.now)) }
        ensures all_runs { IfOk result (λ same. IsTrue same
            → EqualOnAllRuns (design self.now.netlist.now.raw) (mutant self.now.netlist.now.raw site.now)) }
    {
        // By this law each number has a solution, since the parts of a netlist can be run.
        one_run();
        let _parts = self.netlist.raw();
        let mutant = mutate(alloc, self.netlist, site)?;
        self.is_given_by(alloc, &mutant)
    }

    /// Whether another netlist with these free bits gives the same, for each number over them.
    fn is_given_by(&self, alloc: Global, other: &Netlist) -> Result<bool, AllocError>
        requires sound { IsSound other.now }
        requires free { free_list other.now.raw ≡ free_list self.now.netlist.now.raw }
        ensures { IfOk result (λ same. IsTrue same ↔ GivesAll (design other.now.raw) self.now.given) }
    {
        // By this law each number has a solution.
        one_run();
        let mut table = vec![in alloc; false; other.nets()]?;
        let given = self.given.as_slice();
        for number in 0..given.len() {
            let numbers = given_for(alloc, other, &self.bits, number as u128, &mut table)?;
            if !are_same(numbers.as_slice(), given[number].as_slice()) {
                return Ok(false);
            }
        }
        Ok(true)
    }
}

/// Whether the same numbers stand there.
fn are_same(numbers: &[u128], others: &[u128]) -> bool
    ensures { IsTrue result ↔ (numbers.now ≡ others.now) }
{
    numbers == others
}

/// The bits of all ports, one port after the other.
fn joined(alloc: Global, ports: &[Port]) -> Result<Vec<Bit>, AllocError>
    ensures { IfOk result (λ bits. bits.items ≡ joined (bits_at ports.now)) }
{
    let mut bits = Vec::new(alloc);
    for port in ports {
        bits.extend_from_slice(port.bits.as_slice())?;
    }
    Ok(bits)
}

/// The bits of all inputs, and then of the Q's of all registers.
fn free_list(alloc: Global, inputs: &[Port], registers: &[Register]) -> Result<Vec<Bit>, AllocError>
    ensures { IfOk result (λ bits. bits.items ≡ joined (bits_at inputs.now) ++ joined (q_bits registers.now)) }
{
    let mut bits = joined(alloc, inputs)?;
    for register in registers {
        bits.extend_from_slice(register.q.as_slice())?;
    }
    Ok(bits)
}

/// What a design gives for each number over its free bits.
fn all_given(alloc: Global, netlist: &Netlist, bits: &[Bit]) -> Result<GivenList, AllocError>
    requires small { length (free_list netlist.now.raw) ≤ max_free_bits }
    requires bits { bits.now ≡ free_list netlist.now.raw }
    ensures all { IfOk result (λ list. length list ≡ 2 ^ length bits.now) }
    ensures gives { IfOk result (GivesAll (design netlist.now.raw)) }
{
    let mut table = vec![in alloc; false; netlist.nets()]?;
    let mut list = Vec::new(alloc);
    let count = 2u32.pow(bits.len() as u32);
    for number in 0..count {
        list.push(given_for(alloc, netlist, bits, u128::from(number), &mut table)?)?;
    }
    Ok(GivenList::from_vec(list))
}

/// What a netlist gives for this number over its free bits.
fn given_for(
    alloc: Global,
    netlist: &Netlist,
    bits: &[Bit],
    number: u128,
    table: &mut [bool],
) -> Result<Given, AllocError>
    requires room { length table.old ≡ netlist.now.nets }
    requires bits { bits.now ≡ free_list netlist.now.raw }
    ensures { IfOk result (GivesAt (design netlist.now.raw) number) }
{
    // By this law the computed nets are the solution.
    one_run();
    let raw = netlist.raw();
    lay(table, bits, number);
    settle(netlist, table);
    given_by(
        alloc,
        raw.outputs.as_slice(),
        raw.registers.as_slice(),
        table,
    )
}

/// The numbers at outputs, and then at the D's of registers.
fn given_by(
    alloc: Global,
    outputs: &[Port],
    registers: &[Register],
    table: &[bool],
) -> Result<Given, AllocError>
    requires outputs { AllWide (bits_at outputs.now) }
    requires next { AllWide (d_bits registers.now) }
    ensures { IfOk result (λ list. list ≡ port_numbers (nets_of table.now) (bits_at outputs.now)
        ++ port_numbers (nets_of table.now) (d_bits registers.now)) }
{
    let mut list = port_numbers(alloc, outputs, table)?;
    for register in registers {
        list.push(number_of(table, register.d.as_slice()))?;
    }
    Ok(Given::from_vec(list))
}

/// The numbers at ports.
fn port_numbers(alloc: Global, ports: &[Port], table: &[bool]) -> Result<Vec<u128>, AllocError>
    requires { AllWide (bits_at ports.now) }
    ensures { IfOk result (λ list. list.items ≡ port_numbers (nets_of table.now) (bits_at ports.now)) }
{
    let mut list = Vec::new(alloc);
    for port in ports {
        list.push(number_of(table, port.bits.as_slice()))?;
    }
    Ok(list)
}
