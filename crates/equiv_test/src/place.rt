//! The first place at which two netlists differ, by simulation of both.
ghost use Rattle.std.specs.Prelude.{◌≡◌, ◌≤◌, ◌<◌, ◌^◌, length, IfOk, MatchOption};
ghost use Rattle.netlist_core.specs.Runs.{plain, Holds, bits_at, q_bits, shown, taken};
ghost use Rattle.netlist_core.specs.Checked.{IsSound, free_bits};
ghost use Rattle.netlist_gates.specs.Meanings.{input_numbers, register_numbers};
ghost use Rattle.sat_solver.specs.Found.{listed_values};
ghost use Rattle.cycle_sim.specs.Simulated.{HaveWidths, numbers_of, settled_nets};
ghost use Rattle.pair_gates.specs.Matching.{AreAlike};
ghost use Rattle.pair_gates.specs.Differences.{Differ};
ghost use Rattle.equiv_test.specs.Verdicts.{DifferFirst, DifferAt, Shows};

use crate::verdict::{DiffPlace, Difference};
use crate::words::{input_words, register_words};
use cycle_sim::Sim;
use mcy_base::Word;
use netlist_core::one_run;
use sat_solver::Assignment;
use std::alloc::{AllocError, Global};

/// The first output that differs, as the nets of both were last settled.
fn first_output(original: &Sim, mutant: &Sim, count: u32) -> Option<u32>
    requires count { length original.now.plan.raw.outputs ≡ count }
    requires same { length mutant.now.plan.raw.outputs ≡ count }
    ensures { MatchOption result
        (shown (plain (settled_nets original.now)) original.now.plan.raw ≡ shown (plain (settled_nets mutant.now)) mutant.now.plan.raw)
        (DifferFirst (shown (plain (settled_nets original.now)) original.now.plan.raw) (shown (plain (settled_nets mutant.now)) mutant.now.plan.raw)) }
{
    for place in 0..count {
        let one = original.output(place).bits();
        let other = mutant.output(place).bits();
        if one != other {
            return Some(place);
        }
    }
    None
}

/// The first register that holds another number.
fn first_register(original: &Sim, mutant: &Sim, count: u32) -> Option<u32>
    requires count { length original.now.registers ≡ count }
    requires same { length mutant.now.registers ≡ count }
    requires here { length original.now.plan.raw.registers ≡ count }
    requires there { length mutant.now.plan.raw.registers ≡ count }
    ensures { MatchOption result (original.now.registers ≡ mutant.now.registers) (DifferFirst original.now.registers mutant.now.registers) }
{
    for place in 0..count {
        let one = original.register(place).bits();
        let other = mutant.register(place).bits();
        if one != other {
            return Some(place);
        }
    }
    None
}

/// Computes all nets with these inputs and registers.
fn settle_at(sim: &mut Sim, inputs: &[Word], registers: &[Word])
    requires inputs { HaveWidths (bits_at sim.old.plan.raw.inputs) inputs.now }
    requires registers { HaveWidths (q_bits sim.old.plan.raw.registers) registers.now }
    ensures holds { Holds (plain (settled_nets sim.new)) (settled_nets sim.new) sim.old.plan.raw (numbers_of inputs.now) (numbers_of registers.now) }
    ensures plan { sim.new.plan ≡ sim.old.plan }
{
    sim.load(registers);
    sim.settle(inputs);
}

/// The first place at which the netlists differ with these inputs and registers, if they do.
fn first_place(
    original: &mut Sim,
    mutant: &mut Sim,
    inputs: &[Word],
    registers: &[Word],
) -> Option<DiffPlace>
    requires original { IsSound original.old.plan }
    requires mutant { IsSound mutant.old.plan }
    requires alike { AreAlike original.old.plan.raw mutant.old.plan.raw }
    requires inputs { HaveWidths (bits_at original.old.plan.raw.inputs) inputs.now }
    requires registers { HaveWidths (q_bits original.old.plan.raw.registers) registers.now }
    ensures place { MatchOption result
        (¬ Differ original.old.plan.raw mutant.old.plan.raw (numbers_of inputs.now) (numbers_of registers.now))
        (DifferAt original.old.plan.raw mutant.old.plan.raw (numbers_of inputs.now) (numbers_of registers.now)) }
    ensures original { original.new.plan ≡ original.old.plan }
    ensures mutant { mutant.new.plan ≡ mutant.old.plan }
{
    // By this law a step has one answer.
    one_run();
    let outputs = original.netlist().raw().outputs.as_slice().len() as u32;
    let stored = original.netlist().raw().registers.as_slice().len() as u32;
    settle_at(original, inputs, registers);
    settle_at(mutant, inputs, registers);
    if let Some(place) = first_output(original, mutant, outputs) {
        return Some(DiffPlace::Output(place));
    }
    original.clock();
    mutant.clock();
    match first_register(original, mutant, stored) {
        Some(place) => Some(DiffPlace::Register(place)),
        None => None,
    }
}

/// The difference of the netlists with the inputs and registers that these free bits are, if there is one.
pub(crate) fn difference_at(
    alloc: Global,
    original: &mut Sim,
    mutant: &mut Sim,
    assignment: &Assignment,
) -> Result<Option<Difference>, AllocError>
    requires original { IsSound original.old.plan }
    requires mutant { IsSound mutant.old.plan }
    requires alike { AreAlike original.old.plan.raw mutant.old.plan.raw }
    requires few { free_bits original.old.plan.raw ≤ 2048 }
    ensures found { IfOk result (λ found. MatchOption found
        (¬ Differ original.old.plan.raw mutant.old.plan.raw (input_numbers original.old.plan.raw (listed_values assignment.now)) (register_numbers original.old.plan.raw (listed_values assignment.now)))
        (Shows original.old.plan.raw mutant.old.plan.raw)) }
    ensures original { original.new.plan ≡ original.old.plan }
    ensures mutant { mutant.new.plan ≡ mutant.old.plan }
{
    let raw = original.netlist().raw();
    let mut next = 1;
    let inputs = input_words(alloc, raw.inputs.as_slice(), assignment, &mut next)?;
    let registers = register_words(alloc, raw.registers.as_slice(), assignment, next)?;
    match first_place(original, mutant, inputs.as_slice(), registers.as_slice()) {
        Some(place) => Ok(Some(Difference {
            inputs,
            registers,
            place,
        })),
        None => Ok(None),
    }
}
