//! The words of inputs and registers that a model's free bits are.
ghost use Rattle.std.specs.Prelude.{◌≡◌, ◌+◌, ◌≤◌, ◌<◌, ◌^◌, length, IfOk};
ghost use Rattle.netlist_core.specs.Numbers.{number};
ghost use Rattle.netlist_core.specs.Runs.{bits_at, q_bits};
ghost use Rattle.netlist_core.specs.Checked.{AllWide, all_bits};
ghost use Rattle.gate_words.specs.Bits.{lit_values};
ghost use Rattle.netlist_gates.specs.NetLits.{variables};
ghost use Rattle.netlist_gates.specs.Meanings.{free_numbers};
ghost use Rattle.sat_solver.specs.Found.{listed_values};
ghost use Rattle.cycle_sim.specs.Simulated.{HaveWidths, numbers_of};

use mcy_base::{Word, WordList};
use netlist_core::{Port, Register};
use sat_solver::Assignment;
use std::alloc::{AllocError, Global};

/// The number whose bits are so many variables from this one on, bit 0 first.
fn number_from(assignment: &Assignment, first: u32, width: usize) -> u128
    requires narrow { width ≤ 128 }
    requires few { first + width < 2 ^ 31 }
    ensures value { result ≡ number (lit_values (listed_values assignment.now) (variables first width)) }
    ensures fits { result < 2 ^ width }
{
    if width == 0 {
        return 0;
    }
    let low = assignment.is_true(first);
    let high = number_from(assignment, first + 1, width - 1);
    if low { 1 + 2 * high } else { 2 * high }
}

/// The word of this width whose bits are the variables from this one on.
fn word_from(assignment: &Assignment, first: u32, width: usize) -> Word
    requires wide { (1 ≤ width) × (width ≤ 128) }
    requires few { first + width < 2 ^ 31 }
    ensures width { result.width ≡ width }
    ensures bits { result.bits ≡ number (lit_values (listed_values assignment.now) (variables first width)) }
{
    Word::new(width as u8, number_from(assignment, first, width)).unwrap()
}

/// The words of inputs, whose variables are those from the next one on.
pub(crate) fn input_words(
    alloc: Global,
    ports: &[Port],
    assignment: &Assignment,
    next: &mut u32,
) -> Result<WordList, AllocError>
    requires wide { AllWide (bits_at ports.now) }
    requires few { next.old + all_bits (bits_at ports.now) < 2 ^ 31 }
    ensures widths { IfOk result (HaveWidths (bits_at ports.now)) }
    ensures numbers { IfOk result (λ words. numbers_of words ≡ free_numbers (listed_values assignment.now) next.old (bits_at ports.now)) }
    ensures next { IfOk result (λ _. next.new ≡ next.old + all_bits (bits_at ports.now)) }
{
    let mut words = Vec::new(alloc);
    for port in ports {
        let width = port.bits.as_slice().len();
        words.push(word_from(assignment, *next, width))?;
        *next += width as u32;
    }
    Ok(WordList::from_vec(words))
}

/// The words of registers, whose variables are those from this one on.
pub(crate) fn register_words(
    alloc: Global,
    registers: &[Register],
    assignment: &Assignment,
    first: u32,
) -> Result<WordList, AllocError>
    requires wide { AllWide (q_bits registers.now) }
    requires few { first + all_bits (q_bits registers.now) < 2 ^ 31 }
    ensures widths { IfOk result (HaveWidths (q_bits registers.now)) }
    ensures numbers { IfOk result (λ words. numbers_of words ≡ free_numbers (listed_values assignment.now) first (q_bits registers.now)) }
{
    let mut next = first;
    let mut words = Vec::new(alloc);
    for register in registers {
        let width = register.q.as_slice().len();
        words.push(word_from(assignment, next, width))?;
        next += width as u32;
    }
    Ok(WordList::from_vec(words))
}
