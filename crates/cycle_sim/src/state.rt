//! Numbers in place: what is laid into the table of the drivers before a cycle is computed, with the marks of what that changes, and what registers hold.
ghost use Rattle.std.specs.Prelude.{◌≡◌, ℕ, ◌≤◌, ◌<◌, ◌+◌, ◌^◌, ◌++◌, ◌↔◌, [], List, IsTrue, IfOk, replicate, map, take, drop, length, slice_index, slice_index_or, slice_set};
ghost use Rattle.std.specs.List.{All};
ghost use Rattle.netlist_core.specs.Runs.{plain, taken, bits_at, q_bits, d_bits};
ghost use Rattle.netlist_core.specs.Solutions.{FitPorts, driving};
ghost use Rattle.cycle_sim.specs.Parts.{AllWired};
ghost use Rattle.cycle_sim.specs.Simulated.{nets_of, numbers_of, starts_of, HaveWidths};
ghost use Rattle.cycle_sim.specs.Marks.{AreReaders, AreHeld, IsCurrent};

use crate::cycle::put;
use crate::parts::{Wires, wires_number};
use crate::places::driver_count;
use mcy_base::{Items, Word};
use netlist_core::{Netlist, Port};
use std::alloc::{AllocError, Global};

/// The registers' start values.
fn starts(alloc: Global, netlist: &Netlist) -> Result<Vec<u128>, AllocError>
    ensures { IfOk result (λ v. v.items ≡ starts_of netlist.now.raw) }
{
    let mut registers = Vec::new(alloc);
    for register in netlist.raw().registers.as_slice() {
        registers.push(register.start.bits())?;
    }
    Ok(registers)
}

/// Whether there is a word for each port, of its width.
pub(crate) fn have_widths(ports: &[Port], words: &[Word]) -> bool
    ensures { IsTrue result ↔ HaveWidths (bits_at ports.now) words.now }
{
    match ports {
        [] => words.is_empty(),
        [port, ports @ ..] => match words {
            [] => false,
            [word, words @ ..] => {
                usize::from(word.width()) == port.bits.as_slice().len() && have_widths(ports, words)
            }
        },
    }
}

/// Marks for all places of the order.
fn all_marked(alloc: Global, netlist: &Netlist) -> Result<Vec<u64>, AllocError>
    ensures { (table : List ℕ) → IfOk result (λ v. IsCurrent netlist.now table v.items) }
{
    let marks = vec![in alloc; u64::MAX; netlist.order().len() / 64 + 1]?;
    Ok(marks)
}

/// The numbers of drivers and of registers, and the marks of cells.
#[derive(Drop)]
pub(crate) struct Numbers {
    pub(crate) table: Vec<u128>,
    pub(crate) registers: Vec<u128>,
    pub(crate) marks: Vec<u64>,
}

/// The numbers before the first cycle: 0 everywhere but in the registers, and all cells are marked.
pub(crate) fn first_numbers(alloc: Global, netlist: &Netlist) -> Result<Numbers, AllocError>
    ensures zeros { IfOk result (λ n. n.table.items ≡ replicate (length (driving netlist.now.raw)) 0) }
    ensures starts { IfOk result (λ n. n.registers.items ≡ starts_of netlist.now.raw) }
    ensures marks { (table : List ℕ) → IfOk result (λ n. IsCurrent netlist.now table n.marks.items) }
{
    let table = vec![in alloc; 0u128; driver_count(netlist)]?;
    let registers = starts(alloc, netlist)?;
    let marks = all_marked(alloc, netlist)?;
    Ok(Numbers {
        table,
        registers,
        marks,
    })
}

/// Gives an input or a register a number.
fn lay(
    netlist: &Netlist,
    readers: &[Items<usize>],
    table: &mut Vec<u128>,
    marks: &mut Vec<u64>,
    driver: usize,
    number: u128,
)
    requires source { driver < length netlist.now.raw.inputs + length netlist.now.raw.registers }
    requires fits { number < 2 ^ length (slice_index_or (driving netlist.now.raw) driver []) }
    requires readers { AreReaders netlist.now readers.now }
    requires held { AreHeld netlist.now table.old.items marks.old.items }
    ensures held { AreHeld netlist.now table.new.items marks.new.items }
    ensures table { table.new.items ≡ slice_set table.old.items driver number }
{
    netlist.raw();
    put(readers, table, marks, driver, number);
}

/// Lays the inputs' numbers at the front of the table.
pub(crate) fn lay_words(
    netlist: &Netlist,
    readers: &[Items<usize>],
    table: &mut Vec<u128>,
    marks: &mut Vec<u64>,
    words: &[Word],
)
    requires widths { HaveWidths (bits_at netlist.now.raw.inputs) words.now }
    requires readers { AreReaders netlist.now readers.now }
    requires held { AreHeld netlist.now table.old.items marks.old.items }
    ensures held { AreHeld netlist.now table.new.items marks.new.items }
    ensures table { table.new.items ≡ numbers_of words.now ++ drop (length words.now) table.old.items }
{
    for i in 0..words.len() {
        lay(netlist, readers, table, marks, i, words[i].bits());
    }
}

/// Lays the numbers of words of a store at the front of the table, for each input the word of this number.
pub(crate) fn lay_named(
    netlist: &Netlist,
    readers: &[Items<usize>],
    table: &mut Vec<u128>,
    marks: &mut Vec<u64>,
    store: &[Word],
    numbers: &[u32],
)
    requires inside { All (λ k. k < length store.now) numbers.now }
    requires widths { map (slice_index (map (λ w. w.width) store.now)) numbers.now ≡ map length (bits_at netlist.now.raw.inputs) }
    requires readers { AreReaders netlist.now readers.now }
    requires held { AreHeld netlist.now table.old.items marks.old.items }
    ensures held { AreHeld netlist.now table.new.items marks.new.items }
    ensures table { table.new.items ≡ map (slice_index (numbers_of store.now)) numbers.now ++ drop (length numbers.now) table.old.items }
{
    for i in 0..numbers.len() {
        lay(
            netlist,
            readers,
            table,
            marks,
            i,
            store[numbers[i] as usize].bits(),
        );
    }
}

/// Lays the registers' numbers behind the inputs' in the table.
pub(crate) fn lay_registers(
    netlist: &Netlist,
    readers: &[Items<usize>],
    table: &mut Vec<u128>,
    marks: &mut Vec<u64>,
    numbers: &[u128],
)
    requires fit { FitPorts (q_bits netlist.now.raw.registers) numbers.now }
    requires readers { AreReaders netlist.now readers.now }
    requires held { AreHeld netlist.now table.old.items marks.old.items }
    ensures held { AreHeld netlist.now table.new.items marks.new.items }
    ensures table { table.new.items ≡ take (length netlist.now.raw.inputs) table.old.items ++ numbers.now ++ drop (length netlist.now.raw.inputs + length numbers.now) table.old.items }
{
    let first = netlist.raw().inputs.as_slice().len();
    for i in 0..numbers.len() {
        lay(netlist, readers, table, marks, first + i, numbers[i]);
    }
}

/// Lays numbers in place.
pub(crate) fn load_words(registers: &mut Vec<u128>, words: &[Word])
    requires { length words.now ≤ length registers.old.items }
    ensures { registers.new.items ≡ numbers_of words.now ++ drop (length words.now) registers.old.items }
{
    for i in 0..words.len() {
        registers[i] = words[i].bits();
    }
}

/// Gives each register the number at its D.
pub(crate) fn take_all(registers: &mut Vec<u128>, table: &[u128], next: &[Wires], netlist: &Netlist)
    requires wired { AllWired (driving netlist.now.raw) next.now (d_bits netlist.now.raw.registers) }
    requires numbers { FitPorts (driving netlist.now.raw) table.now }
    requires long { length registers.old.items ≡ length netlist.now.raw.registers }
    ensures { registers.new.items ≡ taken (plain (nets_of netlist.now.raw table.now)) 0 netlist.now.raw.registers }
{
    let count = netlist.raw().registers.as_slice().len();
    for i in 0..count {
        registers[i] = wires_number(table, &next[i]);
    }
}
