//! A simulator of one netlist.
//!
//! `table` has the numbers at inputs, registers' Q and cells' Y, in this order, as they were last settled, and
//! `registers` those that the registers hold now. They part at a clock: the registers take their D, and the table stays
//! as it is until the nets settle again. `gates`, `next` and `outputs` say where each reader finds its bits in the table:
//! the input ports of each cell, each register's D, and each output. `readers` has for each driver the cells that read it, and
//! `marks` tells which cells are to be computed: each other one has its number. All memory is taken by `new`.
ghost use Rattle.std.specs.Prelude.{◌≡◌, ℕ, ◌≤◌, ◌<◌, ◌↔◌, IsTrue, IfOk, Some, map, take, length, slice_index, slice_get};
ghost use Rattle.std.specs.List.{All};
ghost use Rattle.netlist_core.specs.declared.port.Port.{Port as Output};
ghost use Rattle.netlist_core.specs.declared.port.Register.{Register as Stored};
ghost use Rattle.netlist_core.specs.Runs.{Nets, plain, bits_at, q_bits, Holds, shown, taken};
ghost use Rattle.netlist_core.specs.Drivers.{drivers};
ghost use Rattle.cycle_sim.specs.Simulated.{HaveWidths, numbers_of, starts_of, settled_nets};

use crate::cycle::settle_cells;
use crate::parts::{Gate, Wires, word_at, word_of};
use crate::state::{
    first_numbers, have_widths, lay_named, lay_registers, lay_words, load_words, take_all,
};
use crate::wiring::wiring_of;
use mcy_base::{Items, Word};
use netlist_core::{Netlist, one_run};
use std::alloc::{AllocError, Global};
use std::marker::Model;

/// A netlist with the values of its nets and registers.
pub struct Sim {
    netlist: Netlist,
    gates: Vec<Gate>,
    next: Vec<Wires>,
    outputs: Vec<Wires>,
    readers: Vec<Items<usize>>,
    table: Vec<u128>,
    registers: Vec<u128>,
    marks: Vec<u64>,
}

impl Drop for Sim {
    fn drop(self) {
        let Sim {
            netlist: _netlist,
            gates: _gates,
            next: _next,
            outputs: _outputs,
            readers: _readers,
            table: _table,
            registers: _registers,
            marks: _marks,
        } = self;
    }
}

impl Model for Sim {
    ghost use Rattle.cycle_sim.specs.Simulated.{Simulated};
    ghost use Rattle.cycle_sim.specs.Kept.{IsSimulated};

    ghost Value = { Simulated };

    ghost view = { λ s. record { plan = s.netlist; table = s.table.items; registers = s.registers.items } };

    ghost invariant = { λ s. IsSimulated s.netlist s.gates.items s.next.items s.outputs.items s.readers.items s.table.items s.registers.items s.marks.items };
}

impl Sim {
    /// The simulator of a netlist. Registers hold their start values, and no net has the value 1.
    pub fn new(alloc: Global, netlist: Netlist) -> Result<Sim, AllocError>
        ensures plan { IfOk result (λ s. s.plan ≡ netlist) }
        ensures starts { IfOk result (λ s. s.registers ≡ starts_of netlist.raw) }
    {
        // By its clause the netlist is sound.
        let _parts = netlist.raw();
        let wiring = wiring_of(alloc, &netlist)?;
        let numbers = first_numbers(alloc, &netlist)?;
        Ok(Sim {
            netlist,
            gates: wiring.gates,
            next: wiring.next,
            outputs: wiring.outputs,
            readers: wiring.readers,
            table: numbers.table,
            registers: numbers.registers,
            marks: numbers.marks,
        })
    }

    /// The netlist.
    pub fn netlist(&self) -> &Netlist
        ensures { result.now ≡ self.now.plan }
    {
        &self.netlist
    }

    /// Whether there is a word for each input, of its width.
    pub fn takes(&self, inputs: &[Word]) -> bool
        ensures { IsTrue result ↔ HaveWidths (bits_at self.now.plan.raw.inputs) inputs.now }
    {
        have_widths(self.netlist.raw().inputs.as_slice(), inputs)
    }

    /// Computes all nets: those of the one cycle that has these inputs, a word for each, and the registers' values.
    pub fn settle(&mut self, inputs: &[Word])
        requires widths { HaveWidths (bits_at self.old.plan.raw.inputs) inputs.now }
        ensures holds { Holds (plain (settled_nets self.new)) (settled_nets self.new) self.old.plan.raw (numbers_of inputs.now) self.old.registers }
        ensures alone { (nets : Nets) → Holds (plain nets) nets self.old.plan.raw (numbers_of inputs.now) self.old.registers → (n : ℕ) → 1 ≤ drivers self.old.plan.raw n → nets n ≡ settled_nets self.new n }
        ensures plan { self.new.plan ≡ self.old.plan }
        ensures registers { self.new.registers ≡ self.old.registers }
    {
        lay_words(
            &self.netlist,
            self.readers.as_slice(),
            &mut self.table,
            &mut self.marks,
            inputs,
        );
        self.settle_nets();
    }

    /// Computes all nets as `settle` does. Each input has the word of the store that has its number.
    pub fn settle_with(&mut self, store: &[Word], numbers: &[u32])
        requires inside { All (λ k. k < length store.now) numbers.now }
        requires widths { map (slice_index (map (λ w. w.width) store.now)) numbers.now ≡ map length (bits_at self.old.plan.raw.inputs) }
        ensures holds { Holds (plain (settled_nets self.new)) (settled_nets self.new) self.old.plan.raw (map (slice_index (numbers_of store.now)) numbers.now) self.old.registers }
        ensures alone { (nets : Nets) → Holds (plain nets) nets self.old.plan.raw (map (slice_index (numbers_of store.now)) numbers.now) self.old.registers → (n : ℕ) → 1 ≤ drivers self.old.plan.raw n → nets n ≡ settled_nets self.new n }
        ensures plan { self.new.plan ≡ self.old.plan }
        ensures registers { self.new.registers ≡ self.old.registers }
    {
        lay_named(
            &self.netlist,
            self.readers.as_slice(),
            &mut self.table,
            &mut self.marks,
            store,
            numbers,
        );
        self.settle_nets();
    }

    /// Computes all nets, from the numbers that stand at the inputs and the registers' values.
    fn settle_nets(&mut self)
        ensures holds { Holds (plain (settled_nets self.new)) (settled_nets self.new) self.old.plan.raw (take (length self.old.plan.raw.inputs) self.old.table) self.old.registers }
        ensures alone { (nets : Nets) → Holds (plain nets) nets self.old.plan.raw (take (length self.old.plan.raw.inputs) self.old.table) self.old.registers → (n : ℕ) → 1 ≤ drivers self.old.plan.raw n → nets n ≡ settled_nets self.new n }
        ensures plan { self.new.plan ≡ self.old.plan }
        ensures registers { self.new.registers ≡ self.old.registers }
    {
        one_run();
        lay_registers(
            &self.netlist,
            self.readers.as_slice(),
            &mut self.table,
            &mut self.marks,
            self.registers.as_slice(),
        );
        settle_cells(
            &self.netlist,
            self.gates.as_slice(),
            self.readers.as_slice(),
            &mut self.table,
            &mut self.marks,
        );
    }

    /// Gives the registers these words, one for each, of its width. The nets stay as they were last settled.
    pub fn load(&mut self, words: &[Word])
        requires widths { HaveWidths (q_bits self.old.plan.raw.registers) words.now }
        ensures registers { self.new.registers ≡ numbers_of words.now }
        ensures plan { self.new.plan ≡ self.old.plan }
        ensures table { self.new.table ≡ self.old.table }
    {
        load_words(&mut self.registers, words);
    }

    /// Gives each register what stands at its D. The nets stay as they were last settled.
    pub fn clock(&mut self)
        ensures taken { self.new.registers ≡ taken (plain (settled_nets self.old)) 0 self.old.plan.raw.registers }
        ensures plan { self.new.plan ≡ self.old.plan }
        ensures table { self.new.table ≡ self.old.table }
    {
        take_all(
            &mut self.registers,
            self.table.as_slice(),
            self.next.as_slice(),
            &self.netlist,
        );
    }

    /// Computes all nets as `settle` does, and gives each register what stands at its D.
    pub fn step(&mut self, inputs: &[Word])
        requires widths { HaveWidths (bits_at self.old.plan.raw.inputs) inputs.now }
        ensures holds { Holds (plain (settled_nets self.new)) (settled_nets self.new) self.old.plan.raw (numbers_of inputs.now) self.old.registers }
        ensures alone { (nets : Nets) → Holds (plain nets) nets self.old.plan.raw (numbers_of inputs.now) self.old.registers → (n : ℕ) → 1 ≤ drivers self.old.plan.raw n → nets n ≡ settled_nets self.new n }
        ensures taken { self.new.registers ≡ taken (plain (settled_nets self.new)) 0 self.old.plan.raw.registers }
        ensures plan { self.new.plan ≡ self.old.plan }
    {
        self.settle(inputs);
        self.clock();
    }

    /// The word at an output, as the nets were last settled.
    pub fn output(&self, port: u32) -> Word
        requires { port < length self.now.plan.raw.outputs }
        ensures width { (p : Output) → slice_get self.now.plan.raw.outputs port ≡ Some p → result.width ≡ length p.bits }
        ensures bits { result.bits ≡ slice_index (shown (plain (settled_nets self.now)) self.now.plan.raw) port }
    {
        word_at(self.table.as_slice(), &self.outputs[port as usize])
    }

    /// The word that a register holds.
    pub fn register(&self, number: u32) -> Word
        requires { number < length self.now.plan.raw.registers }
        ensures width { (r : Stored) → slice_get self.now.plan.raw.registers number ≡ Some r → result.width ≡ length r.q }
        ensures bits { result.bits ≡ slice_index self.now.registers number }
    {
        let start = self.netlist.raw().registers.as_slice()[number as usize].start;
        word_of(start.width(), self.registers[number as usize])
    }
}
