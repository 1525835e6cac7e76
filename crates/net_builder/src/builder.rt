//! A netlist that is being built: its cells so far, the nets that have a bit's value, its registers, its
//! signals, the bits that each signal has now, and its start value.
//!
//! New nets are numbered in order, so `nets` is above all. Invariant: there are at most 65,535 cells, and the
//! nets are those of the signals, at most 4,194,304, and at most 128 for each cell; each signal has bits, which `signal_bits`
//! counts, and a start value of their width; `writers` tells of each net whether it is joined or a bit of a register, and
//! to which bit it is joined by the first joint that names it.
ghost use Rattle.std.specs.Prelude.{◌≡◌, ◌⊎◌, ◌↔◌, ℕ, ◌^◌, ◌+◌, ◌<◌, ◌≤◌, List, [], ◌∷◌, ◌++◌, length, IfOk, IfErr, OnOk, OnErr, MatchOption, IsTrue, vec_len};
ghost use Rattle.std.specs.List.{Contains};
ghost use Rattle.net_builder.specs.declared.error.ElabError.TheVariants.{TooMany};
ghost use Rattle.mcy_base.specs.declared.kind.Kind.TheVariants.{Cells};
ghost use Rattle.netlist_core.specs.Numbers.{number};
ghost use Rattle.netlist_core.specs.Cells.{cell_value};
ghost use Rattle.netlist_core.specs.Runs.{Nets, values, plain, ports_seen, bits_at};
ghost use Rattle.netlist_core.specs.Shapes.{shape_of, widths, HasWidths};
ghost use Rattle.netlist_core.specs.Checked.{AllWide};
ghost use Rattle.net_builder.specs.Building.{RunsIn, Grows, PortsBelow, fresh_bits, empty, with_cell, with_declared, with_signal, with_joint, with_register, with_start, own_bits, signal, start_bits, declared_at};
ghost use Rattle.net_builder.specs.Written.{IsJoined, IsStored, joint_of};
ghost use Rattle.net_builder.specs.Finished.{Finished, IsStuck, step_of};
ghost use Rattle.net_builder.specs.Refusals.{IsShort, max_cells};

use crate::error::ElabError;
use crate::finishing::{FinishError, led_cells, led_ports, led_registers, steps_of, traced};
use crate::writers::{Writer, Writers};
use mcy_base::{Kind, Span, Text, Word};
use netlist_core::{
    Bit, BitList, Cell, CellKind, Port, PortList, Ports, RawNetlist, Register, copy_bits,
};
use std::alloc::{AllocError, Global};
use std::marker::Model;

/// A net that has a bit's value.
#[derive(Clone, Copy, Debug, PartialEq, Eq)]
pub struct Joint {
    pub net: u32,
    pub bit: Bit,
}

/// A signal: its name and place, its first net and its width. Its own nets stand one after the other.
#[derive(Drop)]
pub struct Signal {
    pub name: Text,
    pub span: Span,
    pub first: u32,
    pub width: u8,
}

/// Collects cells, joined nets, registers and signals.
pub struct Builder {
    alloc: Global,
    cells: Vec<Cell>,
    joints: Vec<Joint>,
    registers: Vec<Register>,
    declared: Vec<Signal>,
    signals: Vec<BitList>,
    starts: Vec<Word>,
    writers: Writers,
    nets: u32,
    signal_bits: u32,
}

impl Drop for Builder {
    fn drop(self) {
        let Builder {
            alloc: _alloc,
            cells: _cells,
            joints: _joints,
            registers: _registers,
            declared: _declared,
            signals: _signals,
            starts: _starts,
            writers: _writers,
            nets: _nets,
            signal_bits: _signal_bits,
        } = self;
    }
}

impl Model for Builder {
    ghost use Rattle.std.specs.Prelude.{◌≡◌, vec_len, ◌≤◌, ◌+◌, ◌*◌, length, map};
    ghost use Rattle.net_builder.specs.Building.{Building, own_bits, numbers_of, word_widths};
    ghost use Rattle.net_builder.specs.Written.{writers_of, writer_of};

    ghost Value = { Building };

    ghost view = { λ b. record { cells = b.cells.items; joints = b.joints.items; registers = b.registers.items; declared = b.declared.items; signals = b.signals.items; starts = numbers_of b.starts.items; nets = b.nets } };

    ghost invariant = { λ b. (length b.cells.items ≤ 65535) × (own_bits b.declared.items ≤ 4194304) × (b.nets ≤ own_bits b.declared.items + 128 * length b.cells.items) × (length b.declared.items ≡ length b.signals.items) × (length b.declared.items ≤ own_bits b.declared.items) × (word_widths b.starts.items ≡ map length b.signals.items) × (writers_of b.writers ≡ writer_of b.joints.items b.registers.items) × (b.signal_bits ≡ own_bits b.declared.items) };
}

/// The most cells of a netlist.
pub const MAX_CELLS: usize = 65_535;

/// New nets, from this number on.
fn fresh(alloc: Global, from: u32, width: u8) -> Result<BitList, AllocError>
    requires { from + width < 2 ^ 32 }
    ensures { IfOk result (λ bits. bits ≡ fresh_bits from width) }
{
    let mut bits = Vec::new(alloc);
    for k in 0..width {
        bits.push(Bit::Net(from + u32::from(k)))?;
    }
    Ok(BitList::from_vec(bits))
}

/// The ports of a cell with these inputs and this Y.
fn with_output(inputs: PortList, y: BitList) -> Result<PortList, AllocError>
    ensures { IfOk result (λ ports. ports ≡ inputs ++ y ∷ []) }
{
    let mut ports = inputs;
    ports.push(y)?;
    Ok(ports)
}

/// Adds an item at the end.
fn push<T: Drop>(items: &mut Vec<T>, item: T) -> Result<(), AllocError>
    ensures ok { OnOk result (items.new.items ≡ items.old.items ++ item ∷ []) }
    ensures err { OnErr result (items.new.items ≡ items.old.items) }
{
    items.push(item)?;
    Ok(())
}

/// Adds an item at the end of both lists.
fn push_both<T: Drop, U: Drop>(
    firsts: &mut Vec<T>,
    seconds: &mut Vec<U>,
    first: T,
    second: U,
) -> Result<(), AllocError>
    ensures firsts { OnOk result (firsts.new.items ≡ firsts.old.items ++ first ∷ []) }
    ensures seconds { OnOk result (seconds.new.items ≡ seconds.old.items ++ second ∷ []) }
    ensures first_stays { OnErr result (firsts.new.items ≡ firsts.old.items) }
    ensures second_stays { OnErr result (seconds.new.items ≡ seconds.old.items) }
{
    push(firsts, first)?;
    match push(seconds, second) {
        Ok(()) => Ok(()),
        Err(error) => {
            firsts.pop();
            Err(error)
        }
    }
}

/// The number 0 of a width.
fn zero(width: u8) -> Word
    requires some { 1 ≤ width }
    requires narrow { width ≤ 128 }
    ensures width { result.width ≡ width }
    ensures zero { result.bits ≡ 0 }
{
    Word::new(width, 0).unwrap()
}

impl Builder {
    /// A builder with nothing in it.
    pub fn new(alloc: Global) -> Builder
        ensures { result ≡ empty }
    {
        Builder {
            alloc,
            cells: Vec::new(alloc),
            joints: Vec::new(alloc),
            registers: Vec::new(alloc),
            declared: Vec::new(alloc),
            signals: Vec::new(alloc),
            starts: Vec::new(alloc),
            writers: Writers::new(alloc),
            nets: 0,
            signal_bits: 0,
        }
    }

    /// Declares the next signal, with new nets as its bits and 0 as its start value, and gives its number, from 0.
    /// Where there is no memory for it, the builder stays as it was.
    pub fn signal(&mut self, name: &str, span: Span, width: u8) -> Result<u32, AllocError>
        requires some { 1 ≤ width }
        requires narrow { width ≤ 128 }
        requires room { own_bits self.old.declared + width ≤ 4194304 }
        ensures number { IfOk result (λ n. n ≡ length self.old.signals) }
        ensures adds { IfOk result (λ n. self.new ≡ with_declared self.old name.now span width) }
        ensures unchanged { OnErr result (self.new ≡ self.old) }
    {
        let name = Text::copy(self.alloc, name)?;
        let bits = fresh(self.alloc, self.nets, width)?;
        let signal = Signal {
            name,
            span,
            first: self.nets,
            width,
        };
        push(&mut self.starts, zero(width))?;
        match push_both(&mut self.declared, &mut self.signals, signal, bits) {
            Ok(()) => {
                self.nets += u32::from(width);
                self.signal_bits += u32::from(width);
                Ok(self.signals.len() as u32 - 1)
            }
            Err(error) => {
                self.starts.pop();
                Err(error)
            }
        }
    }

    /// How many signals there are.
    pub fn signal_count(&self) -> u32
        ensures signals { result ≡ length self.now.signals }
        ensures declared { result ≡ length self.now.declared }
    {
        self.signals.len() as u32
    }

    /// How many bits the signals have together, at most 4,194,304.
    pub fn signal_bits(&self) -> u32
        ensures { result ≡ own_bits self.now.declared }
    {
        self.signal_bits
    }

    /// The name that the signal was declared with.
    pub fn name(&self, number: u32) -> &str
        requires { number < length self.now.declared }
        ensures { result.now ≡ (declared_at self.now number).name }
    {
        self.declared[number as usize].name.as_str()
    }

    /// The place that the signal was declared with.
    pub fn span(&self, number: u32) -> Span
        requires { number < length self.now.declared }
        ensures { result ≡ (declared_at self.now number).span }
    {
        self.declared[number as usize].span
    }

    /// Gives the signal other bits.
    pub fn set(&mut self, number: u32, bits: BitList)
        requires known { number < length self.old.signals }
        requires wide { length bits ≡ length (signal self.old number) }
        ensures { self.new ≡ with_signal number bits self.old }
    {
        self.signals[number as usize] = bits;
    }

    /// Gives the signal a start value: what its register starts with, or what the bits of it have that nothing writes
    /// (IEEE 1364-2005, 6.2.1).
    pub fn set_start(&mut self, number: u32, start: Word)
        requires known { number < length self.old.signals }
        requires wide { start.width ≡ length (signal self.old number) }
        ensures { self.new ≡ with_start number start.bits self.old }
    {
        self.starts[number as usize] = start;
    }

    /// The signal's start value, 0 where none was given.
    pub fn start(&self, number: u32) -> Word
        requires { number < length self.now.signals }
        ensures bits { result.bits ≡ start_bits self.now number }
        ensures width { result.width ≡ length (signal self.now number) }
    {
        self.starts[number as usize]
    }

    /// Says that a net has a bit's value. Where there is no memory for it, the builder stays as it was.
    pub fn join(&mut self, net: u32, bit: Bit) -> Result<(), AllocError>
        ensures adds { OnOk result (self.new ≡ with_joint net bit self.old) }
        ensures unchanged { OnErr result (self.new ≡ self.old) }
    {
        self.writers.make_room(net)?;
        push(&mut self.joints, Joint { net, bit })?;
        self.writers.join(net, bit);
        Ok(())
    }

    /// The bit that a net is joined to, by the first of the joints that name it.
    pub fn joined(&self, net: u32) -> Option<Bit>
        ensures is { result ≡ joint_of self.now.joints net }
        ensures tells { MatchOption result (¬ IsJoined self.now net) (λ bit. Contains self.now.joints (record { net = net; bit = bit })) }
    {
        match self.writers.of(net) {
            Writer::Joined(bit) => Some(bit),
            _ => None,
        }
    }

    /// Whether a net is joined, or a bit of a register's Q.
    pub fn is_written(&self, net: u32) -> bool
        ensures { IsTrue result ↔ (IsJoined self.now net ⊎ IsStored self.now net) }
    {
        match self.writers.of(net) {
            Writer::Nothing => false,
            _ => true,
        }
    }

    /// Adds a register. Where there is no memory for it, the builder stays as it was.
    pub fn register(
        &mut self,
        name: &str,
        span: Span,
        d: BitList,
        q: BitList,
        start: Word,
    ) -> Result<(), AllocError>
        requires d { length d ≡ start.width }
        requires q { length q ≡ start.width }
        ensures adds { OnOk result (self.new ≡ with_register (record { name = name.now; span = span; d = d; q = q; start = start }) self.old) }
        ensures unchanged { OnErr result (self.new ≡ self.old) }
    {
        let name = Text::copy(self.alloc, name)?;
        let written = copy_bits(self.alloc, &q)?;
        self.writers.make_room_for(written.as_slice())?;
        let register = Register {
            name,
            span,
            d,
            q,
            start,
        };
        push(&mut self.registers, register)?;
        self.writers.store(written.as_slice());
        Ok(())
    }

    /// The allocator.
    pub fn alloc(&self) -> Global {
        self.alloc
    }

    /// The bits that the signal has now.
    pub fn bits(&self, number: u32) -> &[Bit]
        requires { number < length self.now.signals }
        ensures { result.now ≡ signal self.now number }
    {
        self.signals[number as usize].as_slice()
    }

    /// The cells so far, at most 65,535.
    pub fn cells(&self) -> &[Cell]
        ensures cells { result.now ≡ self.now.cells }
        ensures few { length self.now.cells ≤ max_cells }
    {
        &self.cells
    }

    /// Adds the next cell, with these ports and new nets as its Y, and gives Y. There may be 65,535 cells.
    pub fn cell(
        &mut self,
        kind: CellKind,
        is_signed: bool,
        inputs: PortList,
        width: u8,
        span: Span,
    ) -> Result<BitList, ElabError>
        requires shape { HasWidths (shape_of kind) (widths inputs ++ width ∷ []) }
        requires wide { AllWide inputs }
        requires some { 1 ≤ width }
        requires narrow { width ≤ 128 }
        ensures y { IfOk result (λ y. y ≡ fresh_bits self.old.nets width) }
        ensures adds { IfOk result (λ y. self.new ≡ with_cell self.old kind is_signed inputs width span) }
        ensures computes { IfOk result (λ y. (nets : Nets) → RunsIn self.new nets → number (values nets y) ≡ cell_value kind is_signed width (ports_seen (plain nets) 0 0 inputs)) }
        ensures grows { PortsBelow self.old.nets inputs → IfOk result (λ y. Grows self.old self.new) }
        ensures full { length self.old.cells ≡ 65535 → result ≡ Err (TooMany Cells) }
        ensures short { IfErr result (λ e. IsShort (length self.old.cells + 1) e) }
    {
        if self.cells.len() >= MAX_CELLS {
            return Err(ElabError::TooMany(Kind::Cells));
        }
        let y = fresh(self.alloc, self.nets, width)?;
        let shown = fresh(self.alloc, self.nets, width)?;
        let ports = with_output(inputs, y)?;
        let cell = Cell {
            kind,
            is_signed,
            ports,
            span,
        };
        push(&mut self.cells, cell)?;
        self.nets += u32::from(width);
        Ok(shown)
    }

    /// The netlist of what was built, with these inputs and outputs, in which each net that is read is replaced by the
    /// bit that it leads to: a joined net leads where its bit does, the nets of inputs, of registers and of cells' Y lead
    /// to themselves, and any other bit of a signal to that of the signal's start value. Cells and registers keep their
    /// order.
    pub fn finish(
        self,
        top: Text,
        clock: Option<Text>,
        inputs: Vec<Port>,
        outputs: Vec<Port>,
    ) -> Result<RawNetlist, FinishError>
        ensures top { IfOk result (λ netlist. netlist.top ≡ top) }
        ensures clock { IfOk result (λ netlist. netlist.clock ≡ clock) }
        ensures finished { IfOk result (Finished self inputs.items outputs.items) }
        ensures loops { IfErr result (IsStuck (step_of self (bits_at inputs.items))) }
    {
        let alloc = self.alloc;
        let steps = steps_of(
            alloc,
            &self.signals,
            &self.starts,
            &inputs,
            &self.registers,
            &self.joints,
        )?;
        let trace = traced(alloc, steps)?;
        Ok(RawNetlist {
            top,
            clock,
            inputs: Ports::from_vec(inputs),
            outputs: led_ports(alloc, &trace, &outputs)?,
            registers: led_registers(alloc, &trace, &self.registers)?,
            cells: led_cells(alloc, &trace, &self.cells)?,
        })
    }
}
