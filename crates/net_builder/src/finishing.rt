//! The netlist of a builder: each net is replaced by the bit that it leads to.
ghost use Rattle.std.specs.Prelude.{◌≡◌, ◌↔◌, ℕ, map, IfOk, IfErr, length};
ghost use Rattle.netlist_core.specs.declared.bit.Bit.{Bit as NetBit};
ghost use Rattle.netlist_core.specs.Runs.{bits_at, q_bits};
ghost use Rattle.net_builder.specs.declared.finishing.FinishError.TheVariants.{Memory};
ghost use Rattle.net_builder.specs.Building.{numbers_of};
ghost use Rattle.net_builder.specs.Finished.{LeadsTo, IsStuck, led, all_led, led_cell, led_register, led_port};
ghost use Rattle.net_builder.specs.Stepping.{next_in, no_steps, after_starts, after_all_kept, after_joints};
ghost use Rattle.net_builder.specs.Tracing.{known_of, end_in};

use crate::builder::Joint;
use crate::loops::least_on_loop;
use crate::steps::Steps;
use crate::tracing::Trace;
use mcy_base::{Text, Word};
use netlist_core::{
    Bit, BitList, Cell, CellList, Port, PortList, Ports, Register, RegisterList, copy_bits,
};
use std::alloc::{AllocError, Global};

/// Why there is no netlist of what was built.
#[derive(Clone, Copy, Debug, PartialEq, Eq)]
pub enum FinishError {
    /// Joined nets lead back to themselves. It is the least such net.
    Loop(u32),
    /// There is no memory for it.
    Memory,
}

impl From<AllocError> for FinishError {
    ghost from_gives = { λ _ e. e ≡ Memory };

    fn from(_error: AllocError) -> Self {
        FinishError::Memory
    }
}

/// The step of each net, where these are the signals with their start values, the inputs, registers and joints.
pub(crate) fn steps_of(
    alloc: Global,
    signals: &[BitList],
    starts: &[Word],
    inputs: &[Port],
    registers: &[Register],
    joints: &[Joint],
) -> Result<Steps, AllocError>
    requires { length signals.now ≡ length starts.now }
    ensures { IfOk result (λ s. next_in s ≡ after_joints joints.now (after_all_kept (q_bits registers.now) (after_all_kept (bits_at inputs.now) (after_starts signals.now (numbers_of starts.now) no_steps)))) }
{
    let mut steps = Steps::new(alloc);
    steps.lay_starts(signals, starts)?;
    steps.keep_ports(inputs)?;
    steps.keep_registers(registers)?;
    steps.lay_joints(joints)?;
    Ok(steps)
}

/// Where each net leads, where none leads back to itself.
pub(crate) fn traced(alloc: Global, steps: Steps) -> Result<Trace, FinishError>
    ensures ends { IfOk result (λ t. (n : ℕ) (end : NetBit) → LeadsTo (next_in steps) n end ↔ (end_in (known_of t) n ≡ end)) }
    ensures loops { IfErr result (IsStuck (next_in steps)) }
{
    let trace = Trace::of(alloc, steps)?;
    if trace.loops().is_empty() {
        return Ok(trace);
    }
    let least = least_on_loop(alloc, trace.steps(), trace.loops())?;
    Err(FinishError::Loop(least))
}

/// The bits that these lead to.
fn led_bits(alloc: Global, trace: &Trace, bits: &[Bit]) -> Result<BitList, AllocError>
    ensures { IfOk result (λ b. b ≡ all_led (end_in (known_of trace.now)) bits.now) }
{
    let mut found = Vec::new(alloc);
    for bit in bits {
        found.push(trace.led(*bit))?;
    }
    Ok(BitList::from_vec(found))
}

fn led_ports_of(alloc: Global, trace: &Trace, ports: &[BitList]) -> Result<PortList, AllocError>
    ensures { IfOk result (λ p. p ≡ map (all_led (end_in (known_of trace.now))) ports.now) }
{
    let mut found = Vec::new(alloc);
    for bits in ports {
        found.push(led_bits(alloc, trace, bits.as_slice())?)?;
    }
    Ok(PortList::from_vec(found))
}

fn led_one_cell(alloc: Global, trace: &Trace, cell: &Cell) -> Result<Cell, AllocError>
    ensures { IfOk result (λ c. c ≡ led_cell (end_in (known_of trace.now)) cell.now) }
{
    Ok(Cell {
        kind: cell.kind,
        is_signed: cell.is_signed,
        ports: led_ports_of(alloc, trace, cell.ports.as_slice())?,
        span: cell.span,
    })
}

/// The cells with the bits that theirs lead to.
pub(crate) fn led_cells(
    alloc: Global,
    trace: &Trace,
    cells: &[Cell],
) -> Result<CellList, AllocError>
    ensures { IfOk result (λ c. c ≡ map (led_cell (end_in (known_of trace.now))) cells.now) }
{
    let mut found = Vec::new(alloc);
    for cell in cells {
        found.push(led_one_cell(alloc, trace, cell)?)?;
    }
    Ok(CellList::from_vec(found))
}

fn led_one_register(
    alloc: Global,
    trace: &Trace,
    register: &Register,
) -> Result<Register, AllocError>
    ensures { IfOk result (λ r. r ≡ led_register (end_in (known_of trace.now)) register.now) }
{
    Ok(Register {
        name: Text::copy(alloc, register.name.as_str())?,
        span: register.span,
        d: led_bits(alloc, trace, register.d.as_slice())?,
        q: copy_bits(alloc, &register.q)?,
        start: register.start,
    })
}

/// The registers with the bits that their D leads to.
pub(crate) fn led_registers(
    alloc: Global,
    trace: &Trace,
    registers: &[Register],
) -> Result<RegisterList, AllocError>
    ensures { IfOk result (λ r. r ≡ map (led_register (end_in (known_of trace.now))) registers.now) }
{
    let mut found = Vec::new(alloc);
    for register in registers {
        found.push(led_one_register(alloc, trace, register)?)?;
    }
    Ok(RegisterList::from_vec(found))
}

fn led_one_port(alloc: Global, trace: &Trace, port: &Port) -> Result<Port, AllocError>
    ensures { IfOk result (λ p. p ≡ led_port (end_in (known_of trace.now)) port.now) }
{
    Ok(Port {
        name: Text::copy(alloc, port.name.as_str())?,
        bits: led_bits(alloc, trace, port.bits.as_slice())?,
    })
}

/// The outputs with the bits that theirs lead to.
pub(crate) fn led_ports(alloc: Global, trace: &Trace, ports: &[Port]) -> Result<Ports, AllocError>
    ensures { IfOk result (λ p. p ≡ map (led_port (end_in (known_of trace.now))) ports.now) }
{
    let mut found = Vec::new(alloc);
    for port in ports {
        found.push(led_one_port(alloc, trace, port)?)?;
    }
    Ok(Ports::from_vec(found))
}
