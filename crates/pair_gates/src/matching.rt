//! Whether two netlists have the same ports and registers, and the first that only one of them has.
ghost use Rattle.std.specs.Prelude.{◌≡◌, ◌↔◌, ◌<◌, IsTrue, IfOk, MatchOption, length, slice_get};
ghost use Rattle.netlist_core.specs.Checked.{IsFirst};
ghost use Rattle.pair_gates.specs.Matching.{port_named, register_named, ports_named, registers_named, StandsAlone, AllStand, IsFirstAlone, PortsDiffer, RegistersDiffer, HaveSamePorts, HaveSameRegisters};

use mcy_base::Text;
use netlist_core::{Port, RawNetlist, Register};
use std::alloc::{AllocError, Global};

/// Whether two ports have one name and one width.
fn same_port(port: &Port, other: &Port) -> bool
    ensures { IsTrue result ↔ (port_named port.now ≡ port_named other.now) }
{
    let width = port.bits.as_slice().len() == other.bits.as_slice().len();
    let name = port.name.as_str() == other.name.as_str();
    width && name
}

/// Whether two registers have one name and one width.
fn same_register(register: &Register, other: &Register) -> bool
    ensures { IsTrue result ↔ (register_named register.now ≡ register_named other.now) }
{
    let width = register.q.as_slice().len() == other.q.as_slice().len();
    let name = register.name.as_str() == other.name.as_str();
    width && name
}

/// Whether a port stands at its place among the others.
fn port_stands(ports: &[Port], others: &[Port], place: usize) -> bool
    requires { place < length ports.now }
    ensures { IsTrue result ↔ (slice_get (ports_named others.now) place ≡ slice_get (ports_named ports.now) place) }
{
    match others.get(place) {
        Some(other) => same_port(other, &ports[place]),
        None => false,
    }
}

/// Whether a register stands at its place among the others.
fn register_stands(registers: &[Register], others: &[Register], place: usize) -> bool
    requires { place < length registers.now }
    ensures { IsTrue result ↔ (slice_get (registers_named others.now) place ≡ slice_get (registers_named registers.now) place) }
{
    match others.get(place) {
        Some(other) => same_register(other, &registers[place]),
        None => false,
    }
}

/// The first port that doesn't stand at its place among the others.
fn first_port(ports: &[Port], others: &[Port]) -> Option<usize>
    ensures { MatchOption result (AllStand (ports_named ports.now) (ports_named others.now)) (IsFirst (StandsAlone (ports_named ports.now) (ports_named others.now))) }
{
    for place in 0..ports.len() {
        if !port_stands(ports, others, place) {
            return Some(place);
        }
    }
    None
}

/// The first register that doesn't stand at its place among the others.
fn first_register(registers: &[Register], others: &[Register]) -> Option<usize>
    ensures { MatchOption result (AllStand (registers_named registers.now) (registers_named others.now)) (IsFirst (StandsAlone (registers_named registers.now) (registers_named others.now))) }
{
    for place in 0..registers.len() {
        if !register_stands(registers, others, place) {
            return Some(place);
        }
    }
    None
}

/// The name of that port.
fn port_name(alloc: Global, ports: &[Port], others: &[Port]) -> Result<Option<Text>, AllocError>
    ensures { IfOk result (λ name. MatchOption name (AllStand (ports_named ports.now) (ports_named others.now)) (IsFirstAlone (ports_named ports.now) (ports_named others.now))) }
{
    match first_port(ports, others) {
        Some(place) => Ok(Some(Text::copy(alloc, ports[place].name.as_str())?)),
        None => Ok(None),
    }
}

/// The name of that register.
fn register_name(
    alloc: Global,
    registers: &[Register],
    others: &[Register],
) -> Result<Option<Text>, AllocError>
    ensures { IfOk result (λ name. MatchOption name (AllStand (registers_named registers.now) (registers_named others.now)) (IsFirstAlone (registers_named registers.now) (registers_named others.now))) }
{
    match first_register(registers, others) {
        Some(place) => Ok(Some(Text::copy(alloc, registers[place].name.as_str())?)),
        None => Ok(None),
    }
}

/// The name of the first port that the other netlist doesn't have at its place, if there is one.
pub(crate) fn port_apart(
    alloc: Global,
    original: &RawNetlist,
    mutant: &RawNetlist,
) -> Result<Option<Text>, AllocError>
    ensures { IfOk result (λ name. MatchOption name (HaveSamePorts original.now mutant.now) (PortsDiffer original.now mutant.now)) }
{
    let (inputs, outputs) = (original.inputs.as_slice(), original.outputs.as_slice());
    let (others, shown) = (mutant.inputs.as_slice(), mutant.outputs.as_slice());
    if let Some(name) = port_name(alloc, inputs, others)? {
        return Ok(Some(name));
    }
    if let Some(name) = port_name(alloc, outputs, shown)? {
        return Ok(Some(name));
    }
    if let Some(name) = port_name(alloc, others, inputs)? {
        return Ok(Some(name));
    }
    port_name(alloc, shown, outputs)
}

/// The name of the first register that the other netlist doesn't have at its place, if there is one.
pub(crate) fn register_apart(
    alloc: Global,
    original: &RawNetlist,
    mutant: &RawNetlist,
) -> Result<Option<Text>, AllocError>
    ensures { IfOk result (λ name. MatchOption name (HaveSameRegisters original.now mutant.now) (RegistersDiffer original.now mutant.now)) }
{
    let (registers, others) = (original.registers.as_slice(), mutant.registers.as_slice());
    if let Some(name) = register_name(alloc, registers, others)? {
        return Ok(Some(name));
    }
    register_name(alloc, others, registers)
}
