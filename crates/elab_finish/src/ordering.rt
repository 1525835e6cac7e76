//! The registers of a netlist in the order in which their signals are declared.
ghost use Rattle.std.specs.Prelude.{◌≡◌, ◌<◌, ◌≤◌, ◌++◌, ◌∷◌, [], ℕ, length, IfOk, IfSome, OnOk};
ghost use Rattle.netlist_core.specs.declared.port.Register.{Register as Slot};
ghost use Rattle.netlist_core.specs.Runs.{q_bits};
ghost use Rattle.netlist_core.specs.Drivers.{times_at};
ghost use Rattle.net_builder.specs.Written.{IsJoined, IsStored, is_stored};
ghost use Rattle.elab_finish.specs.Endings.{AreKnown, is_register, registers_in};
ghost use Rattle.elab_finish.specs.Heads.{head_in, HaveHeads};
ghost use Rattle.elab_finish.specs.Ordering.{IsSlot, AreSlots, AddsSlot, IsOnly, IsFilled, AreFilled};

use crate::heads::Heads;
use crate::ports::name_of;
use mcy_base::Text;
use net_builder::{Builder, copied_bits};
use netlist_core::{Bit, BitList, Register, copy_bits};
use std::alloc::{AllocError, Global};

/// Whether a net is a bit of a register.
fn is_stored(builder: &Builder, net: u32) -> bool
    requires { (n : ℕ) → IsJoined builder.now n → ¬ IsStored builder.now n }
    ensures { result ≡ is_stored builder.now.registers net }
{
    match builder.joined(net) {
        Some(_) => false,
        None => builder.is_written(net),
    }
}

/// Whether a signal has a register.
fn is_register(builder: &Builder, number: u32) -> bool
    requires known { number < length builder.now.signals }
    requires single { (n : ℕ) → IsJoined builder.now n → ¬ IsStored builder.now n }
    ensures { result ≡ is_register builder.now number }
{
    match builder.bits(number) {
        [Bit::Net(net), ..] => is_stored(builder, *net),
        _ => false,
    }
}

/// The register of a signal, with nothing that it takes.
fn slot(builder: &Builder, number: u32) -> Result<Register, AllocError>
    requires { number < length builder.now.signals }
    ensures { IfOk result (IsSlot builder.now number) }
{
    let count = builder.signal_count();
    prove!(number < count);
    let name = name_of(builder, number)?;
    let span = builder.span(number);
    let d = BitList::from_vec(Vec::new(builder.alloc()));
    let q = copied_bits(builder.alloc(), builder.bits(number))?;
    let start = builder.start(number);
    Ok(Register {
        name,
        span,
        d,
        q,
        start,
    })
}

/// Adds the register of a signal.
fn push_slot(found: &mut Vec<Register>, builder: &Builder, number: u32) -> Result<(), AllocError>
    requires { number < length builder.now.signals }
    ensures { OnOk result ((r : Slot) × IsSlot builder.now number r × (found.new.items ≡ found.old.items ++ r ∷ [])) }
{
    let register = slot(builder, number)?;
    found.push(register)?;
    Ok(())
}

/// Adds the register of a signal, where it has one.
fn add_slot(found: &mut Vec<Register>, builder: &Builder, number: u32) -> Result<(), AllocError>
    requires known { number < length builder.now.signals }
    requires single { (n : ℕ) → IsJoined builder.now n → ¬ IsStored builder.now n }
    ensures { OnOk result (AddsSlot builder.now number found.old.items found.new.items) }
{
    if is_register(builder, number) {
        push_slot(found, builder, number)
    } else {
        Ok(())
    }
}

/// The registers of those of the signals that have one, in their order, with nothing that they take.
pub(crate) fn slots(builder: &Builder, declared: &[u32]) -> Result<Vec<Register>, AllocError>
    requires known { AreKnown builder.now declared.now }
    requires single { (n : ℕ) → IsJoined builder.now n → ¬ IsStored builder.now n }
    ensures { IfOk result (λ s. AreSlots builder.now (registers_in builder.now declared.now) s.items) }
{
    let mut found = Vec::new(builder.alloc());
    for number in declared {
        add_slot(&mut found, builder, *number)?;
    }
    Ok(found)
}

/// The register of which these are the lowest bits.
fn register_at<'a>(heads: &Heads, registers: &'a [Register], bits: &[Bit]) -> Option<&'a Register>
    requires { HaveHeads registers.now (head_in heads.now.table.items) }
    ensures { IfSome result (λ r. IsOnly registers.now bits.now r.now) }
{
    match bits {
        [Bit::Net(head), ..] => match heads.of(*head) {
            Some(place) => registers.get(place),
            None => None,
        },
        _ => None,
    }
}

/// A register with what the register takes that has its Q.
fn filled(
    alloc: Global,
    heads: &Heads,
    registers: &[Register],
    slot: &Register,
) -> Result<Register, AllocError>
    requires { HaveHeads registers.now (head_in heads.now.table.items) }
    ensures { IfOk result (IsFilled registers.now slot.now) }
{
    match register_at(heads, registers, slot.q.as_slice()) {
        Some(register) => Ok(Register {
            name: Text::copy(alloc, slot.name.as_str())?,
            span: slot.span,
            d: copy_bits(alloc, &register.d)?,
            q: copy_bits(alloc, &slot.q)?,
            start: slot.start,
        }),
        None => Err(AllocError),
    }
}

/// Registers with what those of a list take that have their Q.
pub(crate) fn all_filled(
    alloc: Global,
    registers: &[Register],
    slots: &[Register],
) -> Result<Vec<Register>, AllocError>
    requires { (n : ℕ) → times_at n (q_bits registers.now) ≤ 1 }
    ensures { IfOk result (λ found. AreFilled registers.now slots.now found.items) }
{
    let heads = Heads::of_registers(alloc, registers)?;
    let mut found = Vec::new(alloc);
    for slot in slots {
        found.push(filled(alloc, &heads, registers, slot)?)?;
    }
    Ok(found)
}
