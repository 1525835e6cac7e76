//! Rows of literals, bit 0 first: operations bit by bit, and chains over all bits of a row.
ghost use Rattle.std.specs.Prelude.{◌≡◌, ◌+◌, ◌-◌, ◌≤◌, ◌^◌, ◌++◌, All, IfOk, length, map, take, replicate, fold};
ghost use Rattle.gate_list.specs.declared.literal.GateLit.TheVariants.{Fixed};
ghost use Rattle.gate_list.specs.Folding.{negated};
ghost use Rattle.gate_list.specs.Gates.{count, IsLit, lit_value};
ghost use Rattle.gate_words.specs.Rows.{IsOperation, row_of, chain_of, fitted_to};
ghost use Rattle.gate_words.specs.Bits.{lit_values, operation_value, both_bits, AddsBits, AddsLit};

use crate::operation::Operation;
use gate_list::{GateList, GateLit};
use std::alloc::{AllocError, Global};

/// An operation on two rows, bit by bit.
pub fn row(
    alloc: Global,
    operation: Operation,
    a: &[GateLit],
    b: &[GateLit],
    gates: &mut GateList,
) -> Result<Vec<GateLit>, AllocError>
    requires room { length gates.old.made + length a.now ≤ 2 ^ 30 }
    requires select { IsOperation (count gates.old) operation }
    requires a { All (IsLit (count gates.old)) a.now }
    requires b { All (IsLit (count gates.old)) b.now }
    requires same { length a.now ≡ length b.now }
    ensures made { IfOk result (λ bits. record { gates = gates.new; bits = bits.items } ≡ row_of operation gates.old a.now b.now) }
    ensures adds { IfOk result (λ bits. AddsBits gates.old gates.new bits.items (length a.now) (length a.now) (λ values found. found ≡ both_bits (operation_value operation values) (lit_values values a.now) (lit_values values b.now))) }
{
    let mut bits = Vec::new(alloc);
    for i in 0..a.len() {
        bits.push(operation.apply(a[i], b[i], gates)?)?;
    }
    Ok(bits)
}

/// An operation on a literal and bit 0, on what that gives and bit 1, and so on.
pub fn chain(
    operation: Operation,
    start: GateLit,
    bits: &[GateLit],
    gates: &mut GateList,
) -> Result<GateLit, AllocError>
    requires room { length gates.old.made + length bits.now ≤ 2 ^ 30 }
    requires select { IsOperation (count gates.old) operation }
    requires start { IsLit (count gates.old) start }
    requires bits { All (IsLit (count gates.old)) bits.now }
    ensures made { IfOk result (λ lit. record { gates = gates.new; lit = lit } ≡ chain_of operation gates.old start bits.now) }
    ensures adds { IfOk result (λ lit. AddsLit gates.old gates.new lit (length bits.now) (λ values. fold (operation_value operation values) (lit_value values start) (lit_values values bits.now))) }
{
    let mut lit = start;
    for bit in bits {
        lit = operation.apply(lit, *bit, gates)?;
    }
    Ok(lit)
}

/// The negation of each bit, which takes no gate.
pub fn negated_row(
    alloc: Global,
    bits: &[GateLit],
    gates: &GateList,
) -> Result<Vec<GateLit>, AllocError>
    requires { All (IsLit (count gates.now)) bits.now }
    ensures { IfOk result (λ found. found.items ≡ map negated bits.now) }
{
    // Both are small, so a negated literal is a number of its type.
    let _ = gates.free() + gates.len();
    let mut found = Vec::new(alloc);
    for bit in bits {
        found.push(bit.negated())?;
    }
    Ok(found)
}

/// A row of one literal.
pub fn repeated(alloc: Global, bit: GateLit, width: usize) -> Result<Vec<GateLit>, AllocError>
    ensures { IfOk result (λ found. found.items ≡ replicate width bit) }
{
    let mut found = Vec::new(alloc);
    found.resize(width, bit)?;
    Ok(found)
}

/// The row at a width: cut, or filled with 0.
pub fn fitted(alloc: Global, bits: &[GateLit], width: usize) -> Result<Vec<GateLit>, AllocError>
    ensures { IfOk result (λ found. found.items ≡ fitted_to width bits.now) }
{
    let mut found = Vec::from_slice(alloc, bits)?;
    found.resize(width, GateLit::Fixed(false))?;
    Ok(found)
}
