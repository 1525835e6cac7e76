//! Sums, orders and equality of rows of one width.
ghost use Rattle.std.specs.Prelude.{◌≡◌, ◌+◌, ◌*◌, ◌%◌, ◌-◌, ◌≤◌, ◌<◌, ◌^◌, All, Bool, true, false, not, IfOk, length, map, nat_eq, nat_le, if◌then◌else◌};
ghost use Rattle.netlist_core.specs.Numbers.{digit, number};
ghost use Rattle.netlist_core.specs.Cells.{is_less};
ghost use Rattle.gate_list.specs.declared.literal.GateLit.TheVariants.{Fixed};
ghost use Rattle.gate_list.specs.Gates.{count, IsLit, lit_value};
ghost use Rattle.gate_words.specs.Bits.{lit_values, Grows, AddsBits, AddsLit};
ghost use Rattle.gate_words.specs.Sums.{full_sum, last_sum, carry_of, sum_of, difference_of, carry_out, top_negated, ordered, less_of, equal_of};

use crate::operation::Operation;
use crate::rows::{chain, negated_row, row};
use gate_list::{GateList, GateLit};
use std::alloc::{AllocError, Global};

/// A bit of a sum, and the carry to the next one.
#[derive(Clone, Copy)]
struct Summed {
    bit: GateLit,
    carry: GateLit,
}

/// A bit of a sum with its carry.
fn full_sum(
    a: GateLit,
    b: GateLit,
    carry: GateLit,
    gates: &mut GateList,
) -> Result<Summed, AllocError>
    requires room { length gates.old.made + 5 ≤ 2 ^ 30 }
    requires a { IsLit (count gates.old) a }
    requires b { IsLit (count gates.old) b }
    requires carry { IsLit (count gates.old) carry }
    ensures { IfOk result (λ s. record { gates = gates.new; sum = s.bit; carry = s.carry } ≡ full_sum gates.old a b carry) }
{
    let apart = gates.xor(a, b)?;
    let bit = gates.xor(apart, carry)?;
    let both = gates.and(a, b)?;
    let passed = gates.and(carry, apart)?;
    let next = gates.or(both, passed)?;
    Ok(Summed { bit, carry: next })
}

/// The last bit of a sum.
fn last_sum(
    a: GateLit,
    b: GateLit,
    carry: GateLit,
    gates: &mut GateList,
) -> Result<GateLit, AllocError>
    requires room { length gates.old.made + 2 ≤ 2 ^ 30 }
    requires a { IsLit (count gates.old) a }
    requires b { IsLit (count gates.old) b }
    requires carry { IsLit (count gates.old) carry }
    ensures { IfOk result (λ lit. record { gates = gates.new; lit = lit } ≡ last_sum gates.old a b carry) }
{
    let apart = gates.xor(a, b)?;
    let bit = gates.xor(apart, carry)?;
    Ok(bit)
}

/// The carry to the next bit.
fn carry_of(
    a: GateLit,
    b: GateLit,
    carry: GateLit,
    gates: &mut GateList,
) -> Result<GateLit, AllocError>
    requires room { length gates.old.made + 4 ≤ 2 ^ 30 }
    requires a { IsLit (count gates.old) a }
    requires b { IsLit (count gates.old) b }
    requires carry { IsLit (count gates.old) carry }
    ensures { IfOk result (λ lit. record { gates = gates.new; lit = lit } ≡ carry_of gates.old a b carry) }
{
    let both = gates.and(a, b)?;
    let apart = gates.xor(a, b)?;
    let passed = gates.and(carry, apart)?;
    let next = gates.or(both, passed)?;
    Ok(next)
}

/// The sum of two rows and a carry into bit 0, cut to their width.
pub fn sum(
    alloc: Global,
    a: &[GateLit],
    b: &[GateLit],
    carry: GateLit,
    gates: &mut GateList,
) -> Result<Vec<GateLit>, AllocError>
    requires room { length gates.old.made + 5 * length a.now ≤ 2 ^ 30 }
    requires a { All (IsLit (count gates.old)) a.now }
    requires b { All (IsLit (count gates.old)) b.now }
    requires carry { IsLit (count gates.old) carry }
    requires same { length a.now ≡ length b.now }
    ensures made { IfOk result (λ bits. record { gates = gates.new; bits = bits.items } ≡ sum_of gates.old a.now b.now carry) }
    ensures adds { IfOk result (λ bits. AddsBits gates.old gates.new bits.items (length a.now) (5 * length a.now) (λ values found. number found ≡ (number (lit_values values a.now) + number (lit_values values b.now) + digit (lit_value values carry)) % 2 ^ length a.now)) }
{
    let mut bits = Vec::new(alloc);
    if a.is_empty() {
        return Ok(bits);
    }
    let last = a.len() - 1;
    let mut carry = carry;
    for i in 0..last {
        let summed = full_sum(a[i], b[i], carry, gates)?;
        bits.push(summed.bit)?;
        carry = summed.carry;
    }
    bits.push(last_sum(a[last], b[last], carry, gates)?)?;
    Ok(bits)
}

/// The difference of two rows, cut to their width: the sum with each bit of the second negated, and carry 1.
pub fn difference(
    alloc: Global,
    a: &[GateLit],
    b: &[GateLit],
    gates: &mut GateList,
) -> Result<Vec<GateLit>, AllocError>
    requires room { length gates.old.made + 5 * length a.now ≤ 2 ^ 30 }
    requires a { All (IsLit (count gates.old)) a.now }
    requires b { All (IsLit (count gates.old)) b.now }
    requires same { length a.now ≡ length b.now }
    ensures made { IfOk result (λ bits. record { gates = gates.new; bits = bits.items } ≡ difference_of gates.old a.now b.now) }
    ensures adds { IfOk result (λ bits. AddsBits gates.old gates.new bits.items (length a.now) (5 * length a.now) (λ values found. number found ≡ (2 ^ length a.now + number (lit_values values a.now) - number (lit_values values b.now)) % 2 ^ length a.now)) }
{
    let flipped = negated_row(alloc, b, gates)?;
    sum(alloc, a, &flipped, GateLit::Fixed(true), gates)
}

/// The carry out of the last bit of a sum.
fn carry_out(
    a: &[GateLit],
    b: &[GateLit],
    carry: GateLit,
    gates: &mut GateList,
) -> Result<GateLit, AllocError>
    requires room { length gates.old.made + 4 * length a.now ≤ 2 ^ 30 }
    requires a { All (IsLit (count gates.old)) a.now }
    requires b { All (IsLit (count gates.old)) b.now }
    requires carry { IsLit (count gates.old) carry }
    requires same { length a.now ≡ length b.now }
    ensures { IfOk result (λ lit. record { gates = gates.new; lit = lit } ≡ carry_out gates.old a.now b.now carry) }
{
    let mut carry = carry;
    for i in 0..a.len() {
        carry = carry_of(a[i], b[i], carry, gates)?;
    }
    Ok(carry)
}

/// The row whose number gives the order: of a signed row the top bit is negated.
fn ordered(
    alloc: Global,
    signed: bool,
    bits: &[GateLit],
    gates: &GateList,
) -> Result<Vec<GateLit>, AllocError>
    requires { All (IsLit (count gates.now)) bits.now }
    ensures { IfOk result (λ found. found.items ≡ ordered signed bits.now) }
{
    // Both are small, so a negated literal is a number of its type.
    let _ = gates.free() + gates.len();
    let mut found = Vec::from_slice(alloc, bits)?;
    if signed {
        if let Some(top) = found.pop() {
            found.push(top.negated())?;
        }
    }
    Ok(found)
}

/// Whether the first of two rows is less, as unsigned or as signed numbers.
pub fn is_less(
    alloc: Global,
    signed: bool,
    a: &[GateLit],
    b: &[GateLit],
    gates: &mut GateList,
) -> Result<GateLit, AllocError>
    requires room { length gates.old.made + 4 * length a.now ≤ 2 ^ 30 }
    requires a { All (IsLit (count gates.old)) a.now }
    requires b { All (IsLit (count gates.old)) b.now }
    requires same { length a.now ≡ length b.now }
    ensures made { IfOk result (λ lit. record { gates = gates.new; lit = lit } ≡ less_of signed gates.old a.now b.now) }
    ensures adds { IfOk result (λ lit. AddsLit gates.old gates.new lit (4 * length a.now) (λ values. is_less signed (lit_values values a.now) (lit_values values b.now))) }
{
    let first = ordered(alloc, signed, a, gates)?;
    let second = ordered(alloc, signed, b, gates)?;
    let flipped = negated_row(alloc, &second, gates)?;
    let carry = carry_out(&first, &flipped, GateLit::Fixed(true), gates)?;
    // Both are small, so a negated literal is a number of its type.
    let _ = gates.free() + gates.len();
    Ok(carry.negated())
}

/// Whether two rows are the same.
pub fn is_equal(
    alloc: Global,
    a: &[GateLit],
    b: &[GateLit],
    gates: &mut GateList,
) -> Result<GateLit, AllocError>
    requires room { length gates.old.made + 2 * length a.now ≤ 2 ^ 30 }
    requires a { All (IsLit (count gates.old)) a.now }
    requires b { All (IsLit (count gates.old)) b.now }
    requires same { length a.now ≡ length b.now }
    ensures made { IfOk result (λ lit. record { gates = gates.new; lit = lit } ≡ equal_of gates.old a.now b.now) }
    ensures adds { IfOk result (λ lit. AddsLit gates.old gates.new lit (2 * length a.now) (λ values. nat_eq (number (lit_values values a.now)) (number (lit_values values b.now)))) }
{
    let apart = row(alloc, Operation::Xor, a, b, gates)?;
    let alike = negated_row(alloc, &apart, gates)?;
    chain(Operation::And, GateLit::Fixed(true), &alike, gates)
}
