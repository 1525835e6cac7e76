//! Reductions (IEEE 1364-2005, 5.1.11) and the truth of rows (5.1.9).
ghost use Rattle.std.specs.Prelude.{◌≡◌, ◌≤◌, ◌^◌, ◌∷◌, [], All, Bool, ℕ, IfOk, length};
ghost use Rattle.gate_list.specs.Gates.{count, IsLit};
ghost use Rattle.gate_words.specs.Rows.{IsOperation};
ghost use Rattle.cell_gates.specs.CellRows.{reduced, logical};

use crate::bits::one_bit;
use gate_list::{GateList, GateLit};
use gate_words::{Operation, chain, row};
use std::alloc::{AllocError, Global};

/// A chain over all bits, from a constant on, negated where that is wanted.
pub(crate) fn reduced(
    alloc: Global,
    operation: Operation,
    start: bool,
    negate: bool,
    bits: &[GateLit],
    gates: &mut GateList,
) -> Result<Vec<GateLit>, AllocError>
    requires room { length gates.old.made ≤ 2 ^ 29 }
    requires narrow { length bits.now ≤ 128 }
    requires select { IsOperation (count gates.old) operation }
    requires bits { All (IsLit (count gates.old)) bits.now }
    ensures { IfOk result (λ found. record { gates = gates.new; bits = found.items } ≡ reduced operation start negate gates.old bits.now) }
{
    let lit = chain(operation, GateLit::Fixed(start), bits, gates)?;
    one_bit(alloc, negate, lit, gates)
}

/// Whether both rows have a 1, or one of them has, by the operation.
pub(crate) fn logical(
    alloc: Global,
    operation: Operation,
    a: &[GateLit],
    b: &[GateLit],
    gates: &mut GateList,
) -> Result<Vec<GateLit>, AllocError>
    requires room { length gates.old.made ≤ 2 ^ 29 }
    requires narrow { length a.now ≤ 128 }
    requires short { length b.now ≤ 128 }
    requires select { IsOperation (count gates.old) operation }
    requires a { All (IsLit (count gates.old)) a.now }
    requires b { All (IsLit (count gates.old)) b.now }
    ensures { IfOk result (λ found. record { gates = gates.new; bits = found.items } ≡ logical operation gates.old a.now b.now) }
{
    let first = chain(Operation::Or, GateLit::Fixed(false), a, gates)?;
    let second = chain(Operation::Or, GateLit::Fixed(false), b, gates)?;
    row(alloc, operation, &[first], &[second], gates)
}
