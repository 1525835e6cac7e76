//! Bitwise operators and arithmetic (IEEE 1364-2005, 5.1.5, 5.1.10), on rows of one width.
ghost use Rattle.std.specs.Prelude.{◌≡◌, ◌≤◌, ◌^◌, ◌∷◌, [], All, Bool, false, ℕ, IfOk, length, replicate};
ghost use Rattle.netlist_core.specs.Shapes.{shape_of};
ghost use Rattle.gate_list.specs.declared.literal.GateLit.TheVariants.{Fixed};
ghost use Rattle.gate_list.specs.Gates.{count, IsLit};
ghost use Rattle.gate_words.specs.Rows.{row_of};
ghost use Rattle.gate_words.specs.Sums.{difference_of};
ghost use Rattle.cell_gates.specs.CellRows.{negated_bits, cell_row};

use gate_list::{GateList, GateLit};
use gate_words::{Operation, difference, negated_row, product, repeated, row, sum};
use netlist_core::{CellKind, Shape};
use std::alloc::{AllocError, Global};

/// The bits that are the same.
fn alike(
    alloc: Global,
    a: &[GateLit],
    b: &[GateLit],
    gates: &mut GateList,
) -> Result<Vec<GateLit>, AllocError>
    requires room { length gates.old.made ≤ 2 ^ 29 }
    requires narrow { length a.now ≤ 128 }
    requires a { All (IsLit (count gates.old)) a.now }
    requires b { All (IsLit (count gates.old)) b.now }
    requires same { length a.now ≡ length b.now }
    ensures { IfOk result (λ found. record { gates = gates.new; bits = found.items } ≡ negated_bits (row_of Operation.Xor gates.old a.now b.now)) }
{
    let apart = row(alloc, Operation::Xor, a, b, gates)?;
    negated_row(alloc, &apart, gates)
}

/// 0 without a row.
pub(crate) fn negative(
    alloc: Global,
    a: &[GateLit],
    gates: &mut GateList,
) -> Result<Vec<GateLit>, AllocError>
    requires room { length gates.old.made ≤ 2 ^ 29 }
    requires narrow { length a.now ≤ 128 }
    requires a { All (IsLit (count gates.old)) a.now }
    ensures { IfOk result (λ found. record { gates = gates.new; bits = found.items } ≡ difference_of gates.old (replicate (length a.now) (Fixed false)) a.now) }
{
    let zeros = repeated(alloc, GateLit::Fixed(false), a.len())?;
    difference(alloc, &zeros, a, gates)
}

/// A cell with A, B and Y of one width.
pub(crate) fn of_pair(
    alloc: Global,
    kind: CellKind,
    a: &[GateLit],
    b: &[GateLit],
    gates: &mut GateList,
) -> Result<Vec<GateLit>, AllocError>
    requires shape { shape_of kind ≡ Shape.Binary }
    requires room { length gates.old.made ≤ 2 ^ 29 }
    requires narrow { length a.now ≤ 128 }
    requires a { All (IsLit (count gates.old)) a.now }
    requires b { All (IsLit (count gates.old)) b.now }
    requires same { length a.now ≡ length b.now }
    ensures { (signed : Bool) (w : ℕ) → IfOk result (λ found. record { gates = gates.new; bits = found.items } ≡ cell_row kind signed w gates.old (a.now ∷ b.now ∷ [])) }
{
    match kind {
        CellKind::And => row(alloc, Operation::And, a, b, gates),
        CellKind::Or => row(alloc, Operation::Or, a, b, gates),
        CellKind::Xor => row(alloc, Operation::Xor, a, b, gates),
        CellKind::Xnor => alike(alloc, a, b, gates),
        CellKind::Add => sum(alloc, a, b, GateLit::Fixed(false), gates),
        CellKind::Sub => difference(alloc, a, b, gates),
        CellKind::Mul => product(alloc, a, b, gates),
        _ => Ok(Vec::new(alloc)),
    }
}
