//! Relations and equality (IEEE 1364-2005, 5.1.7, 5.1.8), on rows of one width.
ghost use Rattle.std.specs.Prelude.{◌≡◌, ◌≤◌, ◌^◌, ◌∷◌, [], All, ℕ, IfOk, length};
ghost use Rattle.netlist_core.specs.Shapes.{shape_of};
ghost use Rattle.gate_list.specs.Gates.{count, IsLit};
ghost use Rattle.gate_words.specs.Sums.{less_of, equal_of};
ghost use Rattle.cell_gates.specs.CellRows.{lit_row, cell_row};

use crate::bits::one_bit;
use gate_list::{GateList, GateLit};
use gate_words::{is_equal, is_less};
use netlist_core::{CellKind, Shape};
use std::alloc::{AllocError, Global};

/// Whether the first row is less, negated where that is wanted.
fn less_row(
    alloc: Global,
    signed: bool,
    negate: bool,
    a: &[GateLit],
    b: &[GateLit],
    gates: &mut GateList,
) -> Result<Vec<GateLit>, AllocError>
    requires room { length gates.old.made ≤ 2 ^ 29 }
    requires narrow { length a.now ≤ 128 }
    requires a { All (IsLit (count gates.old)) a.now }
    requires b { All (IsLit (count gates.old)) b.now }
    requires same { length a.now ≡ length b.now }
    ensures { IfOk result (λ found. record { gates = gates.new; bits = found.items } ≡ lit_row negate (less_of signed gates.old a.now b.now)) }
{
    let lit = is_less(alloc, signed, a, b, gates)?;
    one_bit(alloc, negate, lit, gates)
}

/// Whether the rows are the same, negated where that is wanted.
fn equal_row(
    alloc: Global,
    negate: bool,
    a: &[GateLit],
    b: &[GateLit],
    gates: &mut GateList,
) -> Result<Vec<GateLit>, AllocError>
    requires room { length gates.old.made ≤ 2 ^ 29 }
    requires narrow { length a.now ≤ 128 }
    requires a { All (IsLit (count gates.old)) a.now }
    requires b { All (IsLit (count gates.old)) b.now }
    requires same { length a.now ≡ length b.now }
    ensures { IfOk result (λ found. record { gates = gates.new; bits = found.items } ≡ lit_row negate (equal_of gates.old a.now b.now)) }
{
    let lit = is_equal(alloc, a, b, gates)?;
    one_bit(alloc, negate, lit, gates)
}

/// A cell that compares A and B.
pub(crate) fn of_relation(
    alloc: Global,
    kind: CellKind,
    signed: bool,
    a: &[GateLit],
    b: &[GateLit],
    gates: &mut GateList,
) -> Result<Vec<GateLit>, AllocError>
    requires shape { shape_of kind ≡ Shape.Relation }
    requires room { length gates.old.made ≤ 2 ^ 29 }
    requires narrow { length a.now ≤ 128 }
    requires a { All (IsLit (count gates.old)) a.now }
    requires b { All (IsLit (count gates.old)) b.now }
    requires same { length a.now ≡ length b.now }
    ensures { (w : ℕ) → IfOk result (λ found. record { gates = gates.new; bits = found.items } ≡ cell_row kind signed w gates.old (a.now ∷ b.now ∷ [])) }
{
    match kind {
        CellKind::Lt => less_row(alloc, signed, false, a, b, gates),
        CellKind::Le => less_row(alloc, signed, true, b, a, gates),
        CellKind::Gt => less_row(alloc, signed, false, b, a, gates),
        CellKind::Ge => less_row(alloc, signed, true, a, b, gates),
        CellKind::Eq => equal_row(alloc, false, a, b, gates),
        CellKind::Ne => equal_row(alloc, true, a, b, gates),
        _ => Ok(Vec::new(alloc)),
    }
}
