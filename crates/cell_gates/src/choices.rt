//! Shifts (IEEE 1364-2005, 5.1.12), choices, and parts of rows.
ghost use Rattle.std.specs.Prelude.{◌≡◌, ◌≤◌, ◌^◌, ◌∷◌, [], All, Bool, ℕ, IfOk, length};
ghost use Rattle.netlist_core.specs.Shapes.{shape_of};
ghost use Rattle.gate_list.specs.Gates.{count, IsLit};
ghost use Rattle.cell_gates.specs.CellRows.{picked, kept_in, put_in, cell_row};

use crate::bits::top_lit;
use gate_list::{GateList, GateLit};
use gate_words::{Operation, Way, fitted, negated_row, repeated, row, shifted};
use netlist_core::{CellKind, Shape};
use std::alloc::{AllocError, Global};

/// A cell that shifts A.
pub(crate) fn of_shift(
    alloc: Global,
    kind: CellKind,
    a: &[GateLit],
    b: &[GateLit],
    gates: &mut GateList,
) -> Result<Vec<GateLit>, AllocError>
    requires shape { shape_of kind ≡ Shape.Shift }
    requires room { length gates.old.made ≤ 2 ^ 29 }
    requires narrow { length a.now ≤ 128 }
    requires short { length b.now ≤ 128 }
    requires a { All (IsLit (count gates.old)) a.now }
    requires b { All (IsLit (count gates.old)) b.now }
    ensures { (signed : Bool) (w : ℕ) → IfOk result (λ found. record { gates = gates.new; bits = found.items } ≡ cell_row kind signed w gates.old (a.now ∷ b.now ∷ [])) }
{
    match kind {
        CellKind::Shl => shifted(alloc, Way::Up, GateLit::Fixed(false), a, b, gates),
        CellKind::Shr => shifted(alloc, Way::Down, GateLit::Fixed(false), a, b, gates),
        CellKind::Sshr => shifted(alloc, Way::Down, top_lit(a), a, b, gates),
        _ => Ok(Vec::new(alloc)),
    }
}

/// The bits of A from number B on, at a width.
pub(crate) fn pick(
    alloc: Global,
    width: usize,
    a: &[GateLit],
    b: &[GateLit],
    gates: &mut GateList,
) -> Result<Vec<GateLit>, AllocError>
    requires room { length gates.old.made ≤ 2 ^ 29 }
    requires narrow { length a.now ≤ 128 }
    requires short { length b.now ≤ 128 }
    requires a { All (IsLit (count gates.old)) a.now }
    requires b { All (IsLit (count gates.old)) b.now }
    ensures { IfOk result (λ found. record { gates = gates.new; bits = found.items } ≡ picked width gates.old a.now b.now) }
{
    let down = shifted(alloc, Way::Down, GateLit::Fixed(false), a, b, gates)?;
    fitted(alloc, &down, width)
}

/// A without the bits from number B on that D is laid over.
fn kept(
    alloc: Global,
    a: &[GateLit],
    b: &[GateLit],
    long: usize,
    gates: &mut GateList,
) -> Result<Vec<GateLit>, AllocError>
    requires room { length gates.old.made ≤ 2 ^ 29 }
    requires narrow { length a.now ≤ 128 }
    requires short { length b.now ≤ 128 }
    requires a { All (IsLit (count gates.old)) a.now }
    requires b { All (IsLit (count gates.old)) b.now }
    ensures { IfOk result (λ found. record { gates = gates.new; bits = found.items } ≡ kept_in gates.old a.now b.now long) }
{
    let ones = repeated(alloc, GateLit::Fixed(true), long)?;
    let ones = fitted(alloc, &ones, a.len())?;
    let mask = shifted(alloc, Way::Up, GateLit::Fixed(false), &ones, b, gates)?;
    let clear = negated_row(alloc, &mask, gates)?;
    row(alloc, Operation::And, a, &clear, gates)
}

/// A with D laid at bit number B.
pub(crate) fn put(
    alloc: Global,
    a: &[GateLit],
    b: &[GateLit],
    d: &[GateLit],
    gates: &mut GateList,
) -> Result<Vec<GateLit>, AllocError>
    requires room { length gates.old.made ≤ 2 ^ 28 }
    requires narrow { length a.now ≤ 128 }
    requires short { length b.now ≤ 128 }
    requires a { All (IsLit (count gates.old)) a.now }
    requires b { All (IsLit (count gates.old)) b.now }
    requires d { All (IsLit (count gates.old)) d.now }
    ensures { IfOk result (λ found. record { gates = gates.new; bits = found.items } ≡ put_in gates.old a.now b.now d.now) }
{
    let kept = kept(alloc, a, b, d.len(), gates)?;
    let wide = fitted(alloc, d, a.len())?;
    let laid = shifted(alloc, Way::Up, GateLit::Fixed(false), &wide, b, gates)?;
    row(alloc, Operation::Or, &kept, &laid, gates)
}
