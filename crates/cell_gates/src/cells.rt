//! Cells as gates.
ghost use Rattle.std.specs.Prelude.{◌≡◌, ◌≤◌, ◌<◌, ◌^◌, ◌++◌, ◌∷◌, [], All, Bool, ℕ, IfOk, IfErr, OnOk, length, map};
ghost use Rattle.netlist_core.specs.Runs.{input_ports, output_port};
ghost use Rattle.netlist_core.specs.Shapes.{shape_of, widths, HasWidths, HasShape};
ghost use Rattle.netlist_core.specs.Checked.{AllWide};
ghost use Rattle.gate_list.specs.Gates.{count, IsLit};
ghost use Rattle.gate_words.specs.Bits.{AddsBits};
ghost use Rattle.cell_gates.specs.CellRows.{cell_row};
ghost use Rattle.cell_gates.specs.Meanings.{CellIs};
ghost use Rattle.cell_gates.specs.Weights.{weight};

use crate::arithmetic::{negative, of_pair};
use crate::bits::first_lit;
use crate::choices::{of_shift, pick, put};
use crate::error::GateError;
use crate::reductions::{logical, reduced};
use crate::relations::of_relation;
use gate_list::{GateList, GateLit};
use gate_words::{Operation, negated_row, row};
use mcy_base::Items;
use netlist_core::{BitList, Cell, CellKind, Shape};
use std::alloc::{AllocError, Global};

/// The literals at a port, from bit 0 on.
pub type GateBits = Items<GateLit>;

/// The most gates that a list has with the gates of a cell.
const MOST_GATES: u32 = 200_000;

/// A cell with one input port.
fn of_one(
    alloc: Global,
    kind: CellKind,
    a: &[GateLit],
    gates: &mut GateList,
) -> Result<Vec<GateLit>, AllocError>
    requires room { length gates.old.made ≤ 2 ^ 28 }
    requires narrow { length a.now ≤ 128 }
    requires a { All (IsLit (count gates.old)) a.now }
    ensures { (signed : Bool) (w : ℕ) → IfOk result (λ found. record { gates = gates.new; bits = found.items } ≡ cell_row kind signed w gates.old (a.now ∷ [])) }
{
    match kind {
        CellKind::Not => negated_row(alloc, a, gates),
        CellKind::Neg => negative(alloc, a, gates),
        CellKind::Rand => reduced(alloc, Operation::And, true, false, a, gates),
        CellKind::Ror => reduced(alloc, Operation::Or, false, false, a, gates),
        CellKind::Rxor => reduced(alloc, Operation::Xor, false, false, a, gates),
        CellKind::Rnand => reduced(alloc, Operation::And, true, true, a, gates),
        CellKind::Rnor => reduced(alloc, Operation::Or, false, true, a, gates),
        CellKind::Rxnor => reduced(alloc, Operation::Xor, false, true, a, gates),
        CellKind::Lnot => reduced(alloc, Operation::Or, false, true, a, gates),
        _ => Ok(Vec::new(alloc)),
    }
}

/// A cell with two input ports.
fn of_two(
    alloc: Global,
    kind: CellKind,
    signed: bool,
    width: usize,
    a: &[GateLit],
    b: &[GateLit],
    gates: &mut GateList,
) -> Result<Vec<GateLit>, AllocError>
    requires shape { HasWidths (shape_of kind) (length a.now ∷ length b.now ∷ width ∷ []) }
    requires room { length gates.old.made ≤ 2 ^ 28 }
    requires narrow { length a.now ≤ 128 }
    requires short { length b.now ≤ 128 }
    requires a { All (IsLit (count gates.old)) a.now }
    requires b { All (IsLit (count gates.old)) b.now }
    ensures { IfOk result (λ found. record { gates = gates.new; bits = found.items } ≡ cell_row kind signed width gates.old (a.now ∷ b.now ∷ [])) }
{
    match kind.shape() {
        Shape::Binary => of_pair(alloc, kind, a, b, gates),
        Shape::Relation => of_relation(alloc, kind, signed, a, b, gates),
        Shape::Shift => of_shift(alloc, kind, a, b, gates),
        _ => match kind {
            CellKind::Land => logical(alloc, Operation::And, a, b, gates),
            CellKind::Lor => logical(alloc, Operation::Or, a, b, gates),
            CellKind::Pick => pick(alloc, width, a, b, gates),
            _ => Ok(Vec::new(alloc)),
        },
    }
}

/// A cell with three input ports.
fn of_three(
    alloc: Global,
    kind: CellKind,
    a: &[GateLit],
    b: &[GateLit],
    d: &[GateLit],
    width: usize,
    gates: &mut GateList,
) -> Result<Vec<GateLit>, AllocError>
    requires shape { HasWidths (shape_of kind) (length a.now ∷ length b.now ∷ length d.now ∷ width ∷ []) }
    requires room { length gates.old.made ≤ 2 ^ 28 }
    requires narrow { length a.now ≤ 128 }
    requires short { length b.now ≤ 128 }
    requires a { All (IsLit (count gates.old)) a.now }
    requires b { All (IsLit (count gates.old)) b.now }
    requires d { All (IsLit (count gates.old)) d.now }
    ensures { (signed : Bool) → IfOk result (λ found. record { gates = gates.new; bits = found.items } ≡ cell_row kind signed width gates.old (a.now ∷ b.now ∷ d.now ∷ [])) }
{
    match kind {
        CellKind::Mux => row(alloc, Operation::Mux(first_lit(a)), b, d, gates),
        CellKind::Put => put(alloc, a, b, d, gates),
        _ => Ok(Vec::new(alloc)),
    }
}

/// A cell of this kind, whose Y has this width.
fn of_inputs(
    alloc: Global,
    kind: CellKind,
    signed: bool,
    width: usize,
    inputs: &[GateBits],
    gates: &mut GateList,
) -> Result<Vec<GateLit>, AllocError>
    requires shape { HasWidths (shape_of kind) (map length inputs.now ++ width ∷ []) }
    requires room { length gates.old.made ≤ 2 ^ 28 }
    requires narrow { All (λ bits. length bits ≤ 128) inputs.now }
    requires literals { All (All (IsLit (count gates.old))) inputs.now }
    ensures { IfOk result (λ found. record { gates = gates.new; bits = found.items } ≡ cell_row kind signed width gates.old inputs.now) }
{
    match inputs {
        [a] => of_one(alloc, kind, a.as_slice(), gates),
        [a, b] => of_two(
            alloc,
            kind,
            signed,
            width,
            a.as_slice(),
            b.as_slice(),
            gates,
        ),
        [a, b, d] => of_three(
            alloc,
            kind,
            a.as_slice(),
            b.as_slice(),
            d.as_slice(),
            width,
            gates,
        ),
        _ => Ok(Vec::new(alloc)),
    }
}

/// The width of Y.
fn y_width(ports: &[BitList]) -> usize
    ensures { result ≡ length (output_port ports.now) }
{
    match ports {
        [] => 0,
        [y] => y.as_slice().len(),
        [_, rest @ ..] => y_width(rest),
    }
}

/// Adds a cell as gates, and gives the literals of its Y. After a refusal the gates that were there stand, with more behind them.
pub fn cell_gates(
    alloc: Global,
    cell: &Cell,
    inputs: &[GateBits],
    gates: &mut GateList,
) -> Result<GateBits, GateError>
    requires shape { HasShape cell.now }
    requires wide { AllWide cell.now.ports }
    requires inputs { map length inputs.now ≡ widths (input_ports cell.now.ports) }
    requires literals { All (All (IsLit (count gates.old))) inputs.now }
    ensures made { IfOk result (λ bits. record { gates = gates.new; bits = bits } ≡ cell_row cell.now.kind cell.now.is_signed (length (output_port cell.now.ports)) gates.old inputs.now) }
    ensures value { IfOk result (λ bits. AddsBits gates.old gates.new bits (length (output_port cell.now.ports)) (weight cell.now.kind (widths cell.now.ports)) (CellIs cell.now.kind cell.now.is_signed (length (output_port cell.now.ports)) inputs.now)) }
    ensures limit { OnOk result (length gates.new.made ≤ MOST_GATES) }
    ensures too_many { IfErr result (λ e. e ≡ GateError.TooMany → MOST_GATES < length (cell_row cell.now.kind cell.now.is_signed (length (output_port cell.now.ports)) gates.old inputs.now).gates.made) }
{
    if gates.len() > MOST_GATES {
        return Err(GateError::TooMany);
    }
    let width = y_width(cell.ports.as_slice());
    let bits = of_inputs(alloc, cell.kind, cell.is_signed, width, inputs, gates)?;
    if gates.len() > MOST_GATES {
        return Err(GateError::TooMany);
    }
    Ok(GateBits::from_vec(bits))
}
