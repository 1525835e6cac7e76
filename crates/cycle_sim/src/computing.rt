//! What gates compute. A number that is read has the bits at its port and none above them, so that many kinds of cells need nothing else.
ghost use Rattle.std.specs.Prelude.{◌≡◌, ℕ, ◌≤◌, ◌%◌, ◌^◌, Bool, [], ◌∷◌};
ghost use Rattle.netlist_core.specs.Numbers.{digit};
ghost use Rattle.netlist_core.specs.Cells.{some_one};
ghost use Rattle.netlist_core.specs.Shapes.{shape_of, HasWidths};
ghost use Rattle.cell_meaning.specs.Words.{HasValue};
ghost use Rattle.cycle_sim.specs.Parts.{IsReadable, wires_bits};
ghost use Rattle.cycle_sim.specs.Gates.{IsComputable, gate_number};

use crate::parts::{Gate, Wires, wires_number, word_at, word_of};
use cell_meaning::{number_of_one, number_of_three, number_of_two};
use netlist_core::CellKind;

/// 1 or 0.
fn digit_of(bit: bool) -> u128
    ensures { result ≡ digit bit }
{
    if bit { 1 } else { 0 }
}

/// Whether one of the bits at wires is 1.
fn any_set(table: &[u128], wires: &Wires) -> bool
    requires { IsReadable table.now wires.now }
    ensures { result ≡ some_one (wires_bits table.now wires.now) }
{
    let number = wires_number(table, wires);
    number != 0
}

/// The number of a gate with one port.
fn of_one(gate: &Gate, table: &[u128], a: &Wires) -> u128
    requires first { IsReadable table.now a.now }
    requires shape { HasWidths (shape_of gate.now.kind) (a.now.width ∷ gate.now.width ∷ []) }
    ensures { HasValue result gate.now.kind gate.now.is_signed gate.now.width (wires_bits table.now a.now ∷ []) }
{
    match gate.kind {
        CellKind::Lnot => digit_of(!any_set(table, a)),
        CellKind::Ror => digit_of(any_set(table, a)),
        _ => {
            let first = word_at(table, a);
            number_of_one(gate.kind, gate.is_signed, gate.width, first)
        }
    }
}

/// The number of a gate with two ports, from the numbers there.
fn of_numbers(gate: &Gate, table: &[u128], a: &Wires, b: &Wires) -> u128
    requires first { IsReadable table.now a.now }
    requires second { IsReadable table.now b.now }
    requires narrow { gate.now.width ≤ 128 }
    requires shape { HasWidths (shape_of gate.now.kind) (a.now.width ∷ b.now.width ∷ gate.now.width ∷ []) }
    ensures { HasValue result gate.now.kind gate.now.is_signed gate.now.width (wires_bits table.now a.now ∷ wires_bits table.now b.now ∷ []) }
{
    let first = wires_number(table, a);
    let second = wires_number(table, b);
    match gate.kind {
        CellKind::And => first & second,
        CellKind::Or => first | second,
        CellKind::Xor => first ^ second,
        CellKind::Add => first.wrapping_add(second),
        CellKind::Eq => digit_of(first == second),
        _ => {
            let left = word_of(a.width, first);
            let right = word_of(b.width, second);
            number_of_two(gate.kind, gate.is_signed, gate.width, left, right)
        }
    }
}

/// The number of a gate with two ports.
fn of_two(gate: &Gate, table: &[u128], a: &Wires, b: &Wires) -> u128
    requires first { IsReadable table.now a.now }
    requires second { IsReadable table.now b.now }
    requires narrow { gate.now.width ≤ 128 }
    requires shape { HasWidths (shape_of gate.now.kind) (a.now.width ∷ b.now.width ∷ gate.now.width ∷ []) }
    ensures { HasValue result gate.now.kind gate.now.is_signed gate.now.width (wires_bits table.now a.now ∷ wires_bits table.now b.now ∷ []) }
{
    match gate.kind {
        CellKind::Land => digit_of(any_set(table, a) && any_set(table, b)),
        CellKind::Lor => digit_of(any_set(table, a) || any_set(table, b)),
        _ => of_numbers(gate, table, a, b),
    }
}

/// The number at B where S is 1, and else that at A. The other one is not read.
fn selected(table: &[u128], s: &Wires, a: &Wires, b: &Wires) -> u128
    requires select { IsReadable table.now s.now }
    requires first { IsReadable table.now a.now }
    requires second { IsReadable table.now b.now }
    ensures { (signed : Bool) (w : ℕ) → HasValue result CellKind.Mux signed w (wires_bits table.now s.now ∷ wires_bits table.now a.now ∷ wires_bits table.now b.now ∷ []) }
{
    if any_set(table, s) {
        return wires_number(table, b);
    }
    wires_number(table, a)
}

/// The number of a gate with three ports.
fn of_three(gate: &Gate, table: &[u128], a: &Wires, b: &Wires, d: &Wires) -> u128
    requires first { IsReadable table.now a.now }
    requires second { IsReadable table.now b.now }
    requires third { IsReadable table.now d.now }
    requires shape { HasWidths (shape_of gate.now.kind) (a.now.width ∷ b.now.width ∷ d.now.width ∷ gate.now.width ∷ []) }
    ensures { HasValue result gate.now.kind gate.now.is_signed gate.now.width (wires_bits table.now a.now ∷ wires_bits table.now b.now ∷ wires_bits table.now d.now ∷ []) }
{
    match gate.kind {
        CellKind::Mux => selected(table, a, b, d),
        _ => {
            let first = word_at(table, a);
            let second = word_at(table, b);
            let third = word_at(table, d);
            number_of_three(gate.kind, gate.is_signed, gate.width, first, second, third)
        }
    }
}

/// The number of a gate: its low bits are the value at Y.
fn whole_number(gate: &Gate, table: &[u128]) -> u128
    requires { IsComputable table.now gate.now }
    ensures { result % 2 ^ gate.now.width ≡ gate_number table.now gate.now }
{
    match gate.ports.as_slice() {
        [only] => of_one(gate, table, only),
        [left, right] => of_two(gate, table, left, right),
        [a, b, d] => of_three(gate, table, a, b, d),
        _ => 0,
    }
}

/// The number at a gate's Y.
pub(crate) fn compute(gate: &Gate, table: &[u128]) -> u128
    requires { IsComputable table.now gate.now }
    ensures { result ≡ gate_number table.now gate.now }
{
    whole_number(gate, table) & (u128::MAX >> (128 - gate.width))
}
