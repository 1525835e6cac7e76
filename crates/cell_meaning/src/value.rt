//! The value of a cell.
ghost use Rattle.std.specs.Prelude.{◌≡◌, ◌%◌, ◌^◌, ◌≤◌, [], ◌∷◌, length};
ghost use Rattle.netlist_core.specs.Runs.{input_ports, output_port};
ghost use Rattle.netlist_core.specs.Shapes.{shape_of, HasWidths, HasShape};
ghost use Rattle.netlist_core.specs.Checked.{AllWide};
ghost use Rattle.netlist_core.specs.Cells.{cell_value};
ghost use Rattle.cell_meaning.specs.Words.{word_bits, FitWords, bits_of, HasValue};

use crate::arithmetic::{add, mul, neg, sub};
use crate::bitwise::{and, not, or, xnor, xor};
use crate::choices::{mux, pick, put};
use crate::low::{digit_of, low};
use crate::reductions::{all_of, any_of, odd_of};
use crate::relations::{is_equal, is_less};
use crate::shifts::{shl, shr, sshr};
use mcy_base::Word;
use netlist_core::{BitList, Cell, CellKind, Shape};

/// The value of a cell with one input port, in the low bits.
pub fn number_of_one(kind: CellKind, signed: bool, width: u8, a: Word) -> u128
    requires { HasWidths (shape_of kind) (a.width ∷ width ∷ []) }
    ensures { HasValue result kind signed width (word_bits a ∷ []) }
{
    match kind {
        CellKind::Not => not(a),
        CellKind::Neg => neg(a),
        CellKind::Rand => digit_of(all_of(a)),
        CellKind::Ror => digit_of(any_of(a)),
        CellKind::Rxor => digit_of(odd_of(a)),
        CellKind::Rnand => digit_of(!all_of(a)),
        CellKind::Rnor | CellKind::Lnot => digit_of(!any_of(a)),
        CellKind::Rxnor => digit_of(!odd_of(a)),
        _ => 0,
    }
}

/// The value of a cell with A, B and Y of one width.
fn of_pair(kind: CellKind, signed: bool, width: u8, a: Word, b: Word) -> u128
    requires shape { shape_of kind ≡ Shape.Binary }
    requires widths { HasWidths Shape.Binary (a.width ∷ b.width ∷ width ∷ []) }
    ensures { HasValue result kind signed width (word_bits a ∷ word_bits b ∷ []) }
{
    match kind {
        CellKind::And => and(a, b),
        CellKind::Or => or(a, b),
        CellKind::Xor => xor(a, b),
        CellKind::Xnor => xnor(a, b),
        CellKind::Add => add(a, b),
        CellKind::Sub => sub(a, b),
        CellKind::Mul => mul(a, b),
        _ => 0,
    }
}

/// The value of a cell that compares A and B.
fn of_relation(kind: CellKind, signed: bool, a: Word, b: Word) -> u128
    requires shape { shape_of kind ≡ Shape.Relation }
    requires widths { a.width ≡ b.width }
    ensures { HasValue result kind signed 1 (word_bits a ∷ word_bits b ∷ []) }
{
    match kind {
        CellKind::Lt => digit_of(is_less(signed, a, b)),
        CellKind::Le => digit_of(!is_less(signed, b, a)),
        CellKind::Gt => digit_of(is_less(signed, b, a)),
        CellKind::Ge => digit_of(!is_less(signed, a, b)),
        CellKind::Eq => digit_of(is_equal(a, b)),
        CellKind::Ne => digit_of(!is_equal(a, b)),
        _ => 0,
    }
}

/// The value of a cell that shifts A.
fn of_shift(kind: CellKind, signed: bool, a: Word, b: Word) -> u128
    requires { shape_of kind ≡ Shape.Shift }
    ensures { HasValue result kind signed a.width (word_bits a ∷ word_bits b ∷ []) }
{
    match kind {
        CellKind::Shl => shl(a, b),
        CellKind::Shr => shr(a, b),
        CellKind::Sshr => sshr(a, b),
        _ => 0,
    }
}

/// The value of a cell with two input ports, in the low bits.
pub fn number_of_two(kind: CellKind, signed: bool, width: u8, a: Word, b: Word) -> u128
    requires { HasWidths (shape_of kind) (a.width ∷ b.width ∷ width ∷ []) }
    ensures { HasValue result kind signed width (word_bits a ∷ word_bits b ∷ []) }
{
    match kind.shape() {
        Shape::Binary => of_pair(kind, signed, width, a, b),
        Shape::Relation => of_relation(kind, signed, a, b),
        Shape::Shift => of_shift(kind, signed, a, b),
        _ => match kind {
            CellKind::Land => digit_of(any_of(a) && any_of(b)),
            CellKind::Lor => digit_of(any_of(a) || any_of(b)),
            CellKind::Pick => pick(a, b),
            _ => 0,
        },
    }
}

/// The value of a cell with three input ports, in the low bits.
pub fn number_of_three(kind: CellKind, signed: bool, width: u8, a: Word, b: Word, d: Word) -> u128
    requires { HasWidths (shape_of kind) (a.width ∷ b.width ∷ d.width ∷ width ∷ []) }
    ensures { HasValue result kind signed width (word_bits a ∷ word_bits b ∷ word_bits d ∷ []) }
{
    match kind {
        CellKind::Mux => mux(a, b, d),
        CellKind::Put => put(a, b, d),
        _ => 0,
    }
}

/// The word of this width with a number's low bits. `spare` is any word.
fn word_of(width: u8, number: u128, spare: Word) -> Word
    requires some { 1 ≤ width }
    requires narrow { width ≤ 128 }
    ensures width { result.width ≡ width }
    ensures bits { result.bits ≡ number % 2 ^ width }
{
    match Word::new(width, low(width, number)) {
        Some(word) => word,
        None => spare,
    }
}

/// The width of Y.
fn y_width(ports: &[BitList]) -> u8
    requires { AllWide ports.now }
    ensures { result ≡ length (output_port ports.now) }
{
    match ports {
        [] => 0,
        [y] => y.as_slice().len() as u8,
        [_, rest @ ..] => y_width(rest),
    }
}

/// The value of a cell of this width, in the low bits.
fn number_of(cell: &Cell, width: u8, a: Word, b: Word, d: Word) -> u128
    requires shape { HasShape cell.now }
    requires inputs { FitWords (input_ports cell.now.ports) (a ∷ b ∷ d ∷ []) }
    requires width { width ≡ length (output_port cell.now.ports) }
    ensures { HasValue result cell.now.kind cell.now.is_signed width (bits_of (input_ports cell.now.ports) (a ∷ b ∷ d ∷ [])) }
{
    let count = cell.ports.as_slice().len();
    if count == 2 {
        return number_of_one(cell.kind, cell.is_signed, width, a);
    }
    if count == 3 {
        return number_of_two(cell.kind, cell.is_signed, width, a, b);
    }
    number_of_three(cell.kind, cell.is_signed, width, a, b, d)
}

/// The value of a cell, from the words at the first, the second and the third input port.
fn value_of(cell: &Cell, a: Word, b: Word, d: Word) -> Word
    requires shape { HasShape cell.now }
    requires wide { AllWide cell.now.ports }
    requires inputs { FitWords (input_ports cell.now.ports) (a ∷ b ∷ d ∷ []) }
    ensures width { result.width ≡ length (output_port cell.now.ports) }
    ensures value { result.bits ≡ cell_value cell.now.kind cell.now.is_signed (length (output_port cell.now.ports)) (bits_of (input_ports cell.now.ports) (a ∷ b ∷ d ∷ [])) }
{
    let width = y_width(cell.ports.as_slice());
    word_of(width, number_of(cell, width, a, b, d), a)
}

/// The value of a cell, from the words at its input ports. Words past the ports play no part.
pub fn cell_value(cell: &Cell, inputs: [Word; 3]) -> Word
    requires shape { HasShape cell.now }
    requires wide { AllWide cell.now.ports }
    requires inputs { FitWords (input_ports cell.now.ports) inputs }
    ensures width { result.width ≡ length (output_port cell.now.ports) }
    ensures value { result.bits ≡ cell_value cell.now.kind cell.now.is_signed (length (output_port cell.now.ports)) (bits_of (input_ports cell.now.ports) inputs) }
{
    value_of(cell, inputs[0], inputs[1], inputs[2])
}
