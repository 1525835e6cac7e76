//! What an operator adds, where its operands have bits: its cell, and its bits at a width that is not less than its
//! own.
ghost use Rattle.std.specs.Prelude.{◌≡◌, ◌==◌, ◌+◌, ◌≤◌, ◌&&◌, not, false, nat_lt, [], ◌∷◌, Some, length, pos, IfOk, IfErr, if◌then◌else◌};
ghost use Rattle.netlist_core.specs.Numbers.{number};
ghost use Rattle.netlist_core.specs.Runs.{values};
ghost use Rattle.netlist_core.specs.declared.cell.CellKind.TheVariants.{Ror, Mux, Pick};
ghost use Rattle.vlog_meaning.specs.Functions.{function_of as function_named};
ghost use Rattle.vlog_meaning.specs.Integers.{extended, window};
ghost use Rattle.vlog_meaning.specs.Operators.{IsSized, ArePaired, digit, sizing, result_width, is_reduction, unary_value, binary_value};
ghost use Rattle.vlog_meaning.specs.Scopes.{names_of, decl_shape, decl_value};
ghost use Rattle.vlog_meaning.specs.Senses.{is_division};
ghost use Rattle.net_builder.specs.Building.{AllBelow, HasSignals, store};
ghost use Rattle.elab_expr.specs.Evaluates.{Adds, takes_sign};
ghost use Rattle.expr_plans.specs.Kinds.{unary_kind, binary_kind};
ghost use Rattle.elab_expr.specs.Laid.{at_width, binary_cell, cell, index_bits, mux_cell, name_bits, reduced, showing, unary_cell};
ghost use Rattle.expr_plans.specs.Made.{cell_of, index_width};
ghost use Rattle.net_builder.specs.Refusals.{IsShort};

use crate::names::name_bits;
use crate::nodes::{binary_cell, mux_cell, pick_cell, ror_cell, unary_cell};
use crate::wiring::{extended_bits, index_bits};
use expr_plans::{binary_kind, unary_kind};
use mcy_base::Span;
use net_builder::{Builder, ElabError};
use netlist_core::BitList;
use vlog_meaning::{Function, Scope, Shape, function_of};
use vlog_syntax::{BinaryOperator, Identifier, UnaryOperator};

/// `op a`, where a is evaluated at this shape.
pub(crate) fn unary_bits(
    builder: &mut Builder,
    span: Span,
    op: UnaryOperator,
    at: Shape,
    a: BitList,
    width: u8,
) -> Result<BitList, ElabError>
    requires at { IsSized at }
    requires long { length a ≡ at.width }
    requires below { AllBelow builder.old.nets a }
    requires wide { (if is_reduction op then 1 else at.width) ≤ width }
    requires narrow { width ≤ 128 }
    ensures laid { IfOk result (λ y. showing builder.new y ≡ at_width width (unary_cell (unary_kind op) (if is_reduction op then 1 else at.width) span (showing builder.old a))) }
    ensures adds { IfOk result (λ y. Adds builder.old builder.new y width (λ nets. unary_value op at (number (values nets a))) (cell_of (unary_kind op) false (at.width ∷ (if is_reduction op then 1 else at.width) ∷ []) span)) }
    ensures short { IfErr result (λ e. IsShort (length builder.old.cells + length (cell_of (unary_kind op) false (at.width ∷ (if is_reduction op then 1 else at.width) ∷ []) span)) e) }
{
    match unary_kind(op) {
        Some(kind) => {
            let y = unary_cell(builder, op, kind, at, a, span)?;
            Ok(extended_bits(builder.alloc(), y.as_slice(), false, width)?)
        }
        None => Ok(extended_bits(builder.alloc(), a.as_slice(), false, width)?),
    }
}

/// `a op b`, where a and b are evaluated at these shapes.
pub(crate) fn binary_bits(
    builder: &mut Builder,
    span: Span,
    op: BinaryOperator,
    left: Shape,
    a: BitList,
    right: Shape,
    b: BitList,
    width: u8,
) -> Result<BitList, ElabError>
    requires supported { is_division op ≡ false }
    requires left { IsSized left }
    requires right { IsSized right }
    requires paired { ArePaired (sizing op) left right }
    requires long_a { length a ≡ left.width }
    requires long_b { length b ≡ right.width }
    requires below_a { AllBelow builder.old.nets a }
    requires below_b { AllBelow builder.old.nets b }
    requires wide { result_width (sizing op) left ≤ width }
    requires narrow { width ≤ 128 }
    ensures laid { IfOk result (λ y. showing builder.new y ≡ at_width width (binary_cell (binary_kind op left.is_signed) left (result_width (sizing op) left) span a (showing builder.old b))) }
    ensures adds { IfOk result (λ y. Adds builder.old builder.new y width (λ nets. binary_value op left (number (values nets a)) right (number (values nets b))) (cell_of (binary_kind op left.is_signed) left.is_signed (left.width ∷ right.width ∷ result_width (sizing op) left ∷ []) span)) }
    ensures short { IfErr result (λ e. IsShort (length builder.old.cells + length (cell_of (binary_kind op left.is_signed) left.is_signed (left.width ∷ right.width ∷ result_width (sizing op) left ∷ []) span)) e) }
{
    let kind = binary_kind(op, left.is_signed).unwrap();
    let y = binary_cell(builder, op, kind, left, a, right, b, span)?;
    Ok(extended_bits(builder.alloc(), y.as_slice(), false, width)?)
}

/// The one bit of a condition that has these bits.
pub(crate) fn condition_bits(
    builder: &mut Builder,
    a: BitList,
    width: u8,
    span: Span,
) -> Result<BitList, ElabError>
    requires some { 1 ≤ width }
    requires narrow { width ≤ 128 }
    requires long { length a ≡ width }
    requires below { AllBelow builder.old.nets a }
    ensures laid { IfOk result (λ y. showing builder.new y ≡ reduced width span (showing builder.old a)) }
    ensures adds { IfOk result (λ y. Adds builder.old builder.new y 1 (λ nets. digit (not (number (values nets a) == 0))) (if nat_lt 1 width then cell_of (Some Ror) false (width ∷ 1 ∷ []) span else [])) }
    ensures short { IfErr result (λ e. IsShort (length builder.old.cells + length (if nat_lt 1 width then cell_of (Some Ror) false (width ∷ 1 ∷ []) span else [])) e) }
{
    if width > 1 {
        Ok(ror_cell(builder, a, span)?)
    } else {
        Ok(a)
    }
}

/// `s ? yes : no`, where s is one bit and the others have one width.
pub(crate) fn choice_bits(
    builder: &mut Builder,
    s: BitList,
    yes: BitList,
    no: BitList,
    width: u8,
    span: Span,
) -> Result<BitList, ElabError>
    requires some { 1 ≤ width }
    requires narrow { width ≤ 128 }
    requires one { length s ≡ 1 }
    requires long_yes { length yes ≡ width }
    requires long_no { length no ≡ width }
    requires below_s { AllBelow builder.old.nets s }
    requires below_yes { AllBelow builder.old.nets yes }
    requires below_no { AllBelow builder.old.nets no }
    ensures laid { IfOk result (λ y. showing builder.new y ≡ mux_cell width span s yes (showing builder.old no)) }
    ensures adds { IfOk result (λ y. Adds builder.old builder.new y width (λ nets. if number (values nets s) == 0 then number (values nets no) else number (values nets yes)) (cell_of (Some Mux) false (1 ∷ width ∷ width ∷ width ∷ []) span)) }
    ensures short { IfErr result (λ e. IsShort (length builder.old.cells + 1) e) }
{
    Ok(mux_cell(builder, s, yes, no, width, span)?)
}

/// The bits of a name from an index of this shape on, as many as `size`, at a width that is not less.
#[tactic(auto, using(expr_plans::proofs::Indices::index_wide, expr_plans::proofs::Indices::index_narrow))]
pub(crate) fn picked(
    builder: &mut Builder,
    scope: &Scope,
    name: &Identifier,
    own: Shape,
    index: BitList,
    size: u8,
    width: u8,
    span: Span,
) -> Result<BitList, ElabError>
    requires signals { HasSignals (names_of scope.now) builder.old }
    requires name { IsSized (decl_shape (names_of scope.now name.now.name)) }
    requires own { IsSized own }
    requires fit { length index ≡ own.width }
    requires below { AllBelow builder.old.nets index }
    requires some { 1 ≤ size }
    requires wide { size ≤ width }
    requires narrow { width ≤ 128 }
    ensures laid { IfOk result (λ y. showing builder.new y ≡ at_width width (cell Pick false (name_bits builder.old (names_of scope.now name.now.name) ∷ index_bits own index ∷ []) size span builder.old)) }
    ensures adds { IfOk result (λ y. Adds builder.old builder.new y width (λ nets. window (pos (extended own (index_width own) (number (values nets index)))) size (decl_value (store builder.old nets) (names_of scope.now name.now.name))) (cell_of (Some Pick) false ((decl_shape (names_of scope.now name.now.name)).width ∷ index_width own ∷ size ∷ []) span)) }
    ensures short { IfErr result (λ e. IsShort (length builder.old.cells + 1) e) }
{
    let at = index_bits(builder.alloc(), index.as_slice(), own)?;
    let a = name_bits(builder, scope, name)?;
    pick_bits(builder, a, at, size, width, span)
}

/// The same of these bits.
fn pick_bits(
    builder: &mut Builder,
    a: BitList,
    index: BitList,
    size: u8,
    width: u8,
    span: Span,
) -> Result<BitList, ElabError>
    requires some_a { 1 ≤ length a }
    requires narrow_a { length a ≤ 128 }
    requires below_a { AllBelow builder.old.nets a }
    requires some_index { 1 ≤ length index }
    requires narrow_index { length index ≤ 128 }
    requires below { AllBelow builder.old.nets index }
    requires some { 1 ≤ size }
    requires wide { size ≤ width }
    requires narrow { width ≤ 128 }
    ensures laid { IfOk result (λ y. showing builder.new y ≡ at_width width (cell Pick false (a ∷ index ∷ []) size span builder.old)) }
    ensures adds { IfOk result (λ y. Adds builder.old builder.new y width (λ nets. window (pos (number (values nets index))) size (number (values nets a))) (cell_of (Some Pick) false (length a ∷ length index ∷ size ∷ []) span)) }
    ensures short { IfErr result (λ e. IsShort (length builder.old.cells + 1) e) }
{
    let y = pick_cell(builder, a, index, size, span)?;
    Ok(extended_bits(builder.alloc(), y.as_slice(), false, width)?)
}

/// The shape at which a call that has this shape takes the bits of its argument: `$signed` extends them with the sign of
/// its context.
pub(crate) fn argument_shape(name: &Identifier, own: Shape, context: Shape) -> Shape
    ensures { result ≡ record { width = own.width; is_signed = takes_sign (function_named name.now.name) && context.is_signed } }
{
    let is_signed = match function_of(name.name.as_str()) {
        Some(Function::Signed) => context.is_signed,
        _ => false,
    };
    Shape {
        width: own.width,
        is_signed,
    }
}
