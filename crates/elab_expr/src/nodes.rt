//! The cells of one operator, from the bits of its operands.
ghost use Rattle.std.specs.Prelude.{◌≡◌, ◌==◌, ◌+◌, ◌≤◌, ◌&&◌, false, [], ◌∷◌, Some, length, IfOk, IfErr, if◌then◌else◌, pos};
ghost use Rattle.netlist_core.specs.Numbers.{number};
ghost use Rattle.netlist_core.specs.Cells.{laid_at};
ghost use Rattle.netlist_core.specs.Runs.{Nets, values};
ghost use Rattle.netlist_core.specs.declared.cell.CellKind.TheVariants.{Ror, Mux, Pick, Put};
ghost use Rattle.vlog_meaning.specs.Integers.{window};
ghost use Rattle.vlog_meaning.specs.Operators.{IsSized, ArePaired, sizing, result_width, is_reduction, unary_value, binary_value};
ghost use Rattle.net_builder.specs.Building.{RunsIn, fresh_bits, with_cell};
ghost use Rattle.expr_plans.specs.Kinds.{unary_kind, binary_kind, is_order};
ghost use Rattle.net_builder.specs.Refusals.{IsShort};

use mcy_base::Span;
use net_builder::{Builder, ElabError};
use netlist_core::{BitList, CellKind, PortList};
use std::alloc::{AllocError, Global};
use vlog_meaning::{Shape, Sizing, sizing_of};
use vlog_syntax::{BinaryOperator, UnaryOperator};

/// Whether the order of a cell is that of signed numbers, where its operands have this shape.
fn order_sign(kind: CellKind, operands: Shape) -> bool
    ensures { result ≡ is_order kind && operands.is_signed }
{
    match kind {
        CellKind::Lt | CellKind::Le | CellKind::Gt | CellKind::Ge => operands.is_signed,
        _ => false,
    }
}

/// One port.
fn one(alloc: Global, a: BitList) -> Result<PortList, AllocError>
    ensures { IfOk result (λ ports. ports ≡ a ∷ []) }
{
    let mut ports = PortList::from_vec(Vec::new(alloc));
    ports.push(a)?;
    Ok(ports)
}

/// Two ports.
fn two(alloc: Global, a: BitList, b: BitList) -> Result<PortList, AllocError>
    ensures { IfOk result (λ ports. ports ≡ a ∷ b ∷ []) }
{
    let mut ports = one(alloc, a)?;
    ports.push(b)?;
    Ok(ports)
}

/// Three ports.
fn three(alloc: Global, s: BitList, a: BitList, b: BitList) -> Result<PortList, AllocError>
    ensures { IfOk result (λ ports. ports ≡ s ∷ a ∷ b ∷ []) }
{
    let mut ports = two(alloc, s, a)?;
    ports.push(b)?;
    Ok(ports)
}

/// The width of `op a`, where a is evaluated at this shape.
fn unary_width(op: UnaryOperator, at: Shape) -> u8
    ensures { result ≡ (if is_reduction op then 1 else at.width) }
{
    match op {
        UnaryOperator::Plus | UnaryOperator::Minus | UnaryOperator::BitwiseNot => at.width,
        UnaryOperator::LogicalNot
        | UnaryOperator::ReductionAnd
        | UnaryOperator::ReductionNand
        | UnaryOperator::ReductionOr
        | UnaryOperator::ReductionNor
        | UnaryOperator::ReductionXor
        | UnaryOperator::ReductionXnor => 1,
    }
}

/// The width of `a op b`, where a is evaluated at this shape.
fn binary_width(op: BinaryOperator, left: Shape) -> u8
    ensures { result ≡ result_width (sizing op) left }
{
    match sizing_of(op) {
        Sizing::Common | Sizing::Left => left.width,
        Sizing::Compared | Sizing::Apart => 1,
    }
}

/// The cell of `op a`, where a is evaluated at this shape.
pub fn unary_cell(
    builder: &mut Builder,
    op: UnaryOperator,
    kind: CellKind,
    at: Shape,
    a: BitList,
    span: Span,
) -> Result<BitList, ElabError>
    requires kind { unary_kind op ≡ Some kind }
    requires at { IsSized at }
    requires long { length a ≡ at.width }
    ensures y { IfOk result (λ y. y ≡ fresh_bits builder.old.nets (if is_reduction op then 1 else at.width)) }
    ensures adds { IfOk result (λ y. builder.new ≡ with_cell builder.old kind false (a ∷ []) (if is_reduction op then 1 else at.width) span) }
    ensures value { IfOk result (λ y. (nets : Nets) → RunsIn builder.new nets → number (values nets y) ≡ unary_value op at (number (values nets a))) }
    ensures short { IfErr result (λ e. IsShort (length builder.old.cells + 1) e) }
{
    let ports = one(builder.alloc(), a)?;
    Ok(builder.cell(kind, false, ports, unary_width(op, at), span)?)
}

/// The cell of `a op b`, where a and b are evaluated at these shapes.
pub fn binary_cell(
    builder: &mut Builder,
    op: BinaryOperator,
    kind: CellKind,
    left: Shape,
    a: BitList,
    right: Shape,
    b: BitList,
    span: Span,
) -> Result<BitList, ElabError>
    requires kind { binary_kind op left.is_signed ≡ Some kind }
    requires left { IsSized left }
    requires right { IsSized right }
    requires paired { ArePaired (sizing op) left right }
    requires long_a { length a ≡ left.width }
    requires long_b { length b ≡ right.width }
    ensures y { IfOk result (λ y. y ≡ fresh_bits builder.old.nets (result_width (sizing op) left)) }
    ensures adds { IfOk result (λ y. builder.new ≡ with_cell builder.old kind (is_order kind && left.is_signed) (a ∷ b ∷ []) (result_width (sizing op) left) span) }
    ensures value { IfOk result (λ y. (nets : Nets) → RunsIn builder.new nets → number (values nets y) ≡ binary_value op left (number (values nets a)) right (number (values nets b))) }
    ensures short { IfErr result (λ e. IsShort (length builder.old.cells + 1) e) }
{
    let ports = two(builder.alloc(), a, b)?;
    Ok(builder.cell(
        kind,
        order_sign(kind, left),
        ports,
        binary_width(op, left),
        span,
    )?)
}

/// The cell of `s ? yes : no`, where s is one bit and the others have one width.
pub fn mux_cell(
    builder: &mut Builder,
    s: BitList,
    yes: BitList,
    no: BitList,
    width: u8,
    span: Span,
) -> Result<BitList, ElabError>
    requires some { 1 ≤ width }
    requires narrow { width ≤ 128 }
    requires one { length s ≡ 1 }
    requires long_yes { length yes ≡ width }
    requires long_no { length no ≡ width }
    ensures y { IfOk result (λ y. y ≡ fresh_bits builder.old.nets width) }
    ensures adds { IfOk result (λ y. builder.new ≡ with_cell builder.old Mux false (s ∷ no ∷ yes ∷ []) width span) }
    ensures value { IfOk result (λ y. (nets : Nets) → RunsIn builder.new nets → number (values nets y) ≡ (if number (values nets s) == 0 then number (values nets no) else number (values nets yes))) }
    ensures short { IfErr result (λ e. IsShort (length builder.old.cells + 1) e) }
{
    let ports = three(builder.alloc(), s, no, yes)?;
    Ok(builder.cell(CellKind::Mux, false, ports, width, span)?)
}

/// The cell of a select of so many bits of `a` from number `index` on.
pub fn pick_cell(
    builder: &mut Builder,
    a: BitList,
    index: BitList,
    width: u8,
    span: Span,
) -> Result<BitList, ElabError>
    requires some { 1 ≤ width }
    requires narrow { width ≤ 128 }
    requires some_a { 1 ≤ length a }
    requires narrow_a { length a ≤ 128 }
    requires some_index { 1 ≤ length index }
    requires narrow_index { length index ≤ 128 }
    ensures y { IfOk result (λ y. y ≡ fresh_bits builder.old.nets width) }
    ensures adds { IfOk result (λ y. builder.new ≡ with_cell builder.old Pick false (a ∷ index ∷ []) width span) }
    ensures value { IfOk result (λ y. (nets : Nets) → RunsIn builder.new nets → number (values nets y) ≡ window (pos (number (values nets index))) width (number (values nets a))) }
    ensures short { IfErr result (λ e. IsShort (length builder.old.cells + 1) e) }
{
    let ports = two(builder.alloc(), a, index)?;
    Ok(builder.cell(CellKind::Pick, false, ports, width, span)?)
}

/// The cell that lays bits over `a` from the bit on whose number `index` is. What is past the end of `a` is dropped.
pub fn put_cell(
    builder: &mut Builder,
    a: BitList,
    index: BitList,
    bits: BitList,
    width: u8,
    span: Span,
) -> Result<BitList, ElabError>
    requires some { 1 ≤ width }
    requires narrow { width ≤ 128 }
    requires long { length a ≡ width }
    requires some_index { 1 ≤ length index }
    requires narrow_index { length index ≤ 128 }
    requires some_bits { 1 ≤ length bits }
    requires narrow_bits { length bits ≤ 128 }
    ensures y { IfOk result (λ y. y ≡ fresh_bits builder.old.nets width) }
    ensures adds { IfOk result (λ y. builder.new ≡ with_cell builder.old Put false (a ∷ index ∷ bits ∷ []) width span) }
    ensures value { IfOk result (λ y. (nets : Nets) → RunsIn builder.new nets → number (values nets y) ≡ number (laid_at (values nets a) (number (values nets index)) (values nets bits))) }
    ensures short { IfErr result (λ e. IsShort (length builder.old.cells + 1) e) }
{
    let ports = three(builder.alloc(), a, index, bits)?;
    Ok(builder.cell(CellKind::Put, false, ports, width, span)?)
}

/// The cell that makes one bit of a condition: whether any of its bits is 1.
pub fn ror_cell(builder: &mut Builder, a: BitList, span: Span) -> Result<BitList, ElabError>
    requires some { 1 ≤ length a }
    requires narrow { length a ≤ 128 }
    ensures y { IfOk result (λ y. y ≡ fresh_bits builder.old.nets 1) }
    ensures adds { IfOk result (λ y. builder.new ≡ with_cell builder.old Ror false (a ∷ []) 1 span) }
    ensures value { IfOk result (λ y. (nets : Nets) → RunsIn builder.new nets → (number (values nets y) == 0) ≡ (number (values nets a) == 0)) }
    ensures short { IfErr result (λ e. IsShort (length builder.old.cells + 1) e) }
{
    let ports = one(builder.alloc(), a)?;
    Ok(builder.cell(CellKind::Ror, false, ports, 1, span)?)
}
