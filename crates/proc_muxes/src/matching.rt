//! The bit that is 1 where one of the labels of an item matches the selector of a case (IEEE 1364-2005, 9.5).
//!
//! Each label has its own cells, and an `eq` of those bits that matter, or the constant 1 where none does; from the second label
//! on a `lor` joins it to the ones before.
ghost use Rattle.std.specs.Prelude.{◌≡◌, ◌+◌, ◌<◌, ◌≤◌, true, [], ◌∷◌, length, IfOk, IfErr};
ghost use Rattle.netlist_core.specs.declared.bit.Bit.TheVariants.{Fixed};
ghost use Rattle.netlist_core.specs.declared.cell.CellKind.TheVariants.{Eq, Lor};
ghost use Rattle.vlog_meaning.specs.Operators.{IsSized};
ghost use Rattle.vlog_meaning.specs.Scopes.{names_of};
ghost use Rattle.vlog_effects.specs.Expressions.{bits_of};
ghost use Rattle.vlog_effects.specs.Steps.{Selection, dont_care};
ghost use Rattle.net_builder.specs.Building.{Grows, AllBelow, HasSignals, fresh_bits};
ghost use Rattle.expr_plans.specs.Made.{made};
ghost use Rattle.net_builder.specs.Refusals.{IsShort};
ghost use Rattle.case_arms.specs.Naming.{IsOf};
ghost use Rattle.proc_muxes.specs.Builds.{AddsCell, kept, mattering, BuildsEqual, BuildsLabel, BuildsMatch};
ghost use Rattle.proc_muxes.specs.Clear.{IsClearLabel, AreClearLabels};
ghost use Rattle.proc_muxes.specs.Counts.{equal_cells, match_cells};

use crate::variables::width_of;
use elab_expr::{binary_cell, build_expr};
use elab_proc::dont_care;
use mcy_base::Span;
use net_builder::{Builder, ElabError};
use netlist_core::{Bit, BitList, CellKind};
use std::alloc::{AllocError, Global};
use vlog_meaning::{Scope, Shape};
use vlog_syntax::{BinaryOperator, CaseKind, Expr};

/// The selector of a case: its bits, at the size to which it and the labels are brought.
#[derive(Drop)]
pub(crate) struct Selector {
    pub kind: CaseKind,
    pub size: Shape,
    pub bits: BitList,
}

/// The bits that matter, where those of the others are 1 in `ignored`.
fn kept(alloc: Global, ignored: u128, bits: &BitList) -> Result<BitList, AllocError>
    ensures { IfOk result (λ found. found ≡ kept (bits_of (length bits.now) ignored) bits.now) }
{
    let mut found = Vec::new(alloc);
    let mut rest = ignored;
    for bit in bits.as_slice() {
        let is_ignored = rest % 2 == 1;
        rest /= 2;
        if is_ignored {
            continue;
        }
        found.push(*bit)?;
    }
    Ok(BitList::from_vec(found))
}

/// The cell that compares bits, of which there are as many on both sides.
fn eq_cell(builder: &mut Builder, a: BitList, b: BitList, at: Span) -> Result<BitList, ElabError>
    requires some { 1 ≤ length a }
    requires narrow { length a ≤ 128 }
    requires long { length b ≡ length a }
    requires below_a { AllBelow builder.old.nets a }
    requires below_b { AllBelow builder.old.nets b }
    ensures y { IfOk result (λ y. y ≡ fresh_bits builder.old.nets 1) }
    ensures adds { IfOk result (λ y. AddsCell Eq (a ∷ b ∷ []) 1 at builder.old builder.new) }
    ensures short { IfErr result (λ e. IsShort (length builder.old.cells + 1) e) }
{
    let shape = Shape {
        width: width_of(&a),
        is_signed: false,
    };
    let op = BinaryOperator::LogicalEquality;
    Ok(binary_cell(builder, op, CellKind::Eq, shape, a, shape, b, at)?)
}

/// The bit 1.
fn bit_one(alloc: Global) -> Result<BitList, AllocError>
    ensures { IfOk result (λ bits. bits ≡ Fixed true ∷ []) }
{
    let mut bits = BitList::from_vec(Vec::new(alloc));
    bits.push(Bit::Fixed(true))?;
    Ok(bits)
}

/// The bit that is 1 where bits are equal, of which there are as many on both sides: an `eq`, if there are any.
fn build_equal(
    builder: &mut Builder,
    a: BitList,
    b: BitList,
    at: Span,
) -> Result<BitList, ElabError>
    requires narrow { length a ≤ 128 }
    requires long { length b ≡ length a }
    requires below_a { AllBelow builder.old.nets a }
    requires below_b { AllBelow builder.old.nets b }
    ensures built { IfOk result (λ test. BuildsEqual (length a) a b at builder.old builder.new test) }
    ensures short { IfErr result (λ e. IsShort (length builder.old.cells + equal_cells (length a)) e) }
{
    if a.as_slice().is_empty() {
        return Ok(bit_one(builder.alloc())?);
    }
    eq_cell(builder, a, b, at)
}

/// The cell of 'one of both', of one bit each.
fn lor_cell(builder: &mut Builder, a: BitList, b: BitList, at: Span) -> Result<BitList, ElabError>
    requires one_a { length a ≡ 1 }
    requires one_b { length b ≡ 1 }
    requires below_a { AllBelow builder.old.nets a }
    requires below_b { AllBelow builder.old.nets b }
    ensures y { IfOk result (λ y. y ≡ fresh_bits builder.old.nets 1) }
    ensures adds { IfOk result (λ y. AddsCell Lor (a ∷ b ∷ []) 1 at builder.old builder.new) }
    ensures short { IfErr result (λ e. IsShort (length builder.old.cells + 1) e) }
{
    let shape = Shape {
        width: 1,
        is_signed: false,
    };
    let op = BinaryOperator::LogicalOr;
    Ok(binary_cell(builder, op, CellKind::Lor, shape, a, shape, b, at)?)
}

/// Adds the cells of a label, and its `eq` with the selector: no `eq` where none of its bits matters, since it always matches then.
fn build_label(
    builder: &mut Builder,
    scope: &Scope,
    selector: &Selector,
    label: &Expr,
) -> Result<BitList, ElabError>
    requires sized { IsSized selector.now.size }
    requires long { length selector.now.bits ≡ selector.now.size.width }
    requires below { AllBelow builder.old.nets selector.now.bits }
    requires signals { HasSignals (names_of scope.now) builder.old }
    requires clear { IsClearLabel (names_of scope.now) selector.now.size label.now }
    ensures built { IfOk result (λ test. (c : Selection) → IsOf c (names_of scope.now) selector.now.kind selector.now.size → BuildsLabel c selector.now.bits label.now builder.old builder.new test) }
    ensures grows { IfOk result (λ test. Grows builder.old builder.new) }
    ensures one { IfOk result (λ test. length test ≡ 1) }
    ensures below { IfOk result (λ test. AllBelow builder.new.nets test) }
    ensures short { IfErr result (λ e. IsShort (length builder.old.cells + (length (made (names_of scope.now) label.now selector.now.size) + equal_cells (mattering (bits_of selector.now.size.width (dont_care selector.now.kind label.now))))) e) }
{
    let size = selector.size;
    let bits = build_expr(builder, label, scope, size.width, size.is_signed)?;
    let ignored = dont_care(selector.kind, label);
    let alloc = builder.alloc();
    let left = kept(alloc, ignored, &selector.bits)?;
    let right = kept(alloc, ignored, &bits)?;
    Ok(build_equal(builder, left, right, label.first_token())?)
}

/// Adds the cells of the labels of an item, and gives the bit that is 1 where one of them matches.
pub(crate) fn build_match(
    builder: &mut Builder,
    scope: &Scope,
    selector: &Selector,
    labels: &[Expr],
) -> Result<BitList, ElabError>
    requires some { 0 < length labels.now }
    requires sized { IsSized selector.now.size }
    requires long { length selector.now.bits ≡ selector.now.size.width }
    requires below { AllBelow builder.old.nets selector.now.bits }
    requires signals { HasSignals (names_of scope.now) builder.old }
    requires clear { AreClearLabels (names_of scope.now) selector.now.size labels.now }
    ensures built { IfOk result (λ test. (c : Selection) → IsOf c (names_of scope.now) selector.now.kind selector.now.size → BuildsMatch c selector.now.bits labels.now builder.old builder.new test) }
    ensures grows { IfOk result (λ test. Grows builder.old builder.new) }
    ensures one { IfOk result (λ test. length test ≡ 1) }
    ensures below { IfOk result (λ test. AllBelow builder.new.nets test) }
    ensures short { IfErr result (λ e. (c : Selection) → IsOf c (names_of scope.now) selector.now.kind selector.now.size → IsShort (length builder.old.cells + match_cells c labels.now) e) }
{
    let mut test = build_label(builder, scope, selector, &labels[0])?;
    for place in 1..labels.len() {
        let label = &labels[place];
        let found = build_label(builder, scope, selector, label)?;
        test = lor_cell(builder, test, found, label.first_token())?;
    }
    Ok(test)
}
