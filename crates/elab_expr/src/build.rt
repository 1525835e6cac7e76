//! The cells of an expression. An operand's cells come before the operator's, left to right, and the largest
//! subexpressions that are constant make none.
ghost use Rattle.std.specs.Prelude.{ℕ, ◌≡◌, ◌+◌, ◌*◌, ◌^◌, ◌==◌, ◌≤◌, ◌<◌, ◌-ℤ◌, ◌&&◌, not, pos, true, false, [], ◌∷◌, ◌++◌, Some, length, IfOk, IfErr, if◌then◌else◌};
ghost use Rattle.netlist_core.specs.Numbers.{number};
ghost use Rattle.netlist_core.specs.Runs.{Nets, values};
ghost use Rattle.netlist_core.specs.declared.cell.CellKind.TheVariants.{Mux};
ghost use Rattle.vlog_meaning.specs.Integers.{window, extended};
ghost use Rattle.vlog_meaning.specs.Operators.{IsSized, digit, sizing, pair_shape, unary_shape, joint, operand_context, unary_value};
ghost use Rattle.vlog_meaning.specs.Scopes.{names_of, decl_shape, decl_low, decl_value};
ghost use Rattle.vlog_meaning.specs.Senses.{sense, senses, own, index_of, binary_step, index_features, is_division, is_empty, total_width, joined, repeated, IsWhole, AreWhole, IsContext};
ghost use Rattle.net_builder.specs.Building.{AllBelow, HasSignals, RunsIn, store};
ghost use Rattle.elab_expr.specs.Evaluates.{Adds, Builds, Evaluates};
ghost use Rattle.elab_expr.specs.Laid.{lay, lay_arms, lay_binary, lay_condition, lay_parts, lay_select, lay_unary, layout, layouts, showing, widened};
ghost use Rattle.elab_expr.specs.Laid as laid;
ghost use Rattle.expr_plans.specs.Made.{plan, plans, made, all_unsupported, all_cells, cell_of, pick_cells, condition_cells, unary_cells, binary_cells, choice_cells};
ghost use Rattle.net_builder.specs.Refusals.{IsShort};

use crate::folded::folded;
use crate::names::{named, placed};
use crate::operators::{
    argument_shape, binary_bits, choice_bits, condition_bits, picked, unary_bits,
};
use crate::wiring::{extended_bits, joined_bits, repeated_at};
use expr_plans::{bound_of, count_of, is_constant};
use mcy_base::Span;
use net_builder::{Builder, ElabError};
use netlist_core::BitList;
use vlog_meaning::{Scope, Shape, operand_context, shape_of, sizing_of};
use vlog_syntax::{BinaryOperator, Expr, Identifier, UnaryOperator};

/// The cells of an expression that is evaluated at a width and sign, and its bits.
#[cycle(build)]
pub(crate) fn build(
    builder: &mut Builder,
    expr: &Expr,
    scope: &Scope,
    context: Shape,
) -> Result<BitList, ElabError>
    requires whole { IsWhole (names_of scope.now) expr.now }
    requires supported { (plan (names_of scope.now) expr.now).unsupported ≡ [] }
    requires context { IsContext (sense (names_of scope.now) expr.now).shape context }
    requires some { 1 ≤ context.width }
    requires signals { HasSignals (names_of scope.now) builder.old }
    ensures laid { IfOk result (λ bits. showing builder.new bits ≡ lay (names_of scope.now) expr.now context builder.old) }
    ensures built { IfOk result (λ bits. Evaluates (names_of scope.now) expr.now context builder.old builder.new bits) }
    ensures short { IfErr result (λ e. IsShort (length builder.old.cells + length (made (names_of scope.now) expr.now context)) e) }
{
    if is_constant(expr, scope) {
        Ok(folded(builder.alloc(), expr, scope, context)?)
    } else {
        build_parts(builder, expr, scope, context)
    }
}

/// The same of an expression that is no constant.
#[cycle(build)]
fn build_parts(
    builder: &mut Builder,
    expr: &Expr,
    scope: &Scope,
    context: Shape,
) -> Result<BitList, ElabError>
    requires whole { IsWhole (names_of scope.now) expr.now }
    requires supported { (plan (names_of scope.now) expr.now).unsupported ≡ [] }
    requires varies { is_empty (sense (names_of scope.now) expr.now).signals ≡ false }
    requires context { IsContext (sense (names_of scope.now) expr.now).shape context }
    requires some { 1 ≤ context.width }
    requires signals { HasSignals (names_of scope.now) builder.old }
    ensures laid { IfOk result (λ bits. showing builder.new bits ≡ lay (names_of scope.now) expr.now context builder.old) }
    ensures built { IfOk result (λ bits. Evaluates (names_of scope.now) expr.now context builder.old builder.new bits) }
    ensures short { IfErr result (λ e. IsShort (length builder.old.cells + length (made (names_of scope.now) expr.now context)) e) }
{
    match expr {
        Expr::Number(_) => Ok(folded(builder.alloc(), expr, scope, context)?),
        Expr::Name(name) => Ok(named(builder, scope, name, context)?),
        Expr::BitSelect(name, span, index) => {
            select(builder, scope, name, *span, index.get(), 1, context.width)
        }
        Expr::PartSelect(name, _, _, lsb) => {
            let size = shape_of(expr, scope).width;
            let place = bound_of(lsb.get(), scope);
            Ok(placed(builder, scope, name, place, size, context.width)?)
        }
        Expr::IndexedPartSelect(name, span, base, width) => {
            let size = count_of(width.get(), scope);
            select(builder, scope, name, *span, base.get(), size, context.width)
        }
        Expr::Parenthesized(_, inner) => build(builder, inner.get(), scope, context),
        Expr::Unary(span, op, operand) => {
            unary(builder, *span, *op, operand.get(), scope, context)
        }
        Expr::Binary(span, op, left, right) => {
            binary(builder, *span, *op, left.get(), right.get(), scope, context)
        }
        Expr::Conditional(span, test, yes, no) => conditional(
            builder,
            *span,
            test.get(),
            yes.get(),
            no.get(),
            scope,
            context,
        ),
        Expr::Concatenation(_, parts) => {
            let own = shape_of(expr, scope);
            joined_at(builder, parts.as_slice(), scope, own, context.width)
        }
        Expr::MultipleConcatenation(_, times, parts) => {
            let times = count_of(times.get(), scope);
            replicated(builder, times, parts.as_slice(), scope, context.width)
        }
        Expr::SystemFunctionCall(name, arguments) => {
            let own = argument_shape(name, shape_of(expr, scope), context);
            joined_at(builder, arguments.as_slice(), scope, own, context.width)
        }
    }
}

/// The cells of a select, at a width that is not less than its own. A constant place takes none.
#[cycle(build)]
fn select(
    builder: &mut Builder,
    scope: &Scope,
    name: &Identifier,
    span: Span,
    index: &Expr,
    size: u8,
    width: u8,
) -> Result<BitList, ElabError>
    requires whole { IsWhole (names_of scope.now) index.now }
    requires supported { (plan (names_of scope.now) index.now).unsupported ≡ [] }
    requires from_0 { index_features span (names_of scope.now name.now.name) (sense (names_of scope.now) index.now) ≡ [] }
    requires one { (sense (names_of scope.now) index.now).shape.is_signed ≡ true → is_empty (sense (names_of scope.now) index.now).signals ≡ false → size ≡ 1 }
    requires name { IsSized (decl_shape (names_of scope.now name.now.name)) }
    requires some { 1 ≤ size }
    requires wide { size ≤ width }
    requires narrow { width ≤ 128 }
    requires signals { HasSignals (names_of scope.now) builder.old }
    ensures laid { IfOk result (λ bits. showing builder.new bits ≡ lay_select (names_of scope.now name.now.name) span (layout (names_of scope.now) index.now) size width builder.old) }
    ensures built { IfOk result (λ bits. Builds builder.old builder.new bits width (λ signals. window (index_of signals (sense (names_of scope.now) index.now) -ℤ pos (decl_low (names_of scope.now name.now.name))) size (decl_value signals (names_of scope.now name.now.name))) (pick_cells (names_of scope.now) name.now.name span (plan (names_of scope.now) index.now) size)) }
    ensures short { IfErr result (λ e. IsShort (length builder.old.cells + length (pick_cells (names_of scope.now) name.now.name span (plan (names_of scope.now) index.now) size)) e) }
{
    if is_constant(index, scope) {
        let place = bound_of(index, scope);
        Ok(placed(builder, scope, name, place, size, width)?)
    } else {
        let own = shape_of(index, scope);
        let at = build(builder, index, scope, own)?;
        picked(builder, scope, name, own, at, size, width, span)
    }
}

/// The cells of a unary operator.
#[cycle(build)]
fn unary(
    builder: &mut Builder,
    span: Span,
    op: UnaryOperator,
    operand: &Expr,
    scope: &Scope,
    context: Shape,
) -> Result<BitList, ElabError>
    requires whole { IsWhole (names_of scope.now) operand.now }
    requires supported { (plan (names_of scope.now) operand.now).unsupported ≡ [] }
    requires context { IsContext (unary_shape op (sense (names_of scope.now) operand.now).shape) context }
    requires signals { HasSignals (names_of scope.now) builder.old }
    ensures laid { IfOk result (λ bits. showing builder.new bits ≡ lay_unary span op (layout (names_of scope.now) operand.now) context builder.old) }
    ensures built { IfOk result (λ bits. Builds builder.old builder.new bits context.width (λ signals. unary_value op (operand_context op (sense (names_of scope.now) operand.now).shape context) ((sense (names_of scope.now) operand.now).value signals (operand_context op (sense (names_of scope.now) operand.now).shape context))) (unary_cells span op (plan (names_of scope.now) operand.now) context)) }
    ensures short { IfErr result (λ e. IsShort (length builder.old.cells + length (unary_cells span op (plan (names_of scope.now) operand.now) context)) e) }
{
    let at = operand_context(op, shape_of(operand, scope), context);
    let a = build(builder, operand, scope, at)?;
    unary_bits(builder, span, op, at, a, context.width)
}

/// The cells of a binary operator.
#[cycle(build)]
fn binary(
    builder: &mut Builder,
    span: Span,
    op: BinaryOperator,
    left: &Expr,
    right: &Expr,
    scope: &Scope,
    context: Shape,
) -> Result<BitList, ElabError>
    requires left { IsWhole (names_of scope.now) left.now }
    requires right { IsWhole (names_of scope.now) right.now }
    requires supported_left { (plan (names_of scope.now) left.now).unsupported ≡ [] }
    requires supported_right { (plan (names_of scope.now) right.now).unsupported ≡ [] }
    requires supported { is_division op ≡ false }
    requires context { IsContext (pair_shape (sizing op) (sense (names_of scope.now) left.now).shape (sense (names_of scope.now) right.now).shape) context }
    requires signals { HasSignals (names_of scope.now) builder.old }
    ensures laid { IfOk result (λ bits. showing builder.new bits ≡ lay_binary span op (layout (names_of scope.now) left.now) (layout (names_of scope.now) right.now) context builder.old) }
    ensures built { IfOk result (λ bits. Builds builder.old builder.new bits context.width (λ signals. binary_step op (sense (names_of scope.now) left.now) (sense (names_of scope.now) right.now) signals context) (binary_cells span op (plan (names_of scope.now) left.now) (plan (names_of scope.now) right.now) context)) }
    ensures short { IfErr result (λ e. IsShort (length builder.old.cells + length (binary_cells span op (plan (names_of scope.now) left.now) (plan (names_of scope.now) right.now) context)) e) }
{
    let left_shape = shape_of(left, scope);
    let right_shape = shape_of(right, scope);
    let sizing = sizing_of(op);
    let left_at = sizing.left_context(left_shape, right_shape, context);
    let right_at = sizing.right_context(left_shape, right_shape, context);
    let a = build(builder, left, scope, left_at)?;
    let b = build(builder, right, scope, right_at)?;
    binary_bits(builder, span, op, left_at, a, right_at, b, context.width)
}

/// The cells of a condition, and its one bit.
#[cycle(build)]
fn condition(builder: &mut Builder, expr: &Expr, scope: &Scope) -> Result<BitList, ElabError>
    requires whole { IsWhole (names_of scope.now) expr.now }
    requires supported { (plan (names_of scope.now) expr.now).unsupported ≡ [] }
    requires signals { HasSignals (names_of scope.now) builder.old }
    ensures laid { IfOk result (λ bits. showing builder.new bits ≡ lay_condition (layout (names_of scope.now) expr.now) builder.old) }
    ensures built { IfOk result (λ bits. Builds builder.old builder.new bits 1 (λ signals. digit (not (own signals (sense (names_of scope.now) expr.now) == 0))) (condition_cells (plan (names_of scope.now) expr.now))) }
    ensures short { IfErr result (λ e. IsShort (length builder.old.cells + length (condition_cells (plan (names_of scope.now) expr.now))) e) }
{
    let own = shape_of(expr, scope);
    let a = build(builder, expr, scope, own)?;
    condition_bits(builder, a, own.width, expr.first_token())
}

/// The cells of a choice: those of the condition, of the first and of the second part, and the mux.
#[cycle(build)]
fn conditional(
    builder: &mut Builder,
    span: Span,
    test: &Expr,
    yes: &Expr,
    no: &Expr,
    scope: &Scope,
    context: Shape,
) -> Result<BitList, ElabError>
    requires test { IsWhole (names_of scope.now) test.now }
    requires yes { IsWhole (names_of scope.now) yes.now }
    requires no { IsWhole (names_of scope.now) no.now }
    requires supported_test { (plan (names_of scope.now) test.now).unsupported ≡ [] }
    requires supported_yes { (plan (names_of scope.now) yes.now).unsupported ≡ [] }
    requires supported_no { (plan (names_of scope.now) no.now).unsupported ≡ [] }
    requires context_yes { IsContext (sense (names_of scope.now) yes.now).shape context }
    requires context_no { IsContext (sense (names_of scope.now) no.now).shape context }
    requires some { 1 ≤ context.width }
    requires signals { HasSignals (names_of scope.now) builder.old }
    ensures laid { IfOk result (λ bits. showing builder.new bits ≡ lay_arms span (layout (names_of scope.now) yes.now) (layout (names_of scope.now) no.now) context (lay_condition (layout (names_of scope.now) test.now) builder.old)) }
    ensures built { IfOk result (λ bits. Builds builder.old builder.new bits context.width (λ signals. if own signals (sense (names_of scope.now) test.now) == 0 then (sense (names_of scope.now) no.now).value signals context else (sense (names_of scope.now) yes.now).value signals context) (choice_cells span (plan (names_of scope.now) test.now) (plan (names_of scope.now) yes.now) (plan (names_of scope.now) no.now) context)) }
    ensures short { IfErr result (λ e. IsShort (length builder.old.cells + length (choice_cells span (plan (names_of scope.now) test.now) (plan (names_of scope.now) yes.now) (plan (names_of scope.now) no.now) context)) e) }
{
    let s = condition(builder, test, scope)?;
    choice(builder, span, s, yes, no, scope, context)
}

/// The same after the condition, whose bit is given.
#[cycle(build)]
fn choice(
    builder: &mut Builder,
    span: Span,
    s: BitList,
    yes: &Expr,
    no: &Expr,
    scope: &Scope,
    context: Shape,
) -> Result<BitList, ElabError>
    requires one { length s ≡ 1 }
    requires below { AllBelow builder.old.nets s }
    requires yes { IsWhole (names_of scope.now) yes.now }
    requires no { IsWhole (names_of scope.now) no.now }
    requires supported_yes { (plan (names_of scope.now) yes.now).unsupported ≡ [] }
    requires supported_no { (plan (names_of scope.now) no.now).unsupported ≡ [] }
    requires context_yes { IsContext (sense (names_of scope.now) yes.now).shape context }
    requires context_no { IsContext (sense (names_of scope.now) no.now).shape context }
    requires some { 1 ≤ context.width }
    requires signals { HasSignals (names_of scope.now) builder.old }
    ensures laid { IfOk result (λ bits. showing builder.new bits ≡ lay_arms span (layout (names_of scope.now) yes.now) (layout (names_of scope.now) no.now) context (showing builder.old s)) }
    ensures adds { IfOk result (λ bits. Adds builder.old builder.new bits context.width (λ nets. if number (values nets s) == 0 then (sense (names_of scope.now) no.now).value (store builder.old nets) context else (sense (names_of scope.now) yes.now).value (store builder.old nets) context) (made (names_of scope.now) yes.now context ++ (made (names_of scope.now) no.now context ++ cell_of (Some Mux) false (1 ∷ context.width ∷ context.width ∷ context.width ∷ []) span))) }
    ensures short { IfErr result (λ e. IsShort (length builder.old.cells + length (made (names_of scope.now) yes.now context ++ (made (names_of scope.now) no.now context ++ cell_of (Some Mux) false (1 ∷ context.width ∷ context.width ∷ context.width ∷ []) span))) e) }
{
    let yes = build(builder, yes, scope, context)?;
    let no = build(builder, no, scope, context)?;
    choice_bits(builder, s, yes, no, context.width, span)
}

/// The cells of parts side by side; the first has the highest bits.
#[cycle(build)]
fn concatenation(builder: &mut Builder, parts: &[Expr], scope: &Scope) -> Result<BitList, ElabError>
    requires whole { AreWhole (names_of scope.now) parts.now }
    requires supported { all_unsupported (plans (names_of scope.now) parts.now) ≡ [] }
    requires signals { HasSignals (names_of scope.now) builder.old }
    ensures laid { IfOk result (λ bits. showing builder.new bits ≡ lay_parts (layouts (names_of scope.now) parts.now) builder.old []) }
    ensures built { IfOk result (λ bits. Builds builder.old builder.new bits (total_width (senses (names_of scope.now) parts.now)) (λ signals. joined signals (senses (names_of scope.now) parts.now)) (all_cells (plans (names_of scope.now) parts.now))) }
    ensures short { IfErr result (λ e. IsShort (length builder.old.cells + length (all_cells (plans (names_of scope.now) parts.now))) e) }
{
    let mut all = BitList::from_vec(Vec::new(builder.alloc()));
    for part in parts {
        let bits = build(builder, part, scope, shape_of(part, scope))?;
        all = joined_bits(bits, all.as_slice())?;
    }
    Ok(all)
}

/// The cells of parts side by side, and their bits at a width that is not less. `own` is the width of the bits, and the
/// sign with which they are extended.
#[cycle(build)]
fn joined_at(
    builder: &mut Builder,
    parts: &[Expr],
    scope: &Scope,
    own: Shape,
    width: u8,
) -> Result<BitList, ElabError>
    requires whole { AreWhole (names_of scope.now) parts.now }
    requires supported { all_unsupported (plans (names_of scope.now) parts.now) ≡ [] }
    requires own { own.width ≡ total_width (senses (names_of scope.now) parts.now) }
    requires some { 1 ≤ own.width }
    requires wide { own.width ≤ width }
    requires narrow { width ≤ 128 }
    requires signals { HasSignals (names_of scope.now) builder.old }
    ensures laid { IfOk result (λ bits. showing builder.new bits ≡ showing (lay_parts (layouts (names_of scope.now) parts.now) builder.old []).after (widened (lay_parts (layouts (names_of scope.now) parts.now) builder.old []).bits own.is_signed width)) }
    ensures built { IfOk result (λ bits. Builds builder.old builder.new bits width (λ signals. extended own width (joined signals (senses (names_of scope.now) parts.now))) (all_cells (plans (names_of scope.now) parts.now))) }
    ensures fits { IfOk result (λ bits. (nets : Nets) → RunsIn builder.new nets → joined (store builder.old nets) (senses (names_of scope.now) parts.now) < 2 ^ own.width) }
    ensures short { IfErr result (λ e. IsShort (length builder.old.cells + length (all_cells (plans (names_of scope.now) parts.now))) e) }
{
    let bits = concatenation(builder, parts, scope)?;
    Ok(extended_bits(builder.alloc(), bits.as_slice(), own.is_signed, width)?)
}

/// The cells of parts side by side, and so many times their bits.
#[cycle(build)]
fn replicated(
    builder: &mut Builder,
    times: u8,
    parts: &[Expr],
    scope: &Scope,
    width: u8,
) -> Result<BitList, ElabError>
    requires whole { AreWhole (names_of scope.now) parts.now }
    requires supported { all_unsupported (plans (names_of scope.now) parts.now) ≡ [] }
    requires some { 1 ≤ times * total_width (senses (names_of scope.now) parts.now) }
    requires wide { times * total_width (senses (names_of scope.now) parts.now) ≤ width }
    requires narrow { width ≤ 128 }
    requires signals { HasSignals (names_of scope.now) builder.old }
    ensures laid { IfOk result (λ bits. showing builder.new bits ≡ showing (lay_parts (layouts (names_of scope.now) parts.now) builder.old []).after (widened (laid.times times (lay_parts (layouts (names_of scope.now) parts.now) builder.old []).bits) false width)) }
    ensures built { IfOk result (λ bits. Builds builder.old builder.new bits width (λ signals. repeated times (total_width (senses (names_of scope.now) parts.now)) (joined signals (senses (names_of scope.now) parts.now))) (all_cells (plans (names_of scope.now) parts.now))) }
    ensures short { IfErr result (λ e. IsShort (length builder.old.cells + length (all_cells (plans (names_of scope.now) parts.now))) e) }
{
    let bits = concatenation(builder, parts, scope)?;
    Ok(repeated_at(builder.alloc(), bits.as_slice(), times, width)?)
}
