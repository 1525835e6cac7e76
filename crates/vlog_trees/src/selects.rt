//! Selects and left sides, from their parts (IEEE 1364-2005, A.8.4, A.8.5).
#![tactic(auto, unfolding(crate::specs::Expressions::made_expression, vlog_parts::specs::Kinds::is_of_kind, vlog_grammar::specs::Grammar::production))]

ghost use Rattle.std.specs.Prelude.{◌≡◌, true, IfOk};
ghost use Rattle.vlog_grammar.specs.declared.rule.Rule.TheVariants as r;
ghost use Rattle.vlog_parts.specs.declared.value.Value.TheVariants as v;
ghost use Rattle.vlog_trees.specs.Expressions as spec;
ghost use Rattle.vlog_parts.specs.Kinds.{sorted};

use mcy_base::Span;
use std::alloc::{AllocError, Global};
use vlog_parts::{Parts, Select, SelectEnd, Value, boxed_left};
use vlog_syntax::{Boxed, Expr, Identifier, LeftSide};

/// A select, from its first expression and its end.
#[tactic(auto, unfolding(crate::specs::Expressions::select))]
fn select(span: Span, first: Boxed<Expr>, end: SelectEnd) -> Select
    ensures { result ≡ spec.select span first end }
{
    match end {
        SelectEnd::Bit => Select::Bit(span, first),
        SelectEnd::Part(lsb) => Select::Part(span, first, lsb),
        SelectEnd::Indexed(width) => Select::Indexed(span, first, width),
    }
}

/// A select.
#[inline(never)]
pub fn some_select(parts: &mut Parts<'_>) -> Select
    requires { sorted r.SomeSelect parts.old ≡ true }
    ensures { v.Select result ≡ spec.made_expression r.SomeSelect parts.old }
{
    let span = parts.span();
    let expr = parts.expr();
    let end = parts.select_end();
    select(span, expr, end)
}

/// The end of a part select.
#[inline(never)]
pub fn part_select(parts: &mut Parts<'_>) -> SelectEnd
    requires { sorted r.PartSelect parts.old ≡ true }
    ensures { v.SelectEnd result ≡ spec.made_expression r.PartSelect parts.old }
{
    parts.skip();
    SelectEnd::Part(parts.expr())
}

/// The end of an indexed part select.
#[inline(never)]
pub fn indexed_part_select(parts: &mut Parts<'_>) -> SelectEnd
    requires { sorted r.IndexedPartSelect parts.old ≡ true }
    ensures { v.SelectEnd result ≡ spec.made_expression r.IndexedPartSelect parts.old }
{
    parts.skip();
    SelectEnd::Indexed(parts.expr())
}

/// A name or a select of it, on the left of an assignment.
#[tactic(auto, unfolding(crate::specs::Expressions::left_selected))]
fn left_selected(name: Identifier, select: Option<Select>) -> LeftSide
    ensures { result ≡ spec.left_selected name select }
{
    match select {
        None => LeftSide::Name(name),
        Some(Select::Bit(span, index)) => LeftSide::BitSelect(name, span, index),
        Some(Select::Part(span, msb, lsb)) => { LeftSide::PartSelect(name, span, msb, lsb) }
        Some(Select::Indexed(span, base, width)) => {
            LeftSide::IndexedPartSelect(name, span, base, width)
        }
    }
}

/// A name or a select of it.
#[inline(never)]
pub fn left_name(parts: &mut Parts<'_>) -> LeftSide
    requires { sorted r.LeftName parts.old ≡ true }
    ensures { v.LeftSide result ≡ spec.made_expression r.LeftName parts.old }
{
    let name = parts.identifier();
    let select = parts.select();
    left_selected(name, select)
}

/// A concatenation.
#[inline(never)]
pub fn left_concatenation<'a>(alloc: Global, parts: &mut Parts<'a>) -> Result<Value<'a>, AllocError>
    requires { sorted r.LeftConcatenation parts.old ≡ true }
    ensures { IfOk result (λ x. x ≡ spec.made_expression r.LeftConcatenation parts.old) }
{
    let span = parts.span();
    let lefts = parts.some_lefts(alloc)?;
    boxed_left(alloc, LeftSide::Concatenation(span, lefts.into_listed()))
}

/// A left side behind a `,`, and those behind it.
#[inline(never)]
pub fn next_left_side<'a>(alloc: Global, parts: &mut Parts<'a>) -> Result<Value<'a>, AllocError>
    requires { sorted r.NextLeftSide parts.old ≡ true }
    ensures { IfOk result (λ x. x ≡ spec.made_expression r.NextLeftSide parts.old) }
{
    parts.skip();
    let lefts = parts.some_lefts(alloc)?;
    Ok(Value::LeftSides(lefts))
}
