//! An expression with a number in the place of each `$random` and `$time`.
ghost use Rattle.std.specs.Prelude.{◌≡◌, [], IfOk, MatchOption, false, map};
ghost use Rattle.vlog_meaning.specs.Functions.{function_of as function_named};
ghost use Rattle.vlog_meaning.specs.Scopes.{Names};
ghost use Rattle.vlog_meaning.specs.Senses.{sense, senses};
ghost use Rattle.tb_values.specs.Draws.{drawn, all_drawn, call_drawn, is_changing};

use crate::numbers::{random, time};
use rand_pcg::Lcg64Xsh32;
use std::alloc::{AllocError, Global};
use vlog_meaning::{Function, function_of};
use vlog_syntax::{Boxed, Expr, Identifier, Listed};

/// A copy in which each `$random` is the next word, from left to right, and each `$time` the number of the phase.
#[cycle(draw)]
pub fn draw(
    alloc: Global,
    expr: &Expr,
    phase: u64,
    words: &mut Lcg64Xsh32,
) -> Result<Expr, AllocError>
    ensures { (names : Names) → IfOk result (λ x. (sense names x, words.new) ≡ drawn names phase expr.now words.old) }
{
    match expr {
        Expr::Number(number) => Ok(Expr::Number(*number)),
        Expr::Name(name) => Ok(Expr::Name(name.copy(alloc)?)),
        Expr::BitSelect(name, span, index) => {
            let index = draw_part(alloc, index.get(), phase, words)?;
            Ok(Expr::BitSelect(name.copy(alloc)?, *span, index))
        }
        Expr::PartSelect(name, span, msb, lsb) => {
            let msb = draw_part(alloc, msb.get(), phase, words)?;
            let lsb = draw_part(alloc, lsb.get(), phase, words)?;
            Ok(Expr::PartSelect(name.copy(alloc)?, *span, msb, lsb))
        }
        Expr::IndexedPartSelect(name, span, base, width) => {
            let base = draw_part(alloc, base.get(), phase, words)?;
            let width = draw_part(alloc, width.get(), phase, words)?;
            Ok(Expr::IndexedPartSelect(name.copy(alloc)?, *span, base, width))
        }
        Expr::Parenthesized(span, inner) => {
            let inner = draw_part(alloc, inner.get(), phase, words)?;
            Ok(Expr::Parenthesized(*span, inner))
        }
        Expr::Unary(span, operator, operand) => {
            let operand = draw_part(alloc, operand.get(), phase, words)?;
            Ok(Expr::Unary(*span, *operator, operand))
        }
        Expr::Binary(span, operator, left, right) => {
            let left = draw_part(alloc, left.get(), phase, words)?;
            let right = draw_part(alloc, right.get(), phase, words)?;
            Ok(Expr::Binary(*span, *operator, left, right))
        }
        Expr::Conditional(span, condition, yes, no) => {
            let condition = draw_part(alloc, condition.get(), phase, words)?;
            let yes = draw_part(alloc, yes.get(), phase, words)?;
            let no = draw_part(alloc, no.get(), phase, words)?;
            Ok(Expr::Conditional(*span, condition, yes, no))
        }
        Expr::Concatenation(span, parts) => {
            let parts = draw_all(alloc, parts.as_slice(), phase, words)?;
            Ok(Expr::Concatenation(*span, parts))
        }
        Expr::MultipleConcatenation(span, count, parts) => {
            let count = draw_part(alloc, count.get(), phase, words)?;
            let parts = draw_all(alloc, parts.as_slice(), phase, words)?;
            Ok(Expr::MultipleConcatenation(*span, count, parts))
        }
        Expr::SystemFunctionCall(name, arguments) => {
            draw_call(alloc, name, arguments.as_slice(), phase, words)
        }
    }
}

/// The same in a box.
#[cycle(draw)]
fn draw_part(
    alloc: Global,
    expr: &Expr,
    phase: u64,
    words: &mut Lcg64Xsh32,
) -> Result<Boxed<Expr>, AllocError>
    ensures { (names : Names) → IfOk result (λ x. (sense names x, words.new) ≡ drawn names phase expr.now words.old) }
{
    let drawn = draw(alloc, expr, phase, words)?;
    Boxed::new(alloc, drawn)
}

/// The same of several expressions.
#[cycle(draw)]
fn draw_all(
    alloc: Global,
    exprs: &[Expr],
    phase: u64,
    words: &mut Lcg64Xsh32,
) -> Result<Listed<Expr>, AllocError>
    ensures { (names : Names) → IfOk result (λ l. (senses names l, words.new) ≡ all_drawn (map (drawn names phase) exprs.now) words.old) }
{
    let mut copies = Listed::from_vec(Vec::new(alloc));
    for expr in exprs {
        let copy = draw(alloc, expr, phase, words)?;
        copies.push(copy)?;
    }
    Ok(copies)
}

/// The same of a call.
#[cycle(draw)]
fn draw_call(
    alloc: Global,
    name: &Identifier,
    arguments: &[Expr],
    phase: u64,
    words: &mut Lcg64Xsh32,
) -> Result<Expr, AllocError>
    ensures { (names : Names) → IfOk result (λ x. (sense names x, words.new) ≡ call_drawn names phase name.now (function_named name.now.name) (map (drawn names phase) arguments.now) words.old) }
{
    if arguments.is_empty() {
        return draw_bare(alloc, name, phase, words);
    }
    let arguments = draw_all(alloc, arguments, phase, words)?;
    Ok(Expr::SystemFunctionCall(name.copy(alloc)?, arguments))
}

/// The same of a call without arguments.
fn draw_bare(
    alloc: Global,
    name: &Identifier,
    phase: u64,
    words: &mut Lcg64Xsh32,
) -> Result<Expr, AllocError>
    ensures { (names : Names) → IfOk result (λ x. (sense names x, words.new) ≡ call_drawn names phase name.now (function_named name.now.name) [] words.old) }
{
    match number_of(name, phase, words) {
        Some(number) => Ok(number),
        None => {
            let arguments = Listed::from_vec(Vec::new(alloc));
            Ok(Expr::SystemFunctionCall(name.copy(alloc)?, arguments))
        }
    }
}

/// The number that a call without arguments is, if it changes from one evaluation to the next.
fn number_of(name: &Identifier, phase: u64, words: &mut Lcg64Xsh32) -> Option<Expr>
    ensures { (names : Names) → MatchOption result ((is_changing (function_named name.now.name) ≡ false) × (words.new ≡ words.old)) (λ x. (sense names x, words.new) ≡ call_drawn names phase name.now (function_named name.now.name) [] words.old) }
{
    match function_of(name.name.as_str()) {
        Some(Function::Random) => Some(random(name.span, words)),
        Some(Function::Time) => Some(time(name.span, phase)),
        _ => None,
    }
}
