//! From the steps of a reading to the modules of its trees, from the last step to the first.
//!
//! `values` holds what the steps behind the one at hand mean, the nearest on top: a token pushes itself, and a
//! production puts what it means in the place of its parts. Each part is of the sort of its kind.
ghost use Rattle.std.specs.Prelude.{◌≡◌, ◌∷◌, true, List, IfOk, OnOk, length, take, drop};
ghost use Rattle.vlog_grammar.specs.Grammar.{parts_of};
ghost use Rattle.vlog_grammar.specs.Reading.{AreStepsOf, IsText};
ghost use Rattle.vlog_grammar.specs.Trees.{Trees, steps_of};
ghost use Rattle.vlog_grammar.specs.declared.step.Token.{Token as Classed};
ghost use Rattle.vlog_parts.specs.Kinds.{sorted};
ghost use Rattle.vlog_trees.specs.Meaning.{leaf, made, modules, run};

use crate::expressions::make_expression;
use std::alloc::{AllocError, Global};
use vlog_grammar::{Rule, Step, Token as Classed, parts_of};
use vlog_parts::{Stack, Value};
use vlog_syntax::Module;
use vlog_token::Token;

/// The modules of the text whose trees have these steps.
pub fn build_modules(
    alloc: Global,
    tokens: &[Token<'_>],
    steps: &[Step],
) -> Result<Vec<Module>, AllocError>
    requires { (read : List Classed) × AreStepsOf steps.now read }
    ensures { IfOk result (λ ms. (text : Trees) → IsText text → steps_of text ≡ steps.now → ms.items ≡ modules tokens.now text) }
{
    let mut values = build(alloc, tokens, steps)?;
    Ok(values.modules(alloc).into_listed().into_vec())
}

/// What a token means.
#[tactic(auto, unfolding(crate::specs::Meaning::leaf))]
fn leaf<'a>(tokens: &[Token<'a>], token: Classed) -> Value<'a>
    ensures { result ≡ leaf tokens.now token }
{
    match tokens.get(token.at) {
        Some(token) => Value::Token(*token),
        None => Value::Nothing,
    }
}

/// Puts what the production means in the place of its parts.
#[tactic(auto, unfolding(crate::specs::Meaning::made))]
fn apply<'a>(alloc: Global, rule: Rule, values: &mut Stack<Value<'a>>) -> Result<(), AllocError>
    requires { sorted rule (take (length (parts_of rule)) values.old) ≡ true }
    ensures { OnOk result (values.new ≡ made rule (take (length (parts_of rule)) values.old) ∷ drop (length (parts_of rule)) values.old) }
{
    let count = parts_of(rule).len();
    if count == 0 {
        values.push(Value::Nothing)?;
    } else {
        let mut parts = values.pop_many(count)?;
        values.push(make_expression(alloc, rule, &mut parts)?)?;
    }
    Ok(())
}

/// What the trees mean whose steps these are.
fn build<'a>(
    alloc: Global,
    tokens: &[Token<'a>],
    steps: &[Step],
) -> Result<Stack<Value<'a>>, AllocError>
    requires { (read : List Classed) × AreStepsOf steps.now read }
    ensures { IfOk result (λ values. values ≡ run tokens.now steps.now) }
{
    let mut values = Stack::new(alloc);
    for i in (0..steps.len()).rev() {
        match steps[i] {
            Step::Take(token) => values.push(leaf(tokens, token))?,
            Step::Begin(rule) => apply(alloc, rule, &mut values)?,
        }
    }
    Ok(values)
}
