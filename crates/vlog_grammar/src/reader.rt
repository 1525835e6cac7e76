//! The reader: from tokens to the steps of their trees, with one token of lookahead.
//!
//! A stack holds the symbols that are still to come, the next one on top. Before a token productions take the place of
//! the kinds on top, until a token is asked for. The work for a token is bounded by the table, so reading is linear.
ghost use Rattle.std.specs.Prelude.{◌≡◌, ◌++◌, ◌∷◌, List, Option, Some, true, OnOk, IfOk, MatchOption, length, reverse, drop, take};
ghost use Rattle.vlog_syntax.specs.declared.feature.Feature.{Feature};
ghost use Rattle.vlog_grammar.specs.Grammar.{parts_of};
ghost use Rattle.vlog_grammar.specs.Look.{all_safe};
ghost use Rattle.vlog_grammar.specs.Machine.{AllFollowed, ExpandsTo, IsAsked, with_asked};
ghost use Rattle.vlog_grammar.specs.Reading.{AreAlikeFor, AreTreesOf, IsReading, IsRefusedAt, IsStop, IsStopAt, IsText, IsUnexpectedAt, first_of, named};
ghost use Rattle.vlog_grammar.specs.Trees.{Fits, Trees, next_of, steps_of, tokens_of};
ghost use Rattle.vlog_grammar.specs.declared.step.Token.{Token};
ghost use Rattle.vlog_grammar.specs.declared.stop.Stop.{Stop};

use crate::class::Class;
use crate::rule::{Kind, Rule};
use crate::step::{Step, Token};
use crate::stop::{Reading, Stop};
use crate::table::{Symbol, choice, parts_of};
use std::alloc::{AllocError, Global};
use vlog_syntax::Feature;

/// The steps of the trees that derive exactly these tokens, or where and why there are none (IEEE 1364-2005, Annex A, in
/// the profile of docs/PROFILE.md).
pub fn read(alloc: Global, tokens: &[Token]) -> Result<Reading, AllocError>
    ensures { IfOk result (λ reading. IsReading tokens.now reading.steps.items reading.stop) }
{
    let mut stack = Vec::new(alloc);
    let mut steps = Vec::new(alloc);
    stack.push(Symbol::Of(Kind::SourceText))?;
    for (at, token) in tokens.iter().enumerate() {
        let count = steps.len();
        let Asked::Asks(symbol) = expand(&mut stack, &mut steps, token.class)? else {
            return Ok(stopped(steps, count, unexpected(at, token.class)));
        };
        let Some(refusal) = fit(symbol, *token) else {
            return Ok(stopped(steps, count, unexpected(at, token.class)));
        };
        if let Some(feature) = refusal {
            return Ok(stopped(steps, count, refused(at, feature)));
        }
        steps.push(Step::Take(*token))?;
    }
    let count = steps.len();
    let Asked::Nothing = expand(&mut stack, &mut steps, Class::Finish)? else {
        return Ok(stopped(steps, count, Stop::Unexpected(tokens.len())));
    };
    Ok(Reading { steps, stop: None })
}

/// The reading that stopped after so many steps.
fn stopped(mut steps: Vec<Step>, count: usize, stop: Stop) -> Reading
    ensures steps { result.steps.items ≡ take count steps.items }
    ensures stop { result.stop ≡ Some stop }
{
    steps.truncate(count);
    Reading {
        steps,
        stop: Some(stop),
    }
}

/// What stands on top once productions are in the place of the kinds there.
#[derive(Clone, Copy)]
pub enum Asked {
    /// A token is asked for.
    Asks(Symbol),
    /// This kind has no production for the next token.
    Stuck(Symbol),
    Nothing,
}

/// Puts productions in the place of the kinds on top, and takes what is then on top.
fn expand(stack: &mut Vec<Symbol>, steps: &mut Vec<Step>, next: Class) -> Result<Asked, AllocError>
    requires followed { AllFollowed (reverse stack.old.items) }
    requires safe { all_safe (reverse stack.old.items) ≡ true }
    ensures to { IfOk result (λ asked. ExpandsTo next (reverse stack.old.items) (with_asked asked (reverse stack.new.items)) steps.old.items steps.new.items) }
    ensures asked { IfOk result (IsAsked next) }
{
    while let Some(symbol) = stack.pop() {
        let Symbol::Of(kind) = symbol else {
            return Ok(Asked::Asks(symbol));
        };
        let Some(rule) = choice(kind, next) else {
            return Ok(Asked::Stuck(symbol));
        };
        push_parts(stack, rule)?;
        steps.push(Step::Begin(rule))?;
    }
    Ok(Asked::Nothing)
}

/// Puts the parts of a production on the stack, the first one on top.
fn push_parts(stack: &mut Vec<Symbol>, rule: Rule) -> Result<(), AllocError>
    ensures { OnOk result (reverse stack.new.items ≡ parts_of rule ++ reverse stack.old.items) }
{
    for symbol in parts_of(rule).iter().rev() {
        stack.push(*symbol)?;
    }
    Ok(())
}

/// Whether the token may stand for the symbol, and the feature by which it is refused there.
fn fit(symbol: Symbol, token: Token) -> Option<Option<Feature>>
    ensures { MatchOption result ((x : Option Feature) → Fits symbol token x → ⊥) (λ x. Fits symbol token x) }
{
    match symbol {
        Symbol::Is(class) => {
            if token.class == class {
                Some(None)
            } else {
                None
            }
        }
        Symbol::Refused(class, feature) => {
            if token.class == class {
                Some(Some(feature))
            } else {
                None
            }
        }
        Symbol::Of(_) => None,
    }
}

/// The feature of a word that is refused by name wherever it is unexpected.
#[tactic(auto, unfolding(crate::specs::Reading::named))]
fn named(class: Class) -> Option<Feature>
    ensures { result ≡ named class }
{
    match class {
        Class::NetKind => Some(Feature::NetKind),
        Class::Inout => Some(Feature::Inout),
        Class::Function => Some(Feature::Function),
        Class::Task => Some(Feature::Task),
        Class::Specify => Some(Feature::Specify),
        Class::Defparam => Some(Feature::Defparam),
        Class::RealOrTime => Some(Feature::RealOrTime),
        _ => None,
    }
}

/// The stop at an unexpected token.
fn unexpected(at: usize, class: Class) -> Stop
    ensures { (tokens : List Token) → IsUnexpectedAt tokens at → next_of (drop at tokens) ≡ class → IsStopAt tokens at result }
{
    match named(class) {
        Some(feature) => Stop::Unsupported(at, feature),
        None => Stop::Unexpected(at),
    }
}

/// The stop at a token that fits and is refused. The construct of a memory begins one token earlier, with its name.
fn refused(at: usize, feature: Feature) -> Stop
    ensures { (tokens : List Token) → IsRefusedAt tokens at feature → IsStopAt tokens at result }
{
    match feature {
        Feature::Memory => Stop::Unsupported(at.saturating_sub(1), feature),
        _ => Stop::Unsupported(at, feature),
    }
}

#[tactic(auto, using(crate::proofs::Unique::same_steps))]
/// Tokens have one answer, and texts are read in one way as far as their tokens are the same.
pub fn one_answer()
    ensures read { (tokens : List Token) (text : Trees) (stop : Stop) → AreTreesOf text tokens → IsStop tokens stop → ⊥ }
    ensures stops { (tokens : List Token) (s t : Stop) → IsStop tokens s → IsStop tokens t → s ≡ t }
    ensures begins { (f g : Trees) (done m n : List Token) → IsText f → IsText g → tokens_of f ≡ done ++ m → tokens_of g ≡ done ++ n → AreAlikeFor (length done) f g }
    ensures one_way { (f g : Trees) → IsText f → IsText g → tokens_of f ≡ tokens_of g → steps_of f ≡ steps_of g }
{}
