//! The reading of expressions.
//!
//! Tokens are parted at the operators of the lowest precedence first. Each call on fewer constructs has one in `room` less, so
//! the calls nest as deep as the constructs that a script may open, and no deeper.
ghost use Rattle.std.specs.Prelude.{◌≡◌, IfOk};
ghost use Rattle.tag_lines.specs.Grammar.{all_of, atom, both, called, chain, comparison, deeper, expression, inner, joined, operand, part, parts_at, known_words, negated, negation};

use crate::expr::{Comparison, Expr};
use crate::parting::{Separator, behind, comparison_of};
use crate::words::{argument_of, is_last, place_in_texts, single};
use mcy_base::{Bytes, Text};
use script_lines::{Keyword, Token, before, front_len, is_symbol};
use std::alloc::{AllocError, Global};
use tree_parts::{Boxed, Listed};

/// The comparison of two expressions, where all are there.
fn both(
    alloc: Global,
    left: Option<Expr>,
    operator: Option<Comparison>,
    right: Option<Expr>,
) -> Result<Option<Expr>, AllocError>
    ensures { IfOk result (λ x. x ≡ both left operator right) }
{
    let Some(left) = left else {
        return Ok(None);
    };
    let Some(operator) = operator else {
        return Ok(None);
    };
    let Some(right) = right else {
        return Ok(None);
    };
    let left = Boxed::new(alloc, left)?;
    let right = Boxed::new(alloc, right)?;
    Ok(Some(Expr::Compare(left, operator, right)))
}

/// `not` before an operand.
fn negated(alloc: Global, operand: Option<Expr>) -> Result<Option<Expr>, AllocError>
    ensures { IfOk result (λ x. x ≡ negated operand) }
{
    let Some(operand) = operand else {
        return Ok(None);
    };
    Ok(Some(Expr::Not(Boxed::new(alloc, operand)?)))
}

/// The operands with the operator that stands between them.
fn joined(separator: Separator, operands: Option<Listed<Expr>>) -> Option<Expr>
    ensures { result ≡ joined separator operands }
{
    match (separator, operands) {
        (Separator::Or, Some(operands)) => Some(Expr::Or(operands)),
        (Separator::And, Some(operands)) => Some(Expr::And(operands)),
        _ => None,
    }
}

/// The word of a test.
fn called(tests: &[Text], tokens: &[Token]) -> Option<Expr>
    ensures { result ≡ called tests.now tokens.now }
{
    let test = argument_of("result", tokens)?;
    Some(Expr::Word(place_in_texts(test.as_slice(), tests)))
}

/// An expression, where at most so many parentheses and `not`s may be open within it.
#[tactic(auto, unfolding(crate::specs::Grammar::expression, crate::specs::Grammar::part))]
pub fn expression(
    alloc: Global,
    tests: &[Text],
    names: &[Bytes],
    room: usize,
    tokens: &[Token],
) -> Result<Option<Expr>, AllocError>
    ensures { IfOk result (λ x. x ≡ expression (known_words tests.now names.now) room tokens.now) }
{
    chain(alloc, tests, names, room, Separator::Or, tokens)
}

/// The operands between separators, or one operand where there is no separator.
#[tactic(auto, unfolding(crate::specs::Grammar::chain))]
#[cycle(expression)]
fn chain(
    alloc: Global,
    tests: &[Text],
    names: &[Bytes],
    room: usize,
    separator: Separator,
    tokens: &[Token],
) -> Result<Option<Expr>, AllocError>
    ensures { IfOk result (λ x. let w = known_words tests.now names.now in x ≡ chain separator (part w room separator) tokens.now) }
{
    if front_len(separator, tokens) == tokens.len() {
        return part(alloc, tests, names, room, separator, tokens);
    }
    let operands = operands(alloc, tests, names, room, separator, tokens)?;
    Ok(joined(separator, operands))
}

/// All operands, where each is one.
#[cycle(expression)]
fn operands(
    alloc: Global,
    tests: &[Text],
    names: &[Bytes],
    room: usize,
    separator: Separator,
    tokens: &[Token],
) -> Result<Option<Listed<Expr>>, AllocError>
    ensures { IfOk result (λ xs. xs ≡ all_of (part (known_words tests.now names.now) room separator) (parts_at separator 0 tokens.now)) }
{
    let mut operands = Listed::from_vec(Vec::new(alloc));
    let mut rest = tokens;
    'parts: loop {
        let len = front_len(separator, rest);
        let front = before(len, rest);
        let Some(operand) = part(alloc, tests, names, room, separator, front)? else {
            return Ok(None);
        };
        operands.push(operand)?;
        if len == rest.len() {
            return Ok(Some(operands));
        }
        rest = behind(len, rest);
    }
}

/// What stands between two separators.
#[tactic(auto, unfolding(crate::specs::Grammar::part, crate::specs::Grammar::nothing))]
#[cycle(expression)]
fn part(
    alloc: Global,
    tests: &[Text],
    names: &[Bytes],
    room: usize,
    separator: Separator,
    tokens: &[Token],
) -> Result<Option<Expr>, AllocError>
    ensures { IfOk result (λ x. x ≡ part (known_words tests.now names.now) room separator tokens.now) }
{
    match separator {
        Separator::Or => chain(alloc, tests, names, room, Separator::And, tokens),
        Separator::And => operand(alloc, tests, names, room, tokens),
        Separator::Comparison => Ok(None),
    }
}

/// An operand of `and`, where at most so many parentheses and `not`s may be open within it.
#[tactic(auto, using(crate::proofs::Rooms::operand_is))]
#[cycle(expression)]
fn operand(
    alloc: Global,
    tests: &[Text],
    names: &[Bytes],
    room: usize,
    tokens: &[Token],
) -> Result<Option<Expr>, AllocError>
    ensures { IfOk result (λ x. x ≡ operand (known_words tests.now names.now) room tokens.now) }
{
    negation(alloc, tests, names, room, tokens)
}

/// `not` with its operand, or a comparison.
#[tactic(auto, unfolding(crate::specs::Grammar::negation))]
#[cycle(expression)]
fn negation(
    alloc: Global,
    tests: &[Text],
    names: &[Bytes],
    room: usize,
    tokens: &[Token],
) -> Result<Option<Expr>, AllocError>
    ensures { IfOk result (λ x. let w = known_words tests.now names.now in x ≡ negation w (deeper w room) (inner w room) tokens.now) }
{
    match tokens {
        [] => Ok(None),
        [Token::Keyword(Keyword::Not), more @ ..] => {
            let operand = deeper(alloc, tests, names, room, more)?;
            negated(alloc, operand)
        }
        _ => comparison(alloc, tests, names, room, tokens),
    }
}

/// An operand inside one construct more.
#[tactic(auto, using(crate::proofs::Rooms::deeper_none, crate::proofs::Rooms::deeper_more))]
#[cycle(expression)]
fn deeper(
    alloc: Global,
    tests: &[Text],
    names: &[Bytes],
    room: usize,
    tokens: &[Token],
) -> Result<Option<Expr>, AllocError>
    ensures { IfOk result (λ x. x ≡ deeper (known_words tests.now names.now) room tokens.now) }
{
    if room == 0 {
        return Ok(None);
    }
    operand(alloc, tests, names, room - 1, tokens)
}

/// An expression inside one construct more.
#[tactic(auto, using(crate::proofs::Rooms::inner_none, crate::proofs::Rooms::inner_more))]
#[cycle(expression)]
fn inner(
    alloc: Global,
    tests: &[Text],
    names: &[Bytes],
    room: usize,
    tokens: &[Token],
) -> Result<Option<Expr>, AllocError>
    ensures { IfOk result (λ x. x ≡ inner (known_words tests.now names.now) room tokens.now) }
{
    if room == 0 {
        return Ok(None);
    }
    chain(alloc, tests, names, room - 1, Separator::Or, tokens)
}

/// One comparison at most.
#[tactic(auto, unfolding(crate::specs::Grammar::comparison))]
#[cycle(expression)]
fn comparison(
    alloc: Global,
    tests: &[Text],
    names: &[Bytes],
    room: usize,
    tokens: &[Token],
) -> Result<Option<Expr>, AllocError>
    ensures { IfOk result (λ x. let w = known_words tests.now names.now in x ≡ comparison w (inner w room) tokens.now) }
{
    let len = front_len(Separator::Comparison, tokens);
    let Some(token) = tokens.get(len) else {
        return atom(alloc, tests, names, room, tokens);
    };
    let left = atom(alloc, tests, names, room, &tokens[..len])?;
    let right = atom(alloc, tests, names, room, &tokens[len + 1..])?;
    both(alloc, left, comparison_of(token), right)
}

/// A name, a number, a text, a test's word, or an expression in parentheses.
#[tactic(auto, unfolding(crate::specs::Grammar::atom, crate::specs::Grammar::before_symbol))]
#[cycle(expression)]
fn atom(
    alloc: Global,
    tests: &[Text],
    names: &[Bytes],
    room: usize,
    tokens: &[Token],
) -> Result<Option<Expr>, AllocError>
    ensures { IfOk result (λ x. let w = known_words tests.now names.now in x ≡ atom w (inner w room) tokens.now) }
{
    match tokens {
        [] => Ok(None),
        [token] => single(alloc, names, token),
        [token, more @ ..] => {
            if !is_symbol(b'(', token) {
                return Ok(called(tests, tokens));
            }
            if !is_last(b')', more) {
                return Ok(None);
            }
            inner(alloc, tests, names, room, &more[..more.len() - 1])
        }
    }
}
