//! The reading of expressions.
//!
//! Tokens are parted at the operators of the lowest precedence first. Each call on fewer constructs has one in `room` less, so
//! the calls nest as deep as the constructs that a report may open, and no deeper.
ghost use Rattle.std.specs.Prelude.{◌≡◌, IfOk, Some};
ghost use Rattle.report_lines.specs.Grammar.{all_of, are_barred, atom, chain, deeper, expression, inner, is_single, joined, negated, negation, operand, part, shares_at, term_in, term_of};

use crate::expr::{Expr, Operator, Term};
use crate::parting::{Level, behind, operator_of};
use crate::words::{counted, single};
use mcy_base::Text;
use script_lines::{Keyword, Token, before, front_len, is_symbol};
use std::alloc::{AllocError, Global};
use tag_lines::is_last;
use tree_parts::{Boxed, Listed};

/// An operator and its operand, where both are there.
fn term_of(operator: Option<Operator>, operand: Option<Expr>) -> Option<Term>
    ensures { result ≡ term_of operator operand }
{
    match (operator, operand) {
        (Some(operator), Some(operand)) => Some(Term { operator, operand }),
        _ => None,
    }
}

/// Whether there is one term at most.
fn is_single(terms: &[Term]) -> bool
    ensures { result ≡ is_single terms.now }
{
    match terms {
        [] | [_] => true,
        [_, _, ..] => false,
    }
}

/// Whether these terms may not follow one another.
fn are_barred(level: Level, terms: &[Term]) -> bool
    ensures { result ≡ are_barred level terms.now }
{
    match level {
        Level::Comparison => !is_single(terms),
        _ => false,
    }
}

/// A value and what is done with it.
fn joined(
    alloc: Global,
    level: Level,
    value: Expr,
    terms: Listed<Term>,
) -> Result<Option<Expr>, AllocError>
    ensures { IfOk result (λ x. x ≡ joined level value (Some terms)) }
{
    if terms.as_slice().is_empty() {
        return Ok(Some(value));
    }
    if are_barred(level, terms.as_slice()) {
        return Ok(None);
    }
    Ok(Some(Expr::Chain(Boxed::new(alloc, value)?, terms)))
}

/// `not` before an operand.
fn negated(alloc: Global, operand: Option<Expr>) -> Result<Option<Expr>, AllocError>
    ensures { IfOk result (λ x. x ≡ negated operand) }
{
    let Some(operand) = operand else {
        return Ok(None);
    };
    Ok(Some(Expr::Not(Boxed::new(alloc, operand)?)))
}

/// An expression, where at most so many parentheses and `not`s may be open within it.
#[tactic(auto, unfolding(crate::specs::Grammar::expression, crate::specs::Grammar::part))]
pub fn expression(
    alloc: Global,
    tags: &[Text],
    room: usize,
    tokens: &[Token],
) -> Result<Option<Expr>, AllocError>
    ensures { IfOk result (λ x. x ≡ expression tags.now room tokens.now) }
{
    chain(alloc, tags, room, Level::Or, tokens)
}

/// What stands between the signs of a level.
#[tactic(auto, unfolding(crate::specs::Grammar::chain))]
#[cycle(expression)]
fn chain(
    alloc: Global,
    tags: &[Text],
    room: usize,
    level: Level,
    tokens: &[Token],
) -> Result<Option<Expr>, AllocError>
    ensures { IfOk result (λ x. x ≡ chain level (part tags.now room level) tokens.now) }
{
    let len = front_len(level, tokens);
    let Some(value) = part(alloc, tags, room, level, before(len, tokens))? else {
        return Ok(None);
    };
    match terms(alloc, tags, room, level, behind(len, tokens))? {
        Some(terms) => joined(alloc, level, value, terms),
        None => Ok(None),
    }
}

/// All terms of tokens that begin with a sign, if there are any.
#[cycle(expression)]
fn terms(
    alloc: Global,
    tags: &[Text],
    room: usize,
    level: Level,
    tokens: &[Token],
) -> Result<Option<Listed<Term>>, AllocError>
    ensures { IfOk result (λ xs. xs ≡ all_of (term_in (part tags.now room level)) (shares_at level tokens.now)) }
{
    let mut terms = Listed::from_vec(Vec::new(alloc));
    let mut rest = tokens;
    'signs: while let [sign, more @ ..] = rest {
        let len = front_len(level, more);
        let front = before(len, more);
        let Some(term) = term(alloc, tags, room, level, sign, front)? else {
            return Ok(None);
        };
        terms.push(term)?;
        rest = behind(len, more);
    }
    Ok(Some(terms))
}

/// A term.
#[cycle(expression)]
fn term(
    alloc: Global,
    tags: &[Text],
    room: usize,
    level: Level,
    sign: &Token,
    tokens: &[Token],
) -> Result<Option<Term>, AllocError>
    ensures { IfOk result (λ t. t ≡ term_in (part tags.now room level) (record { sign = sign.now; tokens = tokens.now })) }
{
    let operand = part(alloc, tags, room, level, tokens)?;
    Ok(term_of(operator_of(sign), operand))
}

/// What stands between two signs.
#[tactic(auto, unfolding(crate::specs::Grammar::part, crate::specs::Grammar::nothing))]
#[cycle(expression)]
fn part(
    alloc: Global,
    tags: &[Text],
    room: usize,
    level: Level,
    tokens: &[Token],
) -> Result<Option<Expr>, AllocError>
    ensures { IfOk result (λ x. x ≡ part tags.now room level tokens.now) }
{
    match level {
        Level::Comma => Ok(None),
        Level::Or => chain(alloc, tags, room, Level::And, tokens),
        Level::And => operand(alloc, tags, room, tokens),
        Level::Comparison => chain(alloc, tags, room, Level::Sum, tokens),
        Level::Sum => chain(alloc, tags, room, Level::Product, tokens),
        Level::Product => atom(alloc, tags, room, tokens),
    }
}

/// An operand of `and`, where at most so many parentheses and `not`s may be open within it.
#[tactic(auto, using(crate::proofs::Rooms::operand_is))]
#[cycle(expression)]
fn operand(
    alloc: Global,
    tags: &[Text],
    room: usize,
    tokens: &[Token],
) -> Result<Option<Expr>, AllocError>
    ensures { IfOk result (λ x. x ≡ operand tags.now room tokens.now) }
{
    negation(alloc, tags, room, tokens)
}

/// `not` before an operand, or a comparison.
#[tactic(auto, unfolding(crate::specs::Grammar::negation, crate::specs::Grammar::part))]
#[cycle(expression)]
fn negation(
    alloc: Global,
    tags: &[Text],
    room: usize,
    tokens: &[Token],
) -> Result<Option<Expr>, AllocError>
    ensures { IfOk result (λ x. x ≡ negation tags.now (deeper tags.now room) (inner tags.now room) tokens.now) }
{
    match tokens {
        [] => chain(alloc, tags, room, Level::Comparison, tokens),
        [Token::Keyword(Keyword::Not), more @ ..] => {
            let operand = deeper(alloc, tags, room, more)?;
            negated(alloc, operand)
        }
        _ => chain(alloc, tags, room, Level::Comparison, tokens),
    }
}

/// An operand inside one construct more.
#[tactic(auto, using(crate::proofs::Rooms::deeper_none, crate::proofs::Rooms::deeper_more))]
#[cycle(expression)]
fn deeper(
    alloc: Global,
    tags: &[Text],
    room: usize,
    tokens: &[Token],
) -> Result<Option<Expr>, AllocError>
    ensures { IfOk result (λ x. x ≡ deeper tags.now room tokens.now) }
{
    if room == 0 {
        return Ok(None);
    }
    operand(alloc, tags, room - 1, tokens)
}

/// An expression inside one construct more.
#[tactic(auto, using(crate::proofs::Rooms::inner_none, crate::proofs::Rooms::inner_more))]
#[cycle(expression)]
pub fn inner(
    alloc: Global,
    tags: &[Text],
    room: usize,
    tokens: &[Token],
) -> Result<Option<Expr>, AllocError>
    ensures { IfOk result (λ x. x ≡ inner tags.now room tokens.now) }
{
    if room == 0 {
        return Ok(None);
    }
    chain(alloc, tags, room - 1, Level::Or, tokens)
}

/// A number, the count of a tag, or an expression in parentheses.
#[tactic(auto, unfolding(crate::specs::Grammar::atom, tag_lines::specs::Grammar::before_symbol))]
#[cycle(expression)]
fn atom(
    alloc: Global,
    tags: &[Text],
    room: usize,
    tokens: &[Token],
) -> Result<Option<Expr>, AllocError>
    ensures { IfOk result (λ x. x ≡ atom tags.now (inner tags.now room) tokens.now) }
{
    match tokens {
        [] => Ok(None),
        [token] => Ok(single(token)),
        [token, more @ ..] => {
            if !is_symbol(b'(', token) {
                return Ok(counted(tags, tokens));
            }
            if !is_last(b')', more) {
                return Ok(None);
            }
            inner(alloc, tags, room, &more[..more.len() - 1])
        }
    }
}
