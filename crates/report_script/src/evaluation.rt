//! The values of expressions for counts of tags.
//!
//! Operators are done from left to right, and `and` and `or` evaluate nothing behind the operand that decides.
ghost use Rattle.std.specs.Prelude.{◌≡◌, IfOk, map};
ghost use Rattle.report_values.specs.Fractions.{IsSmall};
ghost use Rattle.report_script.specs.Values.{applied, chained, count_of, decides, done, pending, value_of};

use report_lines::{Expr, Operator, Term};
use report_values::{
    Fault, Fraction, difference, is_equal, is_less, is_true, lowest, product, quotient, sum, truth,
    whole,
};

/// Whether the left operand decides.
fn decides(operator: Operator, left: Fraction) -> bool
    ensures { result ≡ decides operator left }
{
    match operator {
        Operator::Or => is_true(left),
        Operator::And => !is_true(left),
        _ => false,
    }
}

/// What an operator makes of two values.
fn done(operator: Operator, left: Fraction, right: Fraction) -> Result<Fraction, Fault>
    requires left { IsSmall left }
    requires right { IsSmall right }
    ensures exact { result ≡ done operator left right }
    ensures small { IfOk result IsSmall }
{
    match operator {
        Operator::Or => Ok(right),
        Operator::And => Ok(right),
        Operator::Equal => Ok(truth(is_equal(left, right))),
        Operator::NotEqual => Ok(truth(!is_equal(left, right))),
        Operator::Less => Ok(truth(is_less(left, right))),
        Operator::LessEqual => Ok(truth(!is_less(right, left))),
        Operator::Greater => Ok(truth(is_less(right, left))),
        Operator::GreaterEqual => Ok(truth(!is_less(left, right))),
        Operator::Plus => sum(left, right),
        Operator::Minus => difference(left, right),
        Operator::Times => product(left, right),
        Operator::Over => quotient(left, right),
    }
}

/// The count of a tag.
fn count_of(counts: &[u32], tag: usize) -> u32
    ensures { result ≡ count_of counts.now tag }
{
    match counts.get(tag) {
        Some(count) => *count,
        None => 0,
    }
}

/// The value of an expression.
#[cycle(value_of)]
pub fn value_of(counts: &[u32], expr: &Expr) -> Result<Fraction, Fault>
    ensures exact { result ≡ value_of expr.now counts.now }
    ensures small { IfOk result IsSmall }
{
    match expr {
        Expr::Number(millionths) => lowest(false, u128::from(*millionths), 1_000_000),
        Expr::Count(tag) => Ok(whole(count_of(counts, *tag))),
        Expr::Not(operand) => match value_of(counts, operand.get()) {
            Ok(value) => Ok(truth(!is_true(value))),
            Err(fault) => Err(fault),
        },
        Expr::Chain(first, terms) => match value_of(counts, first.get()) {
            Ok(value) => chained(counts, value, terms.as_slice()),
            Err(fault) => Err(fault),
        },
    }
}

/// A value, and what the terms do with it.
#[cycle(value_of)]
fn chained(counts: &[u32], first: Fraction, terms: &[Term]) -> Result<Fraction, Fault>
    requires { IsSmall first }
    ensures exact { result ≡ chained (map pending terms.now) first counts.now }
    ensures small { IfOk result IsSmall }
{
    let mut value = first;
    for term in terms {
        match applied(counts, value, term) {
            Ok(next) => value = next,
            Err(fault) => return Err(fault),
        }
    }
    Ok(value)
}

/// What a term does with a value.
#[cycle(value_of)]
fn applied(counts: &[u32], left: Fraction, term: &Term) -> Result<Fraction, Fault>
    requires { IsSmall left }
    ensures exact { result ≡ applied (pending term.now) left counts.now }
    ensures small { IfOk result IsSmall }
{
    if decides(term.operator, left) {
        return Ok(left);
    }
    match value_of(counts, &term.operand) {
        Ok(right) => done(term.operator, left, right),
        Err(fault) => Err(fault),
    }
}
