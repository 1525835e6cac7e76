//! Expressions of one token, and the counts of tags.
ghost use Rattle.std.specs.Prelude.{◌≡◌, ◌≤◌, ◌+◌, ◌^◌, ◌*◌, IfOk, length, min};
ghost use Rattle.project_lines.specs.Numbers.{value};
ghost use Rattle.report_lines.specs.Grammar.{capped, counted, decimal_number, number, place_unit, single};

use crate::expr::Expr;
use mcy_base::Text;
use script_lines::Token;
use tag_lines::{argument_of, place_in_texts};

/// The least number that no report has.
const CAP: u64 = 1_000_000_000_001;

/// The value of decimal digits, or the cap where it is the cap or more.
#[tactic(auto, unfolding(project_lines::specs::Numbers::value, crate::specs::Grammar::capped))]
fn capped(digits: &[u8]) -> u64
    ensures value { result ≡ capped digits.now }
    ensures small { result ≤ 10 ^ 12 + 1 }
{
    let mut value: u64 = 0;
    for digit in digits {
        value = (value * 10 + u64::from(digit.saturating_sub(48))).min(CAP);
    }
    value
}

/// What the last of so many places counts, in millionths.
fn place_unit(places: usize) -> Option<u64>
    ensures value { result ≡ place_unit places }
    ensures small { Rattle.std.specs.Prelude.IfSome result (λ unit. unit ≤ 10 ^ 6) }
{
    match places {
        1 => Some(100_000),
        2 => Some(10_000),
        3 => Some(1_000),
        4 => Some(100),
        5 => Some(10),
        6 => Some(1),
        _ => None,
    }
}

/// A whole number.
fn number(digits: &[u8]) -> Expr
    ensures { result ≡ number digits.now }
{
    Expr::Number(capped(digits) * 1_000_000)
}

/// A number with so many places.
#[tactic(auto, unfolding(crate::specs::Grammar::decimal_number))]
fn decimal_number(digits: &[u8], places: &[u8]) -> Option<Expr>
    ensures { result ≡ decimal_number digits.now places.now }
{
    match place_unit(places.len()) {
        Some(unit) => Some(Expr::Number(capped(digits) * 1_000_000 + capped(places) * unit)),
        None => None,
    }
}

/// An expression of one token.
#[tactic(auto, unfolding(crate::specs::Grammar::single))]
pub fn single(token: &Token) -> Option<Expr>
    ensures { result ≡ single token.now }
{
    match token {
        Token::Digits(digits) => Some(number(digits.as_slice())),
        Token::Decimal(digits, places) => decimal_number(digits.as_slice(), places.as_slice()),
        _ => None,
    }
}

/// The count of a tag.
pub fn counted(tags: &[Text], tokens: &[Token]) -> Option<Expr>
    ensures { result ≡ counted tags.now tokens.now }
{
    let tag = argument_of("tags", tokens)?;
    Some(Expr::Count(place_in_texts(tag.as_slice(), tags)))
}
