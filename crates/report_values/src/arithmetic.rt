//! Sums, differences, products and quotients of fractions.
ghost use Rattle.std.specs.Prelude.{◌≡◌, ◌≤◌, ◌*◌, ◌^◌, IfOk};
ghost use Rattle.report_values.specs.Fractions.{IsSmall, differ, difference, negated, product, quotient, sum};

use crate::fraction::{Fault, Fraction, lowest};

/// The product of two numbers in range.
pub(crate) fn times(a: u64, b: u64) -> u128
    requires left { a ≤ 10 ^ 12 }
    requires right { b ≤ 10 ^ 12 }
    ensures value { result ≡ a * b }
    ensures small { result ≤ 10 ^ 24 }
    ensures positive { 1 ≤ a → 1 ≤ b → 1 ≤ result }
{
    u128::from(a) * u128::from(b)
}

/// Whether two signs are different.
pub(crate) fn differ(a: bool, b: bool) -> bool
    ensures { result ≡ differ a b }
{
    match a {
        true => !b,
        false => b,
    }
}

/// The sum of two fractions.
#[tactic(auto, unfolding(crate::specs::Fractions::sum))]
pub fn sum(a: Fraction, b: Fraction) -> Result<Fraction, Fault>
    requires left { IsSmall a }
    requires right { IsSmall b }
    ensures exact { result ≡ sum a b }
    ensures small { IfOk result IsSmall }
{
    let left = times(a.numerator, b.denominator);
    let right = times(b.numerator, a.denominator);
    let denominator = times(a.denominator, b.denominator);
    if !differ(a.negative, b.negative) {
        lowest(a.negative, left + right, denominator)
    } else if right <= left {
        lowest(a.negative, left - right, denominator)
    } else {
        lowest(b.negative, right - left, denominator)
    }
}

/// The fraction with the other sign.
fn negated(a: Fraction) -> Fraction
    requires { IsSmall a }
    ensures value { result ≡ negated a }
    ensures small { IsSmall result }
{
    Fraction {
        negative: !a.negative && a.numerator != 0,
        numerator: a.numerator,
        denominator: a.denominator,
    }
}

/// The difference of two fractions.
#[tactic(auto, unfolding(crate::specs::Fractions::difference))]
pub fn difference(a: Fraction, b: Fraction) -> Result<Fraction, Fault>
    requires left { IsSmall a }
    requires right { IsSmall b }
    ensures exact { result ≡ difference a b }
    ensures small { IfOk result IsSmall }
{
    sum(a, negated(b))
}

/// The product of two fractions.
#[tactic(auto, unfolding(crate::specs::Fractions::product))]
pub fn product(a: Fraction, b: Fraction) -> Result<Fraction, Fault>
    requires left { IsSmall a }
    requires right { IsSmall b }
    ensures exact { result ≡ product a b }
    ensures small { IfOk result IsSmall }
{
    lowest(
        differ(a.negative, b.negative),
        times(a.numerator, b.numerator),
        times(a.denominator, b.denominator),
    )
}

/// The quotient of two fractions.
#[tactic(auto, unfolding(crate::specs::Fractions::quotient))]
pub fn quotient(a: Fraction, b: Fraction) -> Result<Fraction, Fault>
    requires left { IsSmall a }
    requires right { IsSmall b }
    ensures exact { result ≡ quotient a b }
    ensures small { IfOk result IsSmall }
{
    if b.numerator == 0 {
        return Err(Fault::DivisionByZero);
    }
    lowest(
        differ(a.negative, b.negative),
        times(a.numerator, b.denominator),
        times(a.denominator, b.numerator),
    )
}
