//! The order of fractions, and truths as fractions.
ghost use Rattle.std.specs.Prelude.{◌≡◌};
ghost use Rattle.report_values.specs.Fractions.{IsSmall, is_equal, is_less, is_true, truth};

use crate::arithmetic::{differ, times};
use crate::fraction::Fraction;

/// Whether the first fraction is less than the second.
#[tactic(auto, unfolding(crate::specs::Fractions::is_less))]
pub fn is_less(a: Fraction, b: Fraction) -> bool
    requires left { IsSmall a }
    requires right { IsSmall b }
    ensures { result ≡ is_less a b }
{
    let left = times(a.numerator, b.denominator);
    let right = times(b.numerator, a.denominator);
    match (a.negative, b.negative) {
        (false, false) => left < right,
        (true, true) => right < left,
        (true, false) => true,
        (false, true) => false,
    }
}

/// Whether two fractions are equal. In lowest terms they are so where their parts are.
pub fn is_equal(a: Fraction, b: Fraction) -> bool
    ensures { result ≡ is_equal a b }
{
    !differ(a.negative, b.negative) && a.numerator == b.numerator && a.denominator == b.denominator
}

/// Whether a fraction is not 0.
pub fn is_true(a: Fraction) -> bool
    ensures { result ≡ is_true a }
{
    a.numerator != 0
}

/// The value of a truth.
pub fn truth(is_so: bool) -> Fraction
    ensures value { result ≡ truth is_so }
    ensures small { IsSmall result }
{
    Fraction {
        negative: false,
        numerator: if is_so { 1 } else { 0 },
        denominator: 1,
    }
}
