//! Fractions in lowest terms.
ghost use Rattle.std.specs.Prelude.{◌≡◌, ◌≤◌, ◌^◌, ℕ, IfOk};
ghost use Rattle.std.specs.Int.{IsGcd};
ghost use Rattle.report_values.specs.Fractions.{IsLowest, IsSmall, common, lowest, whole};

/// The greatest numerator and denominator.
const LIMIT: u128 = 1_000_000_000_000;

/// A fraction in lowest terms. It has a sign and a size, and 0 is not negative.
#[derive(Clone, Copy, Debug, PartialEq, Eq)]
pub struct Fraction {
    pub negative: bool,
    /// At most 10^12.
    pub numerator: u64,
    /// From 1 to 10^12.
    pub denominator: u64,
}

/// Why there is no value.
#[derive(Clone, Copy, Debug, PartialEq, Eq)]
pub enum Fault {
    /// The numerator or denominator is above 10^12.
    OutOfRange,
    DivisionByZero,
}

/// The greatest common divisor of two numbers (Euclid).
fn gcd(a: u128, b: u128) -> u128
    ensures { IsGcd a b result }
{
    let mut x = a;
    let mut y = b;
    while y != 0 {
        let rest = x % y;
        x = y;
        y = rest;
    }
    x
}

/// The greatest number that divides both.
fn common(numerator: u128, denominator: u128) -> u128
    requires { 1 ≤ denominator }
    ensures value { result ≡ common numerator denominator }
    ensures greatest { IsGcd numerator denominator result }
    ensures positive { 1 ≤ result }
{
    gcd(numerator, denominator)
}

/// The fraction in lowest terms, where it is in range.
#[tactic(auto, unfolding(crate::specs::Fractions::lowest))]
pub fn lowest(negative: bool, numerator: u128, denominator: u128) -> Result<Fraction, Fault>
    requires { 1 ≤ denominator }
    ensures exact { result ≡ lowest negative numerator denominator }
    ensures small { IfOk result IsSmall }
    ensures value { IfOk result (IsLowest numerator denominator) }
{
    let divisor = common(numerator, denominator);
    let numerator = numerator / divisor;
    let denominator = denominator / divisor;
    if numerator > LIMIT || denominator > LIMIT {
        return Err(Fault::OutOfRange);
    }
    Ok(Fraction {
        negative: negative && numerator != 0,
        numerator: numerator as u64,
        denominator: denominator as u64,
    })
}

/// A whole number.
pub fn whole(number: u32) -> Fraction
    ensures value { result ≡ whole number }
    ensures small { IsSmall result }
{
    Fraction {
        negative: false,
        numerator: u64::from(number),
        denominator: 1,
    }
}
