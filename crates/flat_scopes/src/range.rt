//! Ranges of declarations (IEEE 1364-2005, 4.3.1).
ghost use Rattle.std.specs.Prelude.{◌≡◌, ◌≤◌, pos, ◌-ℤ◌, int_lt, IsTrue, IfOk};
ghost use Rattle.vlog_meaning.specs.Integers.{bound_integer};
ghost use Rattle.vlog_meaning.specs.Scopes.{names_of};
ghost use Rattle.flat_scopes.specs.Ranges.{bits_between as between, bits_of_range};

use mcy_base::Span;
use vlog_meaning::{Bound, ConstError, Scope, constant_integer};
use vlog_syntax::Range;

/// The bits of a vector: how many there are, from 1 to 128, and the number of the lowest one.
#[derive(Clone, Copy, Debug, PartialEq, Eq)]
pub struct VectorBits {
    pub width: u8,
    pub low: u32,
}

/// Why a range is refused, with the place.
#[derive(Clone, Copy, Debug, PartialEq, Eq)]
pub enum RangeError {
    /// A bound is no constant.
    Bound(ConstError),
    /// There are more than 128 bits.
    TooWide(Span),
    /// The left bound is below the right one, or the right one is below 0 or above 2^31 - 1.
    RangeForm(Span),
}

/// The most that a left bound is above the right one.
const MOST_ABOVE: u128 = 127;
/// The greatest number of a lowest bit.
const MAX_LOW: u128 = 0x7fff_ffff;

/// Whether a bound is below 0.
fn is_below_0(bound: Bound) -> bool
    ensures { result ≡ int_lt (bound_integer bound) (pos 0) }
{
    bound.is_negative && bound.magnitude != 0
}

/// The bits between natural numbers.
fn natural_bits(span: Span, msb: u128, lsb: u128) -> Result<VectorBits, RangeError>
    ensures bits { result ≡ between span (pos msb) (pos lsb) }
    ensures width { IfOk result (λ bits. (1 ≤ bits.width) × (bits.width ≤ 128)) }
{
    if msb < lsb {
        return Err(RangeError::RangeForm(span));
    }
    if msb - lsb > MOST_ABOVE {
        return Err(RangeError::TooWide(span));
    }
    if lsb > MAX_LOW {
        return Err(RangeError::RangeForm(span));
    }
    Ok(VectorBits {
        width: (msb - lsb + 1) as u8,
        low: lsb as u32,
    })
}

/// Whether a bound is more than 127 above one that is below 0.
fn is_far_above(msb: Bound, lsb: Bound) -> bool
    requires { IsTrue lsb.is_negative }
    ensures { result ≡ int_lt (pos 127) (bound_integer msb -ℤ bound_integer lsb) }
{
    if is_below_0(msb) {
        lsb.magnitude > msb.magnitude && lsb.magnitude - msb.magnitude > MOST_ABOVE
    } else {
        msb.magnitude.saturating_add(lsb.magnitude) > MOST_ABOVE
    }
}

/// The bits from one bound to another.
fn bits_between(span: Span, msb: Bound, lsb: Bound) -> Result<VectorBits, RangeError>
    ensures bits { result ≡ between span (bound_integer msb) (bound_integer lsb) }
    ensures width { IfOk result (λ bits. (1 ≤ bits.width) × (bits.width ≤ 128)) }
{
    if is_below_0(lsb) {
        if is_far_above(msb, lsb) {
            return Err(RangeError::TooWide(span));
        }
        return Err(RangeError::RangeForm(span));
    }
    if is_below_0(msb) {
        return Err(RangeError::RangeForm(span));
    }
    natural_bits(span, msb.magnitude, lsb.magnitude)
}

/// The bits of a range, which is one bit where none is written.
pub fn range_bits(range: &Option<Range>, scope: &Scope) -> Result<VectorBits, RangeError>
    ensures bits { result ≡ bits_of_range (names_of scope.now) range.now }
    ensures width { IfOk result (λ bits. (1 ≤ bits.width) × (bits.width ≤ 128)) }
{
    let Some(range) = range else {
        return Ok(VectorBits { width: 1, low: 0 });
    };
    let msb = match constant_integer(range.msb.get(), scope) {
        Ok(msb) => msb,
        Err(error) => return Err(RangeError::Bound(error)),
    };
    match constant_integer(range.lsb.get(), scope) {
        Ok(lsb) => bits_between(range.span, msb, lsb),
        Err(error) => Err(RangeError::Bound(error)),
    }
}
