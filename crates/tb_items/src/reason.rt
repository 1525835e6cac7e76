//! Why a testbench is refused where a declaration of its module is, or a value is no constant.
ghost use Rattle.std.specs.Prelude.{◌≡◌};
ghost use Rattle.tb_items.specs.Reasons.{wrong, of_const, of_range, of_refusal};

use flat_scopes::{RangeError, Refusal};
use mcy_base::Span;
use tb_faults::BenchFault;
use vlog_meaning::{Cause, ConstError, Fault};

/// A cause at its place.
fn wrong(cause: Cause, span: Span) -> BenchFault
    ensures { result ≡ wrong cause span }
{
    BenchFault::Wrong(Fault { cause, span })
}

/// Why a value is no constant.
pub fn of_const(error: ConstError) -> BenchFault
    ensures { result ≡ of_const error }
{
    match error {
        ConstError::Unknown(span) => wrong(Cause::Unknown, span),
        ConstError::NotConstant(span) => wrong(Cause::NotConstant, span),
        ConstError::DivideByZero(span) => wrong(Cause::DivideByZero, span),
        ConstError::TooWide(span) => wrong(Cause::TooWide, span),
        ConstError::SystemFunction(span) => wrong(Cause::SystemFunction, span),
        ConstError::Drawn(span) => wrong(Cause::Drawn, span),
    }
}

/// Why a range is refused.
fn of_range(error: RangeError) -> BenchFault
    ensures { result ≡ of_range error }
{
    match error {
        RangeError::Bound(error) => of_const(error),
        RangeError::TooWide(span) => wrong(Cause::TooWide, span),
        RangeError::RangeForm(span) => wrong(Cause::RangeForm, span),
    }
}

/// Why a declaration is refused.
pub(crate) fn of_refusal(refusal: Refusal) -> BenchFault
    ensures { result ≡ of_refusal refusal }
{
    match refusal {
        Refusal::Twice(span) => BenchFault::Twice(span),
        Refusal::Unknown(span) => wrong(Cause::Unknown, span),
        Refusal::Value(error) => of_const(error),
        Refusal::Range(error) => of_range(error),
    }
}
