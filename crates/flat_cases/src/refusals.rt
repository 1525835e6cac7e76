//! What is printed of refusals: the kind, and the place.
use case_lines::Page;
use flat_scopes::{RangeError, Refusal};
use vlog_meaning::ConstError;

/// Why an expression has no constant value.
pub(crate) fn put_const_error(page: &mut Page, error: ConstError) {
    match error {
        ConstError::Unknown(place) => page.put_at("Unknown", place),
        ConstError::NotConstant(place) => page.put_at("NotConstant", place),
        ConstError::DivideByZero(place) => page.put_at("DivideByZero", place),
        ConstError::TooWide(place) => page.put_at("TooWide", place),
        ConstError::SystemFunction(place) => page.put_at("SystemFunction", place),
        ConstError::Drawn(place) => page.put_at("SystemFunction", place),
    }
}

/// Why a declaration is refused.
pub(crate) fn put_refusal(page: &mut Page, refusal: Refusal) {
    match refusal {
        Refusal::Twice(place) => page.put_at("Twice", place),
        Refusal::Unknown(place) => page.put_at("Unknown", place),
        Refusal::Value(error) => put_const_error(page, error),
        Refusal::Range(RangeError::Bound(error)) => put_const_error(page, error),
        Refusal::Range(RangeError::TooWide(place)) => page.put_at("TooWide", place),
        Refusal::Range(RangeError::RangeForm(place)) => page.put_at("RangeForm", place),
    }
}
