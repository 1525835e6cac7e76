//! What is printed of a refused item: the kind, and the place.
use crate::refusals::{put_const_error, put_refusal};
use case_lines::Page;
use flat_instances::{ItemError, ParameterError};

fn put_parameter(page: &mut Page, error: ParameterError) {
    page.put("parameter ");
    match error {
        ParameterError::Unknown(place) => page.put_at("Unknown", place),
        ParameterError::Twice(place) => page.put_at("Twice", place),
        ParameterError::TooMany(place) => page.put_at("TooMany", place),
        ParameterError::Value(error) => put_const_error(page, error),
    }
}

/// Why an item is refused.
pub(crate) fn put_error(page: &mut Page, error: ItemError) {
    match error {
        ItemError::Declaration(refusal) => {
            page.put("declaration ");
            put_refusal(page, refusal);
        }
        ItemError::Parameter(error) => put_parameter(page, error),
        ItemError::Unknown(place) => page.put_at("Unknown", place),
        ItemError::Twice(place) => page.put_at("Twice", place),
        ItemError::Recursive(place) => page.put_at("Recursive", place),
        ItemError::PortMismatch(place) => page.put_at("PortMismatch", place),
        ItemError::NotConstant(place) => page.put_at("NotConstant", place),
        ItemError::Constant(error) => {
            page.put("constant ");
            put_const_error(page, error);
        }
        ItemError::Delay(place) => page.put_at("Delay", place),
        ItemError::LoopTurns => page.put("LoopTurns"),
        ItemError::Scopes => page.put("Scopes"),
    }
}
