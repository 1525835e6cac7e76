//! Why a declaration of a scope is refused.
use crate::range::RangeError;
use mcy_base::Span;
use vlog_meaning::ConstError;

/// Why a declaration is refused, with the place.
#[derive(Clone, Copy, Debug, PartialEq, Eq)]
pub enum Refusal {
    /// The name is declared already.
    Twice(Span),
    /// A port that the head of the module does not name, or that no item declares.
    Unknown(Span),
    /// The value of a parameter is no constant.
    Value(ConstError),
    /// A range is malformed, or too wide.
    Range(RangeError),
}
