//! Why there are no cells.
ghost use Rattle.std.specs.Prelude.{◌≡◌};
ghost use Rattle.net_builder.specs.declared.error.ElabError.TheVariants.{Memory};
ghost use Rattle.net_builder.specs.Errors.{elab_error};

use mcy_base::{Kind, Span};
use std::alloc::AllocError;
use vlog_meaning::{Cause, Fault};
use vlog_syntax::Feature;

/// Why an expression makes no cells, with the place.
#[derive(Clone, Copy, Debug, PartialEq, Eq)]
pub enum ElabError {
    /// A name is not declared.
    Unknown(Span),
    /// A signal is read where a constant is asked for.
    NotConstant(Span),
    /// A value changes where a constant is asked for.
    Drawn(Span),
    /// A constant is divided by 0.
    DivideByZero(Span),
    /// A part has no bits, or more than 128.
    TooWide(Span),
    /// The form is not supported.
    Unsupported(Span, Feature),
    /// There would be more than the limit.
    TooMany(Kind),
    /// There is no memory for it.
    Memory,
}

impl From<AllocError> for ElabError {
    ghost from_gives = { λ _ e. e ≡ Memory };

    fn from(_error: AllocError) -> Self {
        ElabError::Memory
    }
}

impl ElabError {
    /// A fault of an expression, or what is not supported in it.
    pub fn of(fault: Fault) -> ElabError
        ensures { result ≡ elab_error fault }
    {
        let span = fault.span;
        match fault.cause {
            Cause::Unknown => ElabError::Unknown(span),
            Cause::NotConstant => ElabError::NotConstant(span),
            Cause::DivideByZero => ElabError::DivideByZero(span),
            Cause::TooWide => ElabError::TooWide(span),
            Cause::RangeForm => ElabError::Unsupported(span, Feature::RangeForm),
            Cause::SystemFunction => ElabError::Unsupported(span, Feature::SystemFunction),
            Cause::DivideOrPower => ElabError::Unsupported(span, Feature::DivideOrPower),
            Cause::IndexedBase => ElabError::Unsupported(span, Feature::IndexedBase),
            Cause::Drawn => ElabError::Drawn(span),
        }
    }
}
