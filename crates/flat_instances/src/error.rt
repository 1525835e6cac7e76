//! Why an item of a design is refused.
ghost use Rattle.std.specs.Prelude.{◌≡◌, Some};
ghost use Rattle.flat_instances.specs.Gifts.{const_place, place_of, sooner};

use flat_scopes::Refusal;
use mcy_base::Span;
use vlog_meaning::ConstError;

/// Why the value that an instance gives a parameter is refused, with the place.
#[derive(Clone, Copy, Debug, PartialEq, Eq)]
pub enum ParameterError {
    /// The module has no parameter of this name.
    Unknown(Span),
    /// The parameter was named before.
    Twice(Span),
    /// There are more values than parameters.
    TooMany(Span),
    /// The value is no constant.
    Value(ConstError),
}

/// Why an item is refused, with the place.
#[derive(Clone, Copy, Debug, PartialEq, Eq)]
pub enum ItemError {
    /// A declaration of a scope.
    Declaration(Refusal),
    /// The value of a parameter of an instance.
    Parameter(ParameterError),
    /// There is no module or genvar of this name.
    Unknown(Span),
    /// A module of this name stands before.
    Twice(Span),
    /// The module contains itself.
    Recursive(Span),
    /// The module has no such port, or it was named before, or an output is connected to what is no left side.
    PortMismatch(Span),
    /// A signal stands where a genvar must.
    NotConstant(Span),
    /// The condition of a generate construct, or the start or step of a loop, is no constant.
    Constant(ConstError),
    /// An assignment with a delay.
    Delay(Span),
    /// A loop has more turns than it may.
    LoopTurns,
    /// The design has more scopes than it may.
    Scopes,
}

/// The place of an expression's fault.
fn const_place(error: ConstError) -> Span
    ensures { result ≡ const_place error }
{
    match error {
        ConstError::Unknown(span) => span,
        ConstError::NotConstant(span) => span,
        ConstError::DivideByZero(span) => span,
        ConstError::TooWide(span) => span,
        ConstError::SystemFunction(span) => span,
        ConstError::Drawn(span) => span,
    }
}

impl ParameterError {
    /// Its place.
    pub fn span(self) -> Span
        ensures { result ≡ place_of self }
    {
        match self {
            ParameterError::Unknown(span) => span,
            ParameterError::Twice(span) => span,
            ParameterError::TooMany(span) => span,
            ParameterError::Value(error) => const_place(error),
        }
    }
}

/// The first by place of one, if there is one, and another.
pub(crate) fn sooner(first: Option<ParameterError>, other: ParameterError) -> ParameterError
    ensures { result ≡ sooner first other }
{
    match first {
        Some(first) => {
            if other.span().stands_before(first.span()) {
                other
            } else {
                first
            }
        }
        None => other,
    }
}
