//! What a reader of testbenches answers where it refuses one.
ghost use Rattle.std.specs.Prelude.{◌≡◌};
ghost use Rattle.tb_faults.specs.Faults.{of_cause, error_of};

use crate::fault::BenchFault;
use mcy_base::Span;
use vlog_meaning::{Cause, Fault};
use vlog_syntax::Feature;

/// Why a testbench is refused.
#[derive(Clone, Copy, Debug, PartialEq, Eq)]
pub enum BenchError {
    /// A name that is not declared.
    Unknown(Span),
    /// A name that is declared already.
    Twice(Span),
    /// A signal where a constant must stand.
    NotConstant(Span),
    /// A division or remainder by 0 of constants, or 0 to a negative power.
    DivideByZero(Span),
    /// A part that has not from 1 to 128 bits.
    TooWide(Span),
    /// A construct that is not supported.
    Unsupported(Span, Feature),
    /// No instance of the design.
    NoDesign,
    /// A connection of the design that its ports do not take.
    PortMismatch(Span),
    /// No clock generator.
    NoClock,
    /// A second clock generator.
    TwoClocks(Span),
    /// Want of memory.
    Memory,
}

/// What is wrong in an expression.
fn of_fault(fault: Fault) -> BenchError
    ensures { result ≡ of_cause fault.cause fault.span }
{
    let span = fault.span;
    match fault.cause {
        Cause::Unknown => BenchError::Unknown(span),
        Cause::NotConstant | Cause::Drawn => BenchError::NotConstant(span),
        Cause::DivideByZero => BenchError::DivideByZero(span),
        Cause::TooWide => BenchError::TooWide(span),
        Cause::RangeForm => BenchError::Unsupported(span, Feature::RangeForm),
        Cause::SystemFunction => BenchError::Unsupported(span, Feature::SystemFunction),
        Cause::DivideOrPower => BenchError::Unsupported(span, Feature::DivideOrPower),
        Cause::IndexedBase => BenchError::Unsupported(span, Feature::IndexedBase),
    }
}

impl BenchFault {
    /// The answer for a reason.
    pub fn error(self) -> BenchError
        ensures { result ≡ error_of self }
    {
        match self {
            BenchFault::Wrong(fault) => of_fault(fault),
            BenchFault::Twice(span) => BenchError::Twice(span),
            BenchFault::Unsupported(span, feature) => BenchError::Unsupported(span, feature),
            BenchFault::PortMismatch(span) => BenchError::PortMismatch(span),
            BenchFault::TwoClocks(span) => BenchError::TwoClocks(span),
        }
    }
}
