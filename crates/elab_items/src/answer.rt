//! Why a design is not elaborated, and which answer each refusal is.
ghost use Rattle.std.specs.Prelude.{◌≡◌, IfOk};
ghost use Rattle.elab_items.specs.Answers.{const_answer, fault_answer, range_answer, declaration_answer, parameter_answer, item_answer, name_of, refusal_answer, reason_answer};
ghost use Rattle.elab_items.specs.declared.answer.ElabError.TheVariants.{Memory};

use crate::error::Reason;
use elab_proc::Refusal;
use flat_instances::{ItemError, ParameterError};
use flat_scopes::{RangeError, Signal};
use mcy_base::{Kind, Span, Text};
use std::alloc::{AllocError, Global};
use vlog_meaning::{Cause, ConstError, Fault};
use vlog_syntax::Feature;

/// Why a design is not elaborated, with the place.
#[derive(Drop)]
pub enum ElabError {
    /// No module has the top's name.
    NoTop,
    /// A module, or a name of a scope, is declared again.
    Twice(Span),
    /// A name or a module is not declared.
    Unknown(Span),
    /// A module contains itself.
    Recursive(Span),
    /// A connection of an instance, or a value of a parameter, has no port or parameter, or no left side.
    PortMismatch(Span),
    /// A signal is read where a constant is asked for.
    NotConstant(Span),
    /// A constant is divided by 0.
    DivideByZero(Span),
    /// A part has no bits, or more than 128.
    TooWide(Span),
    /// The form is not supported.
    Unsupported(Span, Feature),
    /// A bit of the signal of this name has a second writer.
    TwoWriters(Span, Text),
    /// The signal of this name would be a latch.
    Latch(Span, Text),
    /// There would be more than the limit.
    TooMany(Kind),
    /// Nets or cells loop.
    Loop(Span),
    /// There is no memory for it.
    Memory,
}

impl From<AllocError> for ElabError {
    ghost from_gives = { λ _ e. e ≡ Memory };

    fn from(_error: AllocError) -> Self {
        ElabError::Memory
    }
}

/// Why an expression is no constant.
fn const_answer(error: ConstError) -> ElabError
    ensures { result ≡ const_answer error }
{
    match error {
        ConstError::Unknown(span) => ElabError::Unknown(span),
        ConstError::NotConstant(span) => ElabError::NotConstant(span),
        ConstError::DivideByZero(span) => ElabError::DivideByZero(span),
        ConstError::TooWide(span) => ElabError::TooWide(span),
        ConstError::SystemFunction(span) => ElabError::Unsupported(span, Feature::SystemFunction),
        ConstError::Drawn(span) => ElabError::Unsupported(span, Feature::SystemFunction),
    }
}

/// What is wrong in an expression, or not supported in it.
fn fault_answer(fault: Fault) -> ElabError
    ensures { result ≡ fault_answer fault.span fault.cause }
{
    let span = fault.span;
    match fault.cause {
        Cause::Unknown => ElabError::Unknown(span),
        Cause::NotConstant => ElabError::NotConstant(span),
        Cause::DivideByZero => ElabError::DivideByZero(span),
        Cause::TooWide => ElabError::TooWide(span),
        Cause::RangeForm => ElabError::Unsupported(span, Feature::RangeForm),
        Cause::SystemFunction | Cause::Drawn => {
            ElabError::Unsupported(span, Feature::SystemFunction)
        }
        Cause::DivideOrPower => ElabError::Unsupported(span, Feature::DivideOrPower),
        Cause::IndexedBase => ElabError::Unsupported(span, Feature::IndexedBase),
    }
}

/// Why a range is refused.
fn range_answer(error: RangeError) -> ElabError
    ensures { result ≡ range_answer error }
{
    match error {
        RangeError::Bound(error) => const_answer(error),
        RangeError::TooWide(span) => ElabError::TooWide(span),
        RangeError::RangeForm(span) => ElabError::Unsupported(span, Feature::RangeForm),
    }
}

/// Why a declaration is refused.
fn declaration_answer(refusal: flat_scopes::Refusal) -> ElabError
    ensures { result ≡ declaration_answer refusal }
{
    match refusal {
        flat_scopes::Refusal::Twice(span) => ElabError::Twice(span),
        flat_scopes::Refusal::Unknown(span) => ElabError::Unknown(span),
        flat_scopes::Refusal::Value(error) => const_answer(error),
        flat_scopes::Refusal::Range(error) => range_answer(error),
    }
}

/// Why a value of a parameter is refused. Too many values are as too many connections.
fn parameter_answer(error: ParameterError) -> ElabError
    ensures { result ≡ parameter_answer error }
{
    match error {
        ParameterError::Unknown(span) => ElabError::Unknown(span),
        ParameterError::Twice(span) => ElabError::Twice(span),
        ParameterError::TooMany(span) => ElabError::PortMismatch(span),
        ParameterError::Value(error) => const_answer(error),
    }
}

/// Why a listed item is refused.
pub fn item_answer(error: ItemError) -> ElabError
    ensures { result ≡ item_answer error }
{
    match error {
        ItemError::Declaration(refusal) => declaration_answer(refusal),
        ItemError::Parameter(error) => parameter_answer(error),
        ItemError::Unknown(span) => ElabError::Unknown(span),
        ItemError::Twice(span) => ElabError::Twice(span),
        ItemError::Recursive(span) => ElabError::Recursive(span),
        ItemError::PortMismatch(span) => ElabError::PortMismatch(span),
        ItemError::NotConstant(span) => ElabError::NotConstant(span),
        ItemError::Constant(error) => const_answer(error),
        ItemError::Delay(span) => ElabError::Unsupported(span, Feature::Delay),
        ItemError::LoopTurns => ElabError::TooMany(Kind::LoopTurns),
        ItemError::Scopes => ElabError::TooMany(Kind::Scopes),
    }
}

/// The name of a signal after flattening.
fn name_of(alloc: Global, signals: &[Signal], number: u32) -> Result<Text, AllocError>
    ensures { IfOk result (λ name. name ≡ name_of signals.now number) }
{
    match signals.get(number as usize) {
        Some(signal) => Text::copy(alloc, signal.name.as_str()),
        None => Text::copy(alloc, ""),
    }
}

/// What is refused in an assignment, a connection or a process.
fn refusal_answer(
    alloc: Global,
    signals: &[Signal],
    refusal: Refusal,
) -> Result<ElabError, AllocError>
    ensures { IfOk result (λ e. e ≡ refusal_answer signals.now refusal) }
{
    match refusal {
        Refusal::Wrong(fault) => Ok(fault_answer(fault)),
        Refusal::Unsupported(span, feature) => Ok(ElabError::Unsupported(span, feature)),
        Refusal::TwoWriters(span, number) => {
            Ok(ElabError::TwoWriters(span, name_of(alloc, signals, number)?))
        }
        Refusal::Latch(span, number) => {
            Ok(ElabError::Latch(span, name_of(alloc, signals, number)?))
        }
        Refusal::LoopTurns(_) => Ok(ElabError::TooMany(Kind::LoopTurns)),
    }
}

/// Why an item is refused.
pub fn reason_answer(
    alloc: Global,
    signals: &[Signal],
    reason: Reason,
) -> Result<ElabError, AllocError>
    ensures { IfOk result (λ e. e ≡ reason_answer signals.now reason) }
{
    match reason {
        Reason::Listed(error) => Ok(item_answer(error)),
        Reason::Found(refusal) => refusal_answer(alloc, signals, refusal),
        Reason::Start(error) => Ok(const_answer(error)),
    }
}
