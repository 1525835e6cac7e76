//! Why an assignment is not built, and which of several reasons is answered.
ghost use Rattle.std.specs.Prelude.{◌≡◌, Option, ℕ};
ghost use Rattle.flat_assigns.specs.declared.refusal.AssignError.TheVariants.{Memory};
ghost use Rattle.net_builder.specs.Refusals.{IsShort};
ghost use Rattle.flat_assigns.specs.Assignments.{first_refusal};
ghost use Rattle.flat_assigns.specs.Built.{IsLimit};
ghost use Rattle.flat_assigns.specs.Parts.{IsWriter};
ghost use Rattle.flat_assigns.specs.Writers.{Target};

use mcy_base::{Kind, Span};
use net_builder::ElabError;
use std::alloc::AllocError;
use vlog_meaning::Fault;

/// What is refused in an assignment.
#[derive(Clone, Copy, Debug, PartialEq, Eq)]
pub enum Refusal {
    /// What is wrong in one of its sides, or not supported there.
    Wrong(Fault),
    /// A bit of the signal of this number has a writer already; the place is that of its name.
    TwoWriters(Span, u32),
}

/// Why an assignment is not built.
#[derive(Clone, Copy, Debug, PartialEq, Eq)]
pub enum AssignError {
    /// It is refused; this is the first reason by place.
    Refused(Refusal),
    /// There would be more than the limit.
    TooMany(Kind),
    /// There is no memory for it.
    Memory,
}

impl From<AllocError> for AssignError {
    ghost from_gives = { λ _ e. e ≡ Memory };

    fn from(_error: AllocError) -> Self {
        AssignError::Memory
    }
}

impl AssignError {
    /// Why cells are not added.
    pub(crate) fn of(error: ElabError) -> AssignError
        ensures { (cells : ℕ) → IsShort cells error → IsLimit cells result }
    {
        match error {
            ElabError::TooMany(kind) => AssignError::TooMany(kind),
            ElabError::Memory
            | ElabError::Unknown(_)
            | ElabError::NotConstant(_)
            | ElabError::Drawn(_)
            | ElabError::DivideByZero(_)
            | ElabError::TooWide(_)
            | ElabError::Unsupported(..) => AssignError::Memory,
        }
    }
}

/// A signal that is written, by the place of its name and its number.
#[derive(Clone, Copy, Debug, PartialEq, Eq)]
pub(crate) struct Writer {
    pub(crate) span: Span,
    pub(crate) signal: u32,
}

/// The earlier one of what is wrong and of a second writer; what is wrong where both stand at one place.
pub(crate) fn first_refusal(wrong: Option<Fault>, second: Option<Writer>) -> Option<Refusal>
    ensures { (target : Option Target) → IsWriter target second → result ≡ first_refusal wrong target }
{
    match (wrong, second) {
        (None, None) => None,
        (Some(fault), None) => Some(Refusal::Wrong(fault)),
        (None, Some(writer)) => Some(Refusal::TwoWriters(writer.span, writer.signal)),
        (Some(fault), Some(writer)) => Some(if writer.span.stands_before(fault.span) {
            Refusal::TwoWriters(writer.span, writer.signal)
        } else {
            Refusal::Wrong(fault)
        }),
    }
}
