//! What is wrong in an expression.
ghost use Rattle.std.specs.Prelude.{◌≡◌, ◌++◌, List};
ghost use Rattle.mcy_base.specs.declared.span.Span.{Span as Place};
ghost use Rattle.vlog_meaning.specs.declared.fault.Cause.{Cause as Reason};
ghost use Rattle.vlog_meaning.specs.declared.fault.Fault.{Fault as Wrong};
ghost use Rattle.vlog_meaning.specs.Answers.{rank, precedes, earlier, least, least_at, const_error};

use mcy_base::Span;

/// Why an expression is refused.
#[derive(Clone, Copy, Debug, PartialEq, Eq)]
pub enum Cause {
    /// A name that is not declared.
    Unknown,
    /// A signal where a constant must stand.
    NotConstant,
    /// A division or remainder by 0 of constants, or 0 to a negative power.
    DivideByZero,
    /// A part that has not from 1 to 128 bits.
    TooWide,
    /// A part select whose left bound is below its right one.
    RangeForm,
    /// A system function that has no meaning here.
    SystemFunction,
    /// A division, remainder or power that is not constant.
    DivideOrPower,
    /// A select that is not constant of a vector whose lowest bit is not 0.
    IndexedBase,
    /// A call that has another value each time, where a constant must stand: a testbench has such calls, and a design has none.
    Drawn,
}

/// A cause and its place.
#[derive(Clone, Copy, Debug, PartialEq, Eq)]
pub struct Fault {
    pub cause: Cause,
    pub span: Span,
}

/// Why an expression has no shape, or no constant value, with the place.
#[derive(Clone, Copy, Debug, PartialEq, Eq)]
pub enum ConstError {
    Unknown(Span),
    NotConstant(Span),
    DivideByZero(Span),
    TooWide(Span),
    /// A system function that has no meaning here.
    SystemFunction(Span),
    /// A call that has another value each time.
    Drawn(Span),
}

impl Cause {
    /// The place in the order in which causes are tested at one place.
    fn rank(self) -> u8
        ensures { result ≡ rank self }
    {
        match self {
            Cause::Unknown => 0,
            Cause::NotConstant => 1,
            Cause::DivideByZero => 2,
            Cause::TooWide => 3,
            Cause::RangeForm => 4,
            Cause::SystemFunction => 5,
            Cause::DivideOrPower => 6,
            Cause::IndexedBase => 7,
            Cause::Drawn => 8,
        }
    }
}

impl Fault {
    /// Whether it comes before another, by file, line, column and cause.
    fn precedes(self, other: Fault) -> bool
        ensures { result ≡ precedes self other }
    {
        if self.span.file != other.span.file {
            self.span.file < other.span.file
        } else if self.span.line != other.span.line {
            self.span.line < other.span.line
        } else if self.span.col != other.span.col {
            self.span.col < other.span.col
        } else {
            self.cause.rank() < other.cause.rank()
        }
    }

    /// The same as `shape` and `constant` name it.
    pub fn const_error(self) -> ConstError
        ensures { result ≡ const_error self }
    {
        match self.cause {
            Cause::Unknown => ConstError::Unknown(self.span),
            Cause::SystemFunction => ConstError::SystemFunction(self.span),
            Cause::Drawn => ConstError::Drawn(self.span),
            Cause::DivideByZero => ConstError::DivideByZero(self.span),
            Cause::TooWide | Cause::RangeForm => ConstError::TooWide(self.span),
            Cause::NotConstant | Cause::DivideOrPower | Cause::IndexedBase => {
                ConstError::NotConstant(self.span)
            }
        }
    }
}

/// The earlier of two.
#[tactic(auto, unfolding(crate::specs::Answers::earlier))]
fn sooner(f: Option<Fault>, g: Option<Fault>) -> Option<Fault>
    ensures { result ≡ earlier f g }
{
    match (f, g) {
        (None, g) => g,
        (f, None) => f,
        (Some(f), Some(g)) => Some(if g.precedes(f) { g } else { f }),
    }
}

/// The earlier of two: where they are the first of two lists, the first of both.
pub fn earlier(f: Option<Fault>, g: Option<Fault>) -> Option<Fault>
    ensures earlier { result ≡ earlier f g }
    ensures joined { (xs ys : List Wrong) → f ≡ least xs → g ≡ least ys → result ≡ least (xs ++ ys) }
    ensures places { (cause : Reason) (xs ys : List Place) → f ≡ least_at cause xs → g ≡ least_at cause ys → result ≡ least_at cause (xs ++ ys) }
{
    sooner(f, g)
}
