//! Why a process is refused, and which of several reasons is answered.
ghost use Rattle.std.specs.Prelude.{◌≡◌, ◌++◌, List, map};
ghost use Rattle.vlog_meaning.specs.declared.fault.Fault.{Fault as Flaw};
ghost use Rattle.vlog_meaning.specs.Answers.{least};
ghost use Rattle.elab_proc.specs.declared.refusal.Refusal.{Refusal as Reason};
ghost use Rattle.elab_proc.specs.declared.refusal.Refusal.TheVariants as r;
ghost use Rattle.elab_proc.specs.Order.{place, IsFirst};

use mcy_base::Span;
use vlog_meaning::Fault;
use vlog_refusals::{Placed, Precedence, cause_rank, feature_rank};
use vlog_syntax::Feature;

/// Why a process is refused.
#[derive(Clone, Copy, Debug, PartialEq, Eq)]
pub enum Refusal {
    /// What is wrong in an expression or a left side, or not supported there.
    Wrong(Fault),
    /// A construct that is not supported.
    Unsupported(Span, Feature),
    /// The signal of this number has another writer; the place is that of its name.
    TwoWriters(Span, u32),
    /// The signal of this number would be a latch; the place is that of the process.
    Latch(Span, u32),
    /// A loop has more than 4,096 turns; the place is that of its `for`.
    LoopTurns(Span),
}

/// By its place, its kind, and its cause, feature or signal.
impl Placed for Refusal {
    ghost place = { λ f. place f };

    fn precedence(self) -> Precedence {
        let (span, kind, detail) = match self {
            Refusal::Wrong(fault) => (fault.span, 0, cause_rank(fault.cause)),
            Refusal::Unsupported(span, feature) => (span, 1, feature_rank(feature)),
            Refusal::TwoWriters(span, number) => (span, 2, number),
            Refusal::Latch(span, number) => (span, 3, number),
            Refusal::LoopTurns(span) => (span, 4, 0),
        };
        Precedence { span, kind, detail }
    }
}

/// The earlier of two: where they stand first in two lists, the one that stands first in both.
pub fn earlier(f: Option<Refusal>, g: Option<Refusal>) -> Option<Refusal>
    ensures { (xs ys : List Reason) → IsFirst xs f → IsFirst ys g → IsFirst (xs ++ ys) result }
{
    vlog_refusals::earlier(f, g)
}

/// A fault as a refusal.
pub fn wrong(fault: Option<Fault>) -> Option<Refusal>
    ensures { (fs : List Flaw) → fault ≡ least fs → IsFirst (map r.Wrong fs) result }
{
    match fault {
        Some(fault) => Some(Refusal::Wrong(fault)),
        None => None,
    }
}
