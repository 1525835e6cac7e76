//! Why a testbench is refused, where that has a place, and which of several reasons is told: the first by place.
ghost use Rattle.std.specs.Prelude.{◌≡◌, ◌++◌, List, map};
ghost use Rattle.std.specs.Option.{option_map};
ghost use Rattle.vlog_meaning.specs.Answers.{least};
ghost use Rattle.vlog_meaning.specs.declared.fault.Fault.{Fault as Flaw};
ghost use Rattle.tb_faults.specs.declared.fault.BenchFault.{BenchFault as Reason};
ghost use Rattle.tb_faults.specs.declared.fault.BenchFault.TheVariants as b;
ghost use Rattle.tb_faults.specs.Order.{place, earlier, IsFirst};

use mcy_base::Span;
use vlog_meaning::Fault;
use vlog_refusals::{Placed, Precedence, cause_rank, feature_rank};
use vlog_syntax::Feature;

/// Why a testbench is refused, with the place.
#[derive(Clone, Copy, Debug, PartialEq, Eq)]
pub enum BenchFault {
    /// What is wrong in an expression or a left side, or not supported there.
    Wrong(Fault),
    /// A name that is declared already.
    Twice(Span),
    /// A construct that is not supported.
    Unsupported(Span, Feature),
    /// A connection of the design that its ports do not take.
    PortMismatch(Span),
    /// A second clock generator.
    TwoClocks(Span),
}

/// By its place, its kind, and its cause or feature.
impl Placed for BenchFault {
    ghost place = { λ f. place f };

    fn precedence(self) -> Precedence {
        let (span, kind, detail) = match self {
            BenchFault::Wrong(fault) => (fault.span, 0, cause_rank(fault.cause)),
            BenchFault::Twice(span) => (span, 1, 0),
            BenchFault::Unsupported(span, feature) => (span, 2, feature_rank(feature)),
            BenchFault::PortMismatch(span) => (span, 3, 0),
            BenchFault::TwoClocks(span) => (span, 4, 0),
        };
        Precedence { span, kind, detail }
    }
}

/// The first of two: where they stand first in two lists, the one that stands first in both.
pub fn earlier(f: Option<BenchFault>, g: Option<BenchFault>) -> Option<BenchFault>
    ensures earlier { result ≡ earlier f g }
    ensures joined { (xs ys : List Reason) → IsFirst xs f → IsFirst ys g → IsFirst (xs ++ ys) result }
{
    vlog_refusals::earlier(f, g)
}

/// What is wrong in an expression, as a reason.
fn reason(fault: Option<Fault>) -> Option<BenchFault>
    ensures { result ≡ option_map b.Wrong fault }
{
    match fault {
        Some(fault) => Some(BenchFault::Wrong(fault)),
        None => None,
    }
}

/// What is wrong in an expression, as a reason: the first of a list is the first of the reasons.
pub fn wrong(fault: Option<Fault>) -> Option<BenchFault>
    ensures wrong { result ≡ option_map b.Wrong fault }
    ensures first { (faults : List Flaw) → fault ≡ least faults → IsFirst (map b.Wrong faults) result }
{
    reason(fault)
}
