//! Which of several refusals is answered: the first by place, then by kind, then by what is told of it.
ghost use Rattle.std.specs.Prelude.{◌≡◌, ◌++◌, List};
ghost use Rattle.vlog_refusals.specs.declared.precedence.Precedence.{Precedence as Order};
ghost use Rattle.vlog_refusals.specs.Order.{precedes, earlier, IsFirst};

use mcy_base::Span;

/// Where a refusal stands among others.
#[derive(Clone, Copy, Debug, PartialEq, Eq)]
pub struct Precedence {
    /// The place in the source.
    pub span: Span,
    /// The place in the order of kinds at one place.
    pub kind: u8,
    /// The place in the order of those of one kind at one place.
    pub detail: u32,
}

impl Precedence {
    /// Whether it comes before another: by file, line, column, kind and what is told of it.
    fn precedes(self, other: Precedence) -> bool
        ensures { result ≡ precedes self other }
    {
        let this = self.span;
        let that = other.span;
        if this.file != that.file {
            this.file < that.file
        } else if this.line != that.line {
            this.line < that.line
        } else if this.col != that.col {
            this.col < that.col
        } else if self.kind != other.kind {
            self.kind < other.kind
        } else {
            self.detail < other.detail
        }
    }
}

/// What is refused for a reason that has its place among others.
pub trait Placed: Copy {
    // where it stands among others
    ghost place: { Self → Order };

    /// Where it stands among others.
    fn precedence(self) -> Precedence
        ensures { result ≡ place self };
}

/// The earlier of two.
#[tactic(auto, unfolding(crate::specs::Order::earlier))]
fn sooner<R: Placed>(f: Option<R>, g: Option<R>) -> Option<R>
    ensures { result ≡ earlier R.place f g }
{
    match (f, g) {
        (None, g) => g,
        (f, None) => f,
        (Some(f), Some(g)) => {
            if g.precedence().precedes(f.precedence()) {
                Some(g)
            } else {
                Some(f)
            }
        }
    }
}

/// The earlier of two: where they stand first in two lists, the one that stands first in both.
pub fn earlier<R: Placed>(f: Option<R>, g: Option<R>) -> Option<R>
    ensures earlier { result ≡ earlier R.place f g }
    ensures joined { (xs ys : List R) → IsFirst R.place xs f → IsFirst R.place ys g → IsFirst R.place (xs ++ ys) result }
{
    sooner(f, g)
}
