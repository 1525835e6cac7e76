//! The plan of a statement.
ghost use Rattle.std.specs.Prelude.{◌≡◌, MatchOption, Some, None};
ghost use Rattle.tb_plans.specs.Plans.{condition_in, choice_in, writing_in};

use crate::selection::Selection;
use crate::transfer::Writing;
use tb_formulas::Formula;
use tb_machine::Part;
use vlog_syntax::Boxed;

/// The plans of the parts of a `for`.
pub struct Loop {
    pub start: Option<Writing>,
    pub condition: Option<Formula>,
    pub step: Option<Writing>,
}

impl Drop for Loop {
    fn drop(self) {
        let Loop {
            start: _start,
            condition: _condition,
            step: _step,
        } = self;
    }
}

/// What a statement evaluates itself.
pub enum Plan {
    /// There is no plan.
    Nothing,
    /// The condition of an `if` or `while`.
    Condition(Formula),
    /// The item of a `case`.
    Choice(Selection),
    /// An assignment.
    Writing(Writing),
    /// A `for`.
    Loop(Boxed<Loop>),
}

impl Drop for Plan {
    fn drop(self) {
        match self {
            Plan::Nothing => {}
            Plan::Condition(_formula) => {}
            Plan::Choice(_selection) => {}
            Plan::Writing(_writing) => {}
            Plan::Loop(_parts) => {}
        }
    }
}

impl Plan {
    /// How the condition is evaluated.
    pub fn condition(&self) -> Option<&Formula>
        ensures { MatchOption result (condition_in self.now ≡ None) (λ f. condition_in self.now ≡ Some f.now) }
    {
        match self {
            Plan::Condition(formula) => Some(formula),
            Plan::Loop(parts) => parts.get().condition.as_ref(),
            _ => None,
        }
    }

    /// How an item is chosen.
    pub fn choice(&self) -> Option<&Selection>
        ensures { MatchOption result (choice_in self.now ≡ None) (λ s. choice_in self.now ≡ Some s.now) }
    {
        match self {
            Plan::Choice(selection) => Some(selection),
            _ => None,
        }
    }

    /// How an assignment is carried out.
    pub fn writing(&self, part: Part) -> Option<&Writing>
        ensures { MatchOption result (writing_in self.now part ≡ None) (λ w. writing_in self.now part ≡ Some w.now) }
    {
        match (self, part) {
            (Plan::Writing(writing), Part::Itself) => Some(writing),
            (Plan::Loop(parts), Part::Start) => parts.get().start.as_ref(),
            (Plan::Loop(parts), Part::Step) => parts.get().step.as_ref(),
            _ => None,
        }
    }
}
