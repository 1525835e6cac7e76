//! What an evaluation finds in a phase, and evaluations that go by the names of expressions.
ghost use Rattle.std.specs.Prelude.{◌≡◌, IfOk, Some, None, MatchOption, map};
ghost use Rattle.vlog_meaning.specs.Scopes.{names_of, store_of, FitsSignals};
ghost use Rattle.vlog_meaning.specs.Senses.{IsWhole};
ghost use Rattle.tb_machine.specs.Nodes.{choice_labels};
ghost use Rattle.tb_machine.specs.Steps.{assign};
ghost use Rattle.tb_machine.specs.Worlds.{scheduled};
ghost use Rattle.tb_assigns.specs.Updates.{CanAssign};
ghost use Rattle.tb_choices.specs.Choices.{LabelsWhole};
ghost use Rattle.tb_plans.specs.Plans.{plan_at, condition_in, choice_in, writing_in};
ghost use Rattle.tb_evaluator.specs.Meanings.{meaning, store_in, HasSignals};

use rand_pcg::Lcg64Xsh32;
use std::alloc::{AllocError, Global};
use tb_assigns::updates;
use tb_choices::choose;
use tb_formulas::Formula;
use tb_machine::{Choice, Part, Scene};
use tb_plans::{Plan, Selection, Writing};
use tb_values::{Moment, holds};
use vlog_meaning::Scope;
use vlog_syntax::{Assignment, CaseKind, Expr};

/// What a process finds in a phase besides a scene: the names that its expressions see, the plans of statements by their
/// numbers, and the number of the phase.
#[derive(Clone, Copy)]
pub struct PhaseEvaluator<'a> {
    pub alloc: Global,
    pub scope: &'a Scope,
    pub plans: &'a [Plan],
    pub phase: u64,
}

impl<'a> PhaseEvaluator<'a> {
    /// The moment of a scene.
    pub(crate) fn moment<'b>(&'b self, scene: &'b Scene) -> Moment<'b>
        requires { HasSignals (names_of self.now.scope.now) scene.now.widths }
        ensures scope { result.scope.now ≡ self.now.scope.now }
        ensures phase { result.phase ≡ self.now.phase }
        ensures stored { FitsSignals (names_of self.now.scope.now) result.store.now }
        ensures store { store_of result.store.now ≡ store_in scene.now }
    {
        Moment {
            alloc: self.alloc,
            scope: self.scope,
            store: scene.store(),
            phase: self.phase,
        }
    }

    /// How the condition of a statement is evaluated.
    pub(crate) fn condition(&self, number: u32) -> Option<&Formula>
        ensures { MatchOption result (condition_in (plan_at self.now.plans.now number) ≡ None) (λ f. condition_in (plan_at self.now.plans.now number) ≡ Some f.now) }
    {
        self.plans.get(number as usize)?.condition()
    }

    /// How the item of a statement is chosen.
    pub(crate) fn selection(&self, number: u32) -> Option<&Selection>
        ensures { MatchOption result (choice_in (plan_at self.now.plans.now number) ≡ None) (λ s. choice_in (plan_at self.now.plans.now number) ≡ Some s.now) }
    {
        self.plans.get(number as usize)?.choice()
    }

    /// How an assignment of a statement is carried out.
    pub(crate) fn writing(&self, number: u32, part: Part) -> Option<&Writing>
        ensures { MatchOption result (writing_in (plan_at self.now.plans.now number) part ≡ None) (λ w. writing_in (plan_at self.now.plans.now number) part ≡ Some w.now) }
    {
        self.plans.get(number as usize)?.writing(part)
    }

    /// Whether a condition holds.
    pub(crate) fn holds_unplanned(
        &self,
        condition: &Expr,
        scene: &mut Scene,
    ) -> Result<bool, AllocError>
        requires known { IsWhole (names_of self.now.scope.now) condition.now }
        requires world { HasSignals (names_of self.now.scope.now) scene.old.widths }
        ensures holds { IfOk result (λ b. (b, scene.new) ≡ (meaning (names_of self.now.scope.now) self.now.phase).holds condition.now scene.old) }
        ensures world { IfOk result (λ _. HasSignals (names_of self.now.scope.now) scene.new.widths) }
    {
        let mut words = scene.words()?;
        let holds = holds(condition, &self.moment(scene), &mut words)?;
        scene.set_words(words);
        Ok(holds)
    }

    /// The case item that is taken.
    pub(crate) fn choice_unplanned(
        &self,
        kind: CaseKind,
        selector: &Expr,
        items: &[Choice],
        scene: &mut Scene,
    ) -> Result<Option<usize>, AllocError>
        requires known { IsWhole (names_of self.now.scope.now) selector.now }
        requires labels { LabelsWhole (names_of self.now.scope.now) (map choice_labels items.now) }
        requires world { HasSignals (names_of self.now.scope.now) scene.old.widths }
        ensures choice { IfOk result (λ i. (i, scene.new) ≡ (meaning (names_of self.now.scope.now) self.now.phase).choice kind selector.now (map choice_labels items.now) scene.old) }
        ensures world { IfOk result (λ _. HasSignals (names_of self.now.scope.now) scene.new.widths) }
    {
        let mut words = scene.words()?;
        let taken = choose(kind, selector, items, &self.moment(scene), &mut words)?;
        scene.set_words(words);
        Ok(taken)
    }

    /// Carries out a blocking assignment.
    pub(crate) fn assign_unplanned(
        &self,
        assignment: &Assignment,
        scene: &mut Scene,
    ) -> Result<(), AllocError>
        requires known { CanAssign (names_of self.now.scope.now) assignment.now }
        requires world { HasSignals (names_of self.now.scope.now) scene.old.widths }
        ensures assigned { IfOk result (λ _. scene.new ≡ assign (meaning (names_of self.now.scope.now) self.now.phase) assignment.now scene.old) }
        ensures world { IfOk result (λ _. HasSignals (names_of self.now.scope.now) scene.new.widths) }
    {
        let mut words = scene.words()?;
        let updates = updates(assignment, &self.moment(scene), &mut words)?;
        scene.set_words(words);
        scene.assign_all(updates.as_slice());
        Ok(())
    }

    /// Schedules the updates of a nonblocking assignment.
    pub(crate) fn schedule_unplanned(
        &self,
        assignment: &Assignment,
        scene: &mut Scene,
    ) -> Result<(), AllocError>
        requires known { CanAssign (names_of self.now.scope.now) assignment.now }
        requires world { HasSignals (names_of self.now.scope.now) scene.old.widths }
        ensures scheduled { IfOk result (λ _. scene.new ≡ scheduled ((meaning (names_of self.now.scope.now) self.now.phase).updates assignment.now scene.old).1 ((meaning (names_of self.now.scope.now) self.now.phase).updates assignment.now scene.old).0) }
        ensures world { IfOk result (λ _. HasSignals (names_of self.now.scope.now) scene.new.widths) }
    {
        let mut words = scene.words()?;
        let updates = updates(assignment, &self.moment(scene), &mut words)?;
        scene.set_words(words);
        scene.schedule_all(updates.as_slice())
    }
}
