//! The evaluator of a phase: a statement with a plan goes by that, and any other by its expressions.
ghost use Rattle.std.specs.Prelude.{◌≡◌, IfOk, map};
ghost use Rattle.vlog_syntax.specs.declared.stmt.Assignment.{Assignment as Assigned};
ghost use Rattle.vlog_meaning.specs.Scopes.{names_of};
ghost use Rattle.tb_machine.specs.Steps.{assign};
ghost use Rattle.tb_machine.specs.Worlds.{scheduled};
ghost use Rattle.tb_plans.specs.Plans.{plan_at};
ghost use Rattle.tb_plans.specs.Transfers.{IsWritingOf};
ghost use Rattle.tb_evaluator.specs.Meanings.{meaning, CanAnswer, HasSignals};

use crate::phase::PhaseEvaluator;
use crate::planned::{assign_some, choice_planned, holds_planned, schedule_some, update_planned};
use std::alloc::AllocError;
use tb_machine::{Choice, Evaluator, Part, Scene};
use tb_plans::Writing;
use tb_tasks::perform;
use tb_values::count;
use vlog_syntax::{Argument, Assignment, CaseKind, Expr, Identifier};

impl<'a> PhaseEvaluator<'a> {
    /// Carries out a blocking assignment by its plan.
    fn assign_planned(&self, writing: &Writing, scene: &mut Scene) -> Result<(), AllocError>
        requires plan { (a : Assigned) × IsWritingOf (names_of self.now.scope.now) a writing.now }
        requires world { HasSignals (names_of self.now.scope.now) scene.old.widths }
        ensures assigned { (a : Assigned) → IsWritingOf (names_of self.now.scope.now) a writing.now → IfOk result (λ _. scene.new ≡ assign (meaning (names_of self.now.scope.now) self.now.phase) a scene.old) }
        ensures world { IfOk result (λ _. HasSignals (names_of self.now.scope.now) scene.new.widths) }
    {
        let update = update_planned(writing, scene)?;
        assign_some(update, scene);
        Ok(())
    }

    /// Schedules the updates of a nonblocking assignment by its plan.
    fn schedule_planned(&self, writing: &Writing, scene: &mut Scene) -> Result<(), AllocError>
        requires plan { (a : Assigned) × IsWritingOf (names_of self.now.scope.now) a writing.now }
        requires world { HasSignals (names_of self.now.scope.now) scene.old.widths }
        ensures scheduled { (a : Assigned) → IsWritingOf (names_of self.now.scope.now) a writing.now → IfOk result (λ _. scene.new ≡ scheduled ((meaning (names_of self.now.scope.now) self.now.phase).updates a scene.old).1 ((meaning (names_of self.now.scope.now) self.now.phase).updates a scene.old).0) }
        ensures world { IfOk result (λ _. HasSignals (names_of self.now.scope.now) scene.new.widths) }
    {
        let update = update_planned(writing, scene)?;
        schedule_some(update, scene)
    }
}

impl<'a> Evaluator for PhaseEvaluator<'a> {
    ghost meaning = { λ e. meaning (names_of e.scope.now) e.phase };

    ghost answers = { λ e number request. CanAnswer (names_of e.scope.now) (plan_at e.plans.now number) request };

    ghost serves = { λ e w. HasSignals (names_of e.scope.now) w.widths };

    fn holds(&self, number: u32, condition: &Expr, scene: &mut Scene) -> Result<bool, AllocError> {
        match self.condition(number) {
            Some(formula) => Ok(holds_planned(formula, scene)),
            None => self.holds_unplanned(condition, scene),
        }
    }

    fn count(&self, _number: u32, expr: &Expr, scene: &mut Scene) -> Result<u128, AllocError> {
        let mut words = scene.words()?;
        let turns = count(expr, &self.moment(scene), &mut words)?;
        scene.set_words(words);
        Ok(turns)
    }

    fn choice(
        &self,
        number: u32,
        kind: CaseKind,
        selector: &Expr,
        items: &[Choice],
        scene: &mut Scene,
    ) -> Result<Option<usize>, AllocError> {
        match self.selection(number) {
            Some(selection) => Ok(choice_planned(selection, scene)),
            None => self.choice_unplanned(kind, selector, items, scene),
        }
    }

    fn assign(
        &self,
        number: u32,
        part: Part,
        assignment: &Assignment,
        scene: &mut Scene,
    ) -> Result<(), AllocError> {
        match self.writing(number, part) {
            Some(writing) => self.assign_planned(writing, scene),
            None => self.assign_unplanned(assignment, scene),
        }
    }

    fn schedule(
        &self,
        number: u32,
        assignment: &Assignment,
        scene: &mut Scene,
    ) -> Result<(), AllocError> {
        match self.writing(number, Part::Itself) {
            Some(writing) => self.schedule_planned(writing, scene),
            None => self.schedule_unplanned(assignment, scene),
        }
    }

    fn task(
        &self,
        _number: u32,
        name: &Identifier,
        arguments: &[Argument],
        scene: &mut Scene,
    ) -> Result<(), AllocError> {
        let mut words = scene.words()?;
        let mut text = Vec::new(self.alloc);
        perform(name, arguments, &self.moment(scene), &mut words, &mut text)?;
        scene.set_words(words);
        scene.print(text.as_slice())
    }
}
