//! Evaluations by plans.
ghost use Rattle.std.specs.Prelude.{◌≡◌, ◌==◌, not, IfOk};
ghost use Rattle.std.specs.List.{All};
ghost use Rattle.tb_machine.specs.Worlds.{assigned, scheduled, Fits};
ghost use Rattle.tb_assigns.specs.Pieces.{listed};
ghost use Rattle.tb_formulas.specs.Formulas.{formula_value};
ghost use Rattle.tb_plans.specs.Values.{FormulaFits};
ghost use Rattle.tb_plans.specs.Selections.{selection_taken, SelectionFits};
ghost use Rattle.tb_evaluator.specs.Meanings.{store_in, in_world};
ghost use Rattle.tb_evaluator.specs.Planned.{writing_updates, WritingFits};

use std::alloc::AllocError;
use tb_formulas::Formula;
use tb_machine::{Scene, Update};
use tb_plans::{Selection, Writing};

/// Whether a condition holds.
pub(crate) fn holds_planned(formula: &Formula, scene: &Scene) -> bool
    requires { FormulaFits scene.now.widths formula.now }
    ensures { result ≡ not (formula_value formula.now (store_in scene.now) == 0) }
{
    formula.value(scene.store()) != 0
}

/// The case item that is taken.
pub(crate) fn choice_planned(selection: &Selection, scene: &Scene) -> Option<usize>
    requires { SelectionFits scene.now.widths selection.now }
    ensures { result ≡ selection_taken selection.now (store_in scene.now) }
{
    selection.taken(scene.store())
}

/// The update of an assignment, if there is one. The generator goes on.
pub(crate) fn update_planned(
    writing: &Writing,
    scene: &mut Scene,
) -> Result<Option<Update>, AllocError>
    requires { WritingFits scene.old.widths writing.now }
    ensures { IfOk result (λ u. (listed u, scene.new) ≡ in_world scene.old (writing_updates writing.now (store_in scene.old) scene.old.words)) }
{
    match writing {
        Writing::Transfer(transfer) => Ok(transfer.update(scene.store())),
        Writing::Draw(draw) => {
            let mut words = scene.words()?;
            let update = draw.update(scene.store(), &mut words);
            scene.set_words(words);
            Ok(update)
        }
    }
}

/// The update applies, if there is one.
pub(crate) fn assign_some(update: Option<Update>, scene: &mut Scene)
    requires { All (Fits scene.old.widths) (listed update) }
    ensures { scene.new ≡ assigned scene.old (listed update) }
{
    if let Some(update) = update {
        scene.assign_one(update);
    }
}

/// The update is to apply after all processes of the phase, if there is one.
pub(crate) fn schedule_some(update: Option<Update>, scene: &mut Scene) -> Result<(), AllocError>
    requires { All (Fits scene.old.widths) (listed update) }
    ensures { IfOk result (λ _. scene.new ≡ scheduled scene.old (listed update)) }
{
    match update {
        Some(update) => scene.schedule_one(update),
        None => Ok(()),
    }
}
