//! An assign settles.
ghost use Rattle.std.specs.Prelude.{◌≡◌, true, slice_index, OnOk};
ghost use Rattle.std.specs.List.{All};
ghost use Rattle.vlog_meaning.specs.Scopes.{names_of};
ghost use Rattle.tb_machine.specs.Worlds.{assigned, Fits};
ghost use Rattle.tb_assigns.specs.Checks.{can_assign};
ghost use Rattle.tb_evaluator.specs.Meanings.{HasSignals};
ghost use Rattle.tb_plans.specs.Transfers.{TransferFits, transfer_updates, OfTransfer};
ghost use Rattle.tb_settling.specs.Settling.{assign_updates};

use crate::design::set_whole;
use rand_pcg::Lcg64Xsh32;
use std::alloc::{AllocError, Global};
use tb_assigns::updates;
use tb_machine::Scene;
use tb_plans::Transfer;
use tb_values::Moment;
use vlog_meaning::Scope;
use vlog_syntax::Assignment;

/// The update that a plan gives applies.
fn update(plan: &Transfer, scene: &mut Scene)
    requires fits { TransferFits scene.old.widths plan.now }
    requires inside { All (Fits scene.old.widths) (transfer_updates plan.now (λ n. slice_index scene.old.store n)) }
    ensures { scene.new ≡ assigned scene.old (transfer_updates plan.now (λ n. slice_index scene.old.store n)) }
{
    match plan.update(scene.store()) {
        Some(update) => scene.assign_one(update),
        None => {}
    }
}

/// What a plan gives applies. Most are copies of whole signals.
fn transfer(plan: &Transfer, scene: &mut Scene)
    requires fits { TransferFits scene.old.widths plan.now }
    requires inside { All (Fits scene.old.widths) (transfer_updates plan.now (λ n. slice_index scene.old.store n)) }
    ensures { scene.new ≡ assigned scene.old (transfer_updates plan.now (λ n. slice_index scene.old.store n)) }
{
    match plan.copied(scene.store()) {
        Some(copied) => set_whole(copied.signal, copied.word, scene),
        None => update(plan, scene),
    }
}

/// The updates of an assign without a plan apply. It draws nothing, so any generator serves.
#[inline(never)]
fn evaluate_assign(
    alloc: Global,
    assignment: &Assignment,
    scope: &Scope,
    phase: u64,
    scene: &mut Scene,
) -> Result<(), AllocError>
    requires can { can_assign (names_of scope.now) assignment.now ≡ true }
    requires signals { HasSignals (names_of scope.now) scene.old.widths }
    ensures { OnOk result (scene.new ≡ assigned scene.old (assign_updates (names_of scope.now) assignment.now phase scene.old.store)) }
{
    let moment = Moment {
        alloc,
        scope,
        store: scene.store(),
        phase,
    };
    let mut words = Lcg64Xsh32::new(0, 0);
    let found = updates(assignment, &moment, &mut words)?;
    scene.assign_all(found.as_slice());
    Ok(())
}

/// The updates of an assign apply, by its plan where it has one.
pub(crate) fn settle_assign(
    alloc: Global,
    assignment: &Assignment,
    plan: &Option<Transfer>,
    scope: &Scope,
    phase: u64,
    scene: &mut Scene,
) -> Result<(), AllocError>
    requires can { can_assign (names_of scope.now) assignment.now ≡ true }
    requires plan { OfTransfer (names_of scope.now) assignment.now plan.now }
    requires signals { HasSignals (names_of scope.now) scene.old.widths }
    ensures { OnOk result (scene.new ≡ assigned scene.old (assign_updates (names_of scope.now) assignment.now phase scene.old.store)) }
{
    let Some(plan) = plan else {
        return evaluate_assign(alloc, assignment, scope, phase, scene);
    };
    transfer(plan, scene);
    Ok(())
}
