//! The active part of a phase: processes go on, one after the other.
ghost use Rattle.std.specs.Prelude.{◌≡◌, ℕ, IfOk, List, length, map};
ghost use Rattle.vlog_syntax.specs.declared.stmt.Stmt.{Stmt};
ghost use Rattle.tb_machine.specs.Machine.{AreRan, StacksBelow, all_suspended};
ghost use Rattle.tb_machine.specs.Nodes.{IsCode, tree_of};
ghost use Rattle.tb_machine.specs.Phases.{active, max_statements};
ghost use Rattle.tb_evaluator.specs.Meanings.{meaning};
ghost use Rattle.tb_bench.specs.Settings.{names, widths, begun};
ghost use Rattle.tb_bench.specs.Runnable.{IsRunnable};

use crate::begin::begin_again;
use std::alloc::{AllocError, Global};
use tb_bench::Parts;
use tb_evaluator::PhaseEvaluator;
use tb_machine::{Ended, Event, Process, Scene, wake_all};

/// The statements that may be carried out in a phase.
const MAX_STATEMENTS: u32 = 100_000;

/// The `always` processes of the event run from their starts, and then the `initial` processes that wait for it go on. What the
/// `always` processes were does not matter.
pub(crate) fn run_processes(
    alloc: Global,
    parts: &Parts,
    phase: u64,
    event: Event,
    always: &mut Vec<Process>,
    initial: &mut [Process],
    scene: &mut Scene,
) -> Result<Ended, AllocError>
    requires runnable { IsRunnable parts.now }
    requires below { StacksBelow (length parts.now.code) initial.old }
    requires widths { scene.old.widths ≡ widths parts.now }
    ensures ran { (trees : List Stmt) → IsCode parts.now.code trees → IfOk result (λ r. (left : ℕ) × AreRan parts.now.code (tree_of trees) r left initial.new scene.new (active (meaning (names parts.now) phase) event (map (begun (tree_of trees)) parts.now.always) (all_suspended parts.now.code (tree_of trees) initial.old) scene.old)) }
    ensures below { IfOk result (λ _. StacksBelow (length parts.now.code) initial.new) }
    ensures widths { IfOk result (λ _. scene.new.widths ≡ scene.old.widths) }
{
    let evaluator = PhaseEvaluator {
        alloc,
        scope: &parts.scope,
        plans: parts.plans.as_slice(),
        phase,
    };
    let nodes = parts.code.nodes();
    begin_again(alloc, always, parts.always.as_slice())?;
    let mut left = MAX_STATEMENTS;
    match wake_all(nodes, always, event, &mut left, &evaluator, scene)? {
        Ended::Pauses => wake_all(nodes, initial, event, &mut left, &evaluator, scene),
        Ended::Finished => Ok(Ended::Finished),
        Ended::TooLong => Ok(Ended::TooLong),
    }
}
