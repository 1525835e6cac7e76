//! Clocked processes: the cells of their statements, and then registers of their variables.
ghost use Rattle.std.specs.Prelude.{◌≡◌, ◌+◌, false, length, OnOk, IfErr};
ghost use Rattle.vlog_meaning.specs.Scopes.{names_of};
ghost use Rattle.vlog_effects.specs.Steps.{steps_of};
ghost use Rattle.net_builder.specs.Building.{HasSignals};
ghost use Rattle.net_builder.specs.Refusals.{IsShort};
ghost use Rattle.elab_proc.specs.Refusals.{AreSized};
ghost use Rattle.flat_runs.specs.Meanings.{Clocked};
ghost use Rattle.flat_runs.specs.Adding.{HasOwnNets, AddsItem};
ghost use Rattle.flat_runs.specs.Parts.{StandsBelow};
ghost use Rattle.proc_muxes.specs.Counts.{cells_of};
ghost use Rattle.process_cells.specs.Ready.{IsAccepted, HasPlaces};
ghost use Rattle.process_cells.specs.Processes.{variables, process_effect, HasOneKind, Clocks};

use crate::registers::store_all;
use crate::waiting::all_waiting;
use net_builder::{Builder, ElabError};
use proc_muxes::{Variables, build_statement, set_aside};
use vlog_meaning::Scope;
use vlog_syntax::Stmt;

/// Adds the cells of a clocked process, in whose statements nothing is refused and in which each variable has assignments of one
/// kind, and a register for each variable, which takes what the variable has at the end. The variables are given by their
/// numbers. Where there are too many cells, or there is no memory, the builder may hold a part of it and is only to be dropped.
pub fn build_clocked(
    builder: &mut Builder,
    waiting: &mut Variables,
    scope: &mut Scope,
    body: &Stmt,
    numbers: &[u32],
) -> Result<(), ElabError>
    requires accepted { IsAccepted false (steps_of body.now (names_of scope.old)) }
    requires kinds { HasOneKind (steps_of body.now (names_of scope.old)) }
    requires variables { numbers.now ≡ variables (steps_of body.now (names_of scope.old)) }
    requires sized { AreSized (names_of scope.old) }
    requires signals { HasSignals (names_of scope.old) builder.old }
    requires own { HasOwnNets builder.old }
    requires stands { StandsBelow builder.old }
    requires places { HasPlaces builder.old waiting.old }
    ensures clocks { OnOk result (Clocks (steps_of body.now (names_of scope.old)) builder.old builder.new) }
    ensures added { OnOk result (AddsItem builder.old builder.new (Clocked (variables (steps_of body.now (names_of scope.old))) (process_effect builder.old (steps_of body.now (names_of scope.old))))) }
    ensures kept { OnOk result (names_of scope.new ≡ names_of scope.old) }
    ensures stands { OnOk result (StandsBelow builder.new) }
    ensures places { OnOk result (HasPlaces builder.new waiting.new) }
    ensures short { IfErr result (λ e. IsShort (length builder.old.cells + cells_of (steps_of body.now (names_of scope.old))) e) }
{
    all_waiting(builder, waiting, numbers)?;
    let changes = build_statement(builder, waiting, scope, body)?;
    let variables = set_aside(builder, waiting, changes.as_slice())?;
    store_all(builder, variables.as_slice())?;
    Ok(())
}
