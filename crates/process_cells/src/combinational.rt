//! Combinational processes: the cells of their statements, and then joints of their variables.
ghost use Rattle.std.specs.Prelude.{◌≡◌, ◌+◌, true, false, None, length, OnOk, IfErr};
ghost use Rattle.vlog_meaning.specs.Scopes.{names_of};
ghost use Rattle.vlog_effects.specs.Latches.{latch_of};
ghost use Rattle.vlog_effects.specs.Steps.{steps_of};
ghost use Rattle.net_builder.specs.Building.{HasSignals};
ghost use Rattle.net_builder.specs.Refusals.{IsShort};
ghost use Rattle.elab_proc.specs.Refusals.{AreSized};
ghost use Rattle.flat_runs.specs.Meanings.{Combinational};
ghost use Rattle.flat_runs.specs.Adding.{HasOwnNets, AddsItem};
ghost use Rattle.flat_runs.specs.Parts.{StandsBelow};
ghost use Rattle.proc_muxes.specs.Counts.{cells_of};
ghost use Rattle.process_cells.specs.Ready.{IsAccepted, HasPlaces};
ghost use Rattle.process_cells.specs.Processes.{variables, process_effect, Combines};

use crate::joints::rejoin_all;
use crate::kept::{all_kept, blank};
use net_builder::{Builder, ElabError};
use proc_muxes::{Variables, build_statement};
use vlog_meaning::Scope;
use vlog_syntax::Stmt;

/// Adds the cells of a combinational process, in whose statements nothing is refused and no latch is found, and joins its
/// variables to what they have at the end. These are given by their numbers, each once, in order of first assignment. Where
/// there are too many cells, or there is no memory, the builder may hold a part of it and is only to be dropped.
pub fn build_combinational(
    builder: &mut Builder,
    waiting: &mut Variables,
    scope: &mut Scope,
    body: &Stmt,
    numbers: &[u32],
) -> Result<(), ElabError>
    requires accepted { IsAccepted true (steps_of body.now (names_of scope.old)) }
    requires unlatched { latch_of (steps_of body.now (names_of scope.old)) ≡ None }
    requires variables { numbers.now ≡ variables (steps_of body.now (names_of scope.old)) }
    requires sized { AreSized (names_of scope.old) }
    requires signals { HasSignals (names_of scope.old) builder.old }
    requires own { HasOwnNets builder.old }
    requires stands { StandsBelow builder.old }
    requires places { HasPlaces builder.old waiting.old }
    ensures combines { OnOk result (Combines (steps_of body.now (names_of scope.old)) builder.old builder.new) }
    ensures added { OnOk result (AddsItem builder.old builder.new (Combinational (variables (steps_of body.now (names_of scope.old))) (process_effect builder.old (steps_of body.now (names_of scope.old))))) }
    ensures kept { OnOk result (names_of scope.new ≡ names_of scope.old) }
    ensures stands { OnOk result (StandsBelow builder.new) }
    ensures places { OnOk result (HasPlaces builder.new waiting.new) }
    ensures short { IfErr result (λ e. IsShort (length builder.old.cells + cells_of (steps_of body.now (names_of scope.old))) e) }
{
    let owns = all_kept(builder, numbers)?;
    blank(builder, numbers)?;
    build_statement(builder, waiting, scope, body)?;
    let lasts = all_kept(builder, numbers)?;
    rejoin_all(builder, owns.as_slice(), lasts.as_slice())?;
    Ok(())
}
