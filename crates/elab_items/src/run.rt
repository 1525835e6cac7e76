//! Processes of a flattened design.
ghost use Rattle.std.specs.Prelude.{◌≡◌, Bool, List, IfErr, OnOk};
ghost use Rattle.vlog_meaning.specs.Scopes.{names_of};
ghost use Rattle.net_builder.specs.Building.{HasSignals};
ghost use Rattle.elab_proc.specs.Refusals.{AreSized};
ghost use Rattle.flat_assigns.specs.Built.{IsReady};
ghost use Rattle.process_cells.specs.Ready.{HasPlaces};
ghost use Rattle.flat_items.specs.Views.{flat_of};
ghost use Rattle.flat_instances.specs.declared.item.FlatItem.TheVariants.{Runs};
ghost use Rattle.elab_items.specs.Desks.{Holds, Serves};
ghost use Rattle.elab_items.specs.Items.{Builds, BuildsProcess, Fails, FailsProcess, Stands, process_error};
ghost use Rattle.elab_items.specs.Writers.{TellsWriters};

use crate::desk::{Desk, copy_scopes};
use crate::error::{BuildError, Reason};
use flat_items::Flat;
use net_builder::{Builder, ElabError};
use proc_muxes::Variables;
use process_cells::build_process;
use vlog_meaning::Scope;
use vlog_syntax::Process;

/// Why the cells of a process are not added.
fn process_error(error: ElabError) -> BuildError
    ensures { result ≡ process_error error }
{
    match error {
        ElabError::TooMany(kind) => BuildError::TooMany(kind),
        _ => BuildError::Memory,
    }
}

/// Builds a process that is read in a scope. `written` tells which signals have a writer.
#[tactic(auto, using(crate::proofs::Running::process_built, crate::proofs::Running::process_refused, crate::proofs::Running::process_fails))]
fn build_in(
    builder: &mut Builder,
    waiting: &mut Variables,
    written: &[bool],
    scope: &mut Scope,
    process: &Process,
) -> Result<(), BuildError>
    requires ready { IsReady builder.old }
    requires sized { AreSized (names_of scope.old) }
    requires signals { HasSignals (names_of scope.old) builder.old }
    requires places { HasPlaces builder.old waiting.old }
    ensures built { OnOk result ((inputs : List Bool) → TellsWriters builder.old inputs written.now → BuildsProcess inputs (names_of scope.old) process.now builder.old builder.new) }
    ensures fails { IfErr result (λ e. (inputs : List Bool) → TellsWriters builder.old inputs written.now → FailsProcess inputs (names_of scope.old) process.now builder.old e) }
    ensures kept { OnOk result (names_of scope.new ≡ names_of scope.old) }
    ensures places { OnOk result (HasPlaces builder.new waiting.new) }
{
    match build_process(builder, waiting, scope, process, written) {
        Ok(found) => match found {
            None => Ok(()),
            Some(refusal) => Err(BuildError::Refused(Reason::Found(refusal))),
        },
        Err(error) => Err(process_error(error)),
    }
}

/// Builds a process of a scope of the design.
#[tactic(auto, using(crate::proofs::Running::run_built, crate::proofs::Running::run_fails, crate::proofs::Running::serves_kept))]
pub(crate) fn build_run(
    builder: &mut Builder,
    desk: &mut Desk,
    inputs: &[bool],
    flat: &Flat,
    place: u32,
    process: &Process,
) -> Result<(), BuildError>
    requires stands { Stands (flat_of flat.now).places builder.old }
    requires serves { Serves inputs.now (flat_of flat.now).places builder.old desk.old }
    ensures built { OnOk result (Builds inputs.now (flat_of flat.now).places (Runs place process.now) builder.old builder.new) }
    ensures fails { IfErr result (λ e. Fails inputs.now (flat_of flat.now).places (Runs place process.now) builder.old e) }
    ensures holds { OnOk result (Holds (flat_of flat.now).places builder.new desk.new) }
    ensures written { OnOk result (desk.new.written.items ≡ desk.old.written.items) }
{
    copy_scopes(&mut desk.scopes, flat, place)?;
    if place as usize >= desk.scopes.len() {
        return Err(BuildError::Memory);
    }
    build_in(
        builder,
        &mut desk.waiting,
        desk.written.as_slice(),
        &mut desk.scopes[place as usize],
        process,
    )
}
