//! Whole processes: what is refused first in one, or else its cells, and its joints or registers.
ghost use Rattle.std.specs.Prelude.{◌≡◌, ◌+◌, true, false, [], None, IfOk, IfErr, OnOk, length};
ghost use Rattle.mcy_base.specs.declared.kind.Kind.{Kind};
ghost use Rattle.vlog_syntax.specs.declared.identifier.Identifier.{Identifier};
ghost use Rattle.vlog_syntax.specs.declared.stmt.Stmt.{out-Stmt};
ghost use Rattle.vlog_meaning.specs.Scopes.{names_of};
ghost use Rattle.vlog_effects.specs.Steps.{steps_of};
ghost use Rattle.net_builder.specs.Building.{HasSignals};
ghost use Rattle.net_builder.specs.declared.error.ElabError.TheVariants.{TooMany};
ghost use Rattle.net_builder.specs.Refusals.{IsShort};
ghost use Rattle.elab_proc.specs.Order.{IsFirst};
ghost use Rattle.elab_proc.specs.Refusals.{AreSized};
ghost use Rattle.flat_runs.specs.Adding.{HasOwnNets};
ghost use Rattle.flat_runs.specs.Parts.{StandsBelow};
ghost use Rattle.proc_muxes.specs.Counts.{cells_of};
ghost use Rattle.process_events.specs.Events.{Combinational as Changes, Clocked as Rises, said, sensitivity};
ghost use Rattle.process_latches.specs.Refused.{process_refusals};
ghost use Rattle.process_cells.specs.Ready.{HasPlaces};
ghost use Rattle.process_cells.specs.Processes.{CanBeBuilt, written_numbers};
ghost use Rattle.process_cells.specs.Laid.{lay_accepted};
ghost use Rattle.process_cells.specs.Items.{cells_by, process_cells, process_steps, statement, Adds, AddsBy, AddsProcess, IsFit};

use crate::clocked::build_clocked;
use crate::combinational::build_combinational;
use crate::variables::variables_of;
use elab_proc::Refusal;
use net_builder::{Builder, ElabError};
use proc_muxes::Variables;
use process_events::{Sensitivity, sensitivity_of};
use process_latches::{Marks, mark, process_refusal};
use std::alloc::{AllocError, Global};
use vlog_meaning::Scope;
use vlog_syntax::{Process, Stmt};

/// Adds a process: the cells of its statements, and joints or registers of its variables. What is refused first in it is answered,
/// and then nothing is added; an `initial` adds nothing either. `written` tells which signals have a writer outside the process, by
/// their numbers; a signal past its end has none. The scope has signals of the builder, of 1 to 128 bits, and is given back as it was.
/// Where there are too many cells, or there is no memory, the builder may hold a part of the process, and is only to be dropped, and
/// so is the scope.
pub fn build_process(
    builder: &mut Builder,
    waiting: &mut Variables,
    scope: &mut Scope,
    process: &Process,
    written: &[bool],
) -> Result<Option<Refusal>, ElabError>
    requires sized { AreSized (names_of scope.old) }
    requires signals { HasSignals (names_of scope.old) builder.old }
    requires own { HasOwnNets builder.old }
    requires stands { StandsBelow builder.old }
    requires places { HasPlaces builder.old waiting.old }
    ensures first { IfOk result (λ o. IsFirst (process_refusals (names_of scope.old) written.now process.now) o) }
    ensures adds { IfOk result (λ o. Adds (names_of scope.old) process.now builder.old builder.new o) }
    ensures laid { IfOk result (λ o. builder.new ≡ lay_accepted (names_of scope.old) process.now o builder.old) }
    ensures accepted { IfErr result (λ e. (kind : Kind) → e ≡ TooMany kind → process_refusals (names_of scope.old) written.now process.now ≡ []) }
    ensures short { IfErr result (λ e. IsShort (length builder.old.cells + process_cells (names_of scope.old) process.now) e) }
    ensures kept { OnOk result (names_of scope.new ≡ names_of scope.old) }
    ensures own { OnOk result (HasOwnNets builder.new) }
    ensures stands { OnOk result (StandsBelow builder.new) }
    ensures places { OnOk result (HasPlaces builder.new waiting.new) }
{
    match process_refusal(builder.alloc(), process, scope, written) {
        Ok(found) => build_found(builder, waiting, scope, process, found),
        Err(_) => Err(ElabError::Memory),
    }
}

/// Adds a process, unless something is refused in it.
fn build_found(
    builder: &mut Builder,
    waiting: &mut Variables,
    scope: &mut Scope,
    process: &Process,
    found: Option<Refusal>,
) -> Result<Option<Refusal>, ElabError>
    requires fit { found ≡ None → IsFit (sensitivity process.now) (process_steps (names_of scope.old) process.now) }
    requires sized { AreSized (names_of scope.old) }
    requires signals { HasSignals (names_of scope.old) builder.old }
    requires own { HasOwnNets builder.old }
    requires stands { StandsBelow builder.old }
    requires places { HasPlaces builder.old waiting.old }
    ensures same { IfOk result (λ o. o ≡ found) }
    ensures none { IfErr result (λ e. found ≡ None) }
    ensures adds { IfOk result (λ o. Adds (names_of scope.old) process.now builder.old builder.new o) }
    ensures short { IfErr result (λ e. IsShort (length builder.old.cells + process_cells (names_of scope.old) process.now) e) }
    ensures kept { OnOk result (names_of scope.new ≡ names_of scope.old) }
    ensures own { OnOk result (HasOwnNets builder.new) }
    ensures stands { OnOk result (StandsBelow builder.new) }
    ensures places { OnOk result (HasPlaces builder.new waiting.new) }
{
    match found {
        Some(refusal) => Ok(Some(refusal)),
        None => match build_accepted(builder, waiting, scope, process) {
            Ok(()) => Ok(None),
            Err(error) => Err(error),
        },
    }
}

/// Adds a process in which nothing is refused.
fn build_accepted(
    builder: &mut Builder,
    waiting: &mut Variables,
    scope: &mut Scope,
    process: &Process,
) -> Result<(), ElabError>
    requires fit { IsFit (sensitivity process.now) (process_steps (names_of scope.old) process.now) }
    requires sized { AreSized (names_of scope.old) }
    requires signals { HasSignals (names_of scope.old) builder.old }
    requires own { HasOwnNets builder.old }
    requires stands { StandsBelow builder.old }
    requires places { HasPlaces builder.old waiting.old }
    ensures adds { OnOk result (AddsProcess (names_of scope.old) process.now builder.old builder.new) }
    ensures kept { OnOk result (names_of scope.new ≡ names_of scope.old) }
    ensures own { OnOk result (HasOwnNets builder.new) }
    ensures stands { OnOk result (StandsBelow builder.new) }
    ensures places { OnOk result (HasPlaces builder.new waiting.new) }
    ensures short { IfErr result (λ e. IsShort (length builder.old.cells + process_cells (names_of scope.old) process.now) e) }
{
    let when = sensitivity_of(process);
    let body = statement_of(process.body.get());
    build_body(builder, waiting, scope, when, body)
}

/// The statement behind a list of events, where there is one.
fn statement_of(body: &Stmt) -> &Stmt
    ensures { result.now ≡ statement body.now (out-Stmt body.now) }
{
    match body {
        Stmt::EventControl(_, _, inner) => inner.get(),
        _ => body,
    }
}

/// The numbers of the variables that a statement assigns in which nothing is refused.
fn numbers_of(alloc: Global, body: &Stmt, scope: &mut Scope) -> Result<Vec<u32>, AllocError>
    requires { AreSized (names_of scope.old) }
    ensures numbers { IfOk result (λ l. l.items ≡ written_numbers (steps_of body.now (names_of scope.old))) }
    ensures kept { OnOk result (names_of scope.new ≡ names_of scope.old) }
{
    let mut marks = Marks::new(alloc);
    mark(alloc, body, scope, &mut marks)?;
    variables_of(alloc, marks.writes.as_slice())
}

/// Adds the cells of a combinational statement, and joints of its variables.
fn build_changing(
    builder: &mut Builder,
    waiting: &mut Variables,
    scope: &mut Scope,
    body: &Stmt,
) -> Result<(), ElabError>
    requires fit { CanBeBuilt true (steps_of body.now (names_of scope.old)) }
    requires sized { AreSized (names_of scope.old) }
    requires signals { HasSignals (names_of scope.old) builder.old }
    requires own { HasOwnNets builder.old }
    requires stands { StandsBelow builder.old }
    requires places { HasPlaces builder.old waiting.old }
    ensures adds { OnOk result (AddsBy Changes (steps_of body.now (names_of scope.old)) builder.old builder.new) }
    ensures kept { OnOk result (names_of scope.new ≡ names_of scope.old) }
    ensures own { OnOk result (HasOwnNets builder.new) }
    ensures stands { OnOk result (StandsBelow builder.new) }
    ensures places { OnOk result (HasPlaces builder.new waiting.new) }
    ensures short { IfErr result (λ e. IsShort (length builder.old.cells + cells_of (steps_of body.now (names_of scope.old))) e) }
{
    let numbers = numbers_of(builder.alloc(), body, scope)?;
    build_combinational(builder, waiting, scope, body, numbers.as_slice())
}

/// Adds the cells of a clocked statement, and registers of its variables.
fn build_rising(
    builder: &mut Builder,
    waiting: &mut Variables,
    scope: &mut Scope,
    body: &Stmt,
) -> Result<(), ElabError>
    requires fit { CanBeBuilt false (steps_of body.now (names_of scope.old)) }
    requires sized { AreSized (names_of scope.old) }
    requires signals { HasSignals (names_of scope.old) builder.old }
    requires own { HasOwnNets builder.old }
    requires stands { StandsBelow builder.old }
    requires places { HasPlaces builder.old waiting.old }
    ensures adds { OnOk result ((clock : Identifier) → AddsBy (Rises clock) (steps_of body.now (names_of scope.old)) builder.old builder.new) }
    ensures kept { OnOk result (names_of scope.new ≡ names_of scope.old) }
    ensures own { OnOk result (HasOwnNets builder.new) }
    ensures stands { OnOk result (StandsBelow builder.new) }
    ensures places { OnOk result (HasPlaces builder.new waiting.new) }
    ensures short { IfErr result (λ e. IsShort (length builder.old.cells + cells_of (steps_of body.now (names_of scope.old))) e) }
{
    let numbers = numbers_of(builder.alloc(), body, scope)?;
    build_clocked(builder, waiting, scope, body, numbers.as_slice())
}

/// Adds what statements mean that are run at these times, and in which nothing is refused.
fn build_body(
    builder: &mut Builder,
    waiting: &mut Variables,
    scope: &mut Scope,
    when: Sensitivity<'_>,
    body: &Stmt,
) -> Result<(), ElabError>
    requires fit { IsFit (said when) (steps_of body.now (names_of scope.old)) }
    requires sized { AreSized (names_of scope.old) }
    requires signals { HasSignals (names_of scope.old) builder.old }
    requires own { HasOwnNets builder.old }
    requires stands { StandsBelow builder.old }
    requires places { HasPlaces builder.old waiting.old }
    ensures adds { OnOk result (AddsBy (said when.entry) (steps_of body.now (names_of scope.old)) builder.old builder.new) }
    ensures kept { OnOk result (names_of scope.new ≡ names_of scope.old) }
    ensures own { OnOk result (HasOwnNets builder.new) }
    ensures stands { OnOk result (StandsBelow builder.new) }
    ensures places { OnOk result (HasPlaces builder.new waiting.new) }
    ensures short { IfErr result (λ e. IsShort (length builder.old.cells + cells_by (said when.entry) (steps_of body.now (names_of scope.old))) e) }
{
    match when {
        Sensitivity::Combinational => build_changing(builder, waiting, scope, body),
        Sensitivity::Clocked(_) => build_rising(builder, waiting, scope, body),
        Sensitivity::Once => Ok(()),
        Sensitivity::Refused(..) => Ok(()),
    }
}
