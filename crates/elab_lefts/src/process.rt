//! Variables of combinational processes, as their statements assign them.
ghost use Rattle.std.specs.Prelude.{◌≡◌, ◌++◌, map, OnOk};
ghost use Rattle.vlog_meaning.specs.Scopes.{names_of};
ghost use Rattle.elab_proc.specs.Refusals.{AreSized};
ghost use Rattle.elab_items.specs.Assigned.{process_writes};
ghost use Rattle.elab_lefts.specs.Lefts.{process_lefts, write_left};

use crate::lists::list_writes;
use elab_finish::Left;
use elab_items::process_writes;
use flat_scopes::Signal;
use process_events::{Sensitivity, sensitivity_of};
use std::alloc::{AllocError, Global};
use vlog_meaning::Scope;
use vlog_syntax::Process;

/// Lists the variables that the statements of a process assign.
fn list_variables(
    alloc: Global,
    lefts: &mut Vec<Left>,
    signals: &[Signal],
    scope: &mut Scope,
    process: &Process,
) -> Result<(), AllocError>
    requires { AreSized (names_of scope.old) }
    ensures lists { OnOk result (lefts.new.items ≡ lefts.old.items ++ map (write_left signals.now) (process_writes (names_of scope.old) process.now)) }
    ensures kept { OnOk result (names_of scope.new ≡ names_of scope.old) }
{
    let writes = process_writes(alloc, process, scope)?;
    list_writes(lefts, signals, writes.as_slice())
}

/// Lists the variables of a process of a scope, if it is combinational.
pub(crate) fn list_process(
    alloc: Global,
    lefts: &mut Vec<Left>,
    signals: &[Signal],
    scope: &mut Scope,
    process: &Process,
) -> Result<(), AllocError>
    requires { AreSized (names_of scope.old) }
    ensures lists { OnOk result (lefts.new.items ≡ lefts.old.items ++ process_lefts signals.now (names_of scope.old) process.now) }
    ensures kept { OnOk result (names_of scope.new ≡ names_of scope.old) }
{
    match sensitivity_of(process) {
        Sensitivity::Combinational => list_variables(alloc, lefts, signals, scope, process),
        Sensitivity::Once => Ok(()),
        Sensitivity::Clocked(_) => Ok(()),
        Sensitivity::Refused(..) => Ok(()),
    }
}
