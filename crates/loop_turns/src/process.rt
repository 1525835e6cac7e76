//! The turns of a process.
ghost use Rattle.std.specs.Prelude.{◌≡◌};
ghost use Rattle.vlog_syntax.specs.declared.stmt.Stmt.{out-Stmt};
ghost use Rattle.vlog_meaning.specs.Scopes.{names_of};
ghost use Rattle.elab_proc.specs.Refusals.{AreSized};
ghost use Rattle.loop_turns.specs.Counts.{IsLeft, process_turns, waiting_turns};

use crate::walk::statement_left;
use process_events::{Sensitivity, sensitivity_of};
use vlog_meaning::Scope;
use vlog_syntax::{Process, Stmt};

/// What is left of so many turns after those of a process; none where its loops take more. The scope has signals of 1 to 128 bits, and
/// is given back as it was.
pub fn process_left(process: &Process, scope: &mut Scope, left: u32) -> Option<u32>
    requires { AreSized (names_of scope.old) }
    ensures left { IsLeft (process_turns (names_of scope.old) process.now) left result }
    ensures kept { names_of scope.new ≡ names_of scope.old }
{
    match sensitivity_of(process) {
        Sensitivity::Combinational => waiting_left(process.body.get(), scope, left),
        Sensitivity::Clocked(_) => waiting_left(process.body.get(), scope, left),
        Sensitivity::Once => Some(left),
        Sensitivity::Refused(..) => Some(left),
    }
}

/// What is left after the turns of a statement that waits for events.
fn waiting_left(body: &Stmt, scope: &mut Scope, left: u32) -> Option<u32>
    requires { AreSized (names_of scope.old) }
    ensures left { IsLeft (waiting_turns (names_of scope.old) (out-Stmt body.now)) left result }
    ensures kept { names_of scope.new ≡ names_of scope.old }
{
    match body {
        Stmt::EventControl(_, _, stmt) => statement_left(stmt.get(), scope, left),
        _ => Some(left),
    }
}
