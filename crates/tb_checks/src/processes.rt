//! What is wrong in a process of a testbench, and whether it sets the clock at its start.
ghost use Rattle.std.specs.Prelude.{◌≡◌, IfOk, option_copied};
ghost use Rattle.vlog_syntax.specs.declared.stmt.Stmt.{out-Stmt};
ghost use Rattle.vlog_meaning.specs.Scopes.{names_of};
ghost use Rattle.tb_faults.specs.Order.{IsFirst};
ghost use Rattle.tb_checks.specs.Processes.{initial_faults, always_faults, process_faults, starts_clock as begins_clock};
ghost use Rattle.tb_checks.specs.Views.{rules_in};

use crate::controls::control_fault;
use crate::start::{sets_clock, starting_fault};
use crate::statements::{StatementRules, statement_fault};
use mcy_base::Span;
use std::alloc::{AllocError, Global};
use tb_faults::{BenchFault, earlier};
use vlog_meaning::Scope;
use vlog_syntax::{Feature, Process, ProcessKind, Stmt};

/// What is wrong first in the body of an `initial`.
fn initial_fault(
    rules: &StatementRules<'_>,
    may_start: bool,
    body: &Stmt,
) -> Result<Option<BenchFault>, AllocError>
    ensures { IfOk result (λ o. IsFirst (initial_faults (rules_in rules.now) may_start body.now) o) }
{
    if may_start {
        starting_fault(rules, body)
    } else {
        statement_fault(rules, body)
    }
}

/// What is wrong first in the body of an `always` with its list.
fn always_fault(
    rules: &StatementRules<'_>,
    always: Span,
    body: &Stmt,
) -> Result<Option<BenchFault>, AllocError>
    ensures { IfOk result (λ o. IsFirst (always_faults (rules_in rules.now) always body.now (out-Stmt body.now)) o) }
{
    match body {
        Stmt::EventControl(at, control, inner) => {
            let found = control_fault(rules.scope, rules.clock, true, *at, control);
            let later = statement_fault(rules, inner.get())?;
            Ok(earlier(found, later))
        }
        _ => {
            let found = Some(BenchFault::Unsupported(always, Feature::ClockList));
            let later = statement_fault(rules, body)?;
            Ok(earlier(found, later))
        }
    }
}

/// What is wrong first in a process that is no clock generator, by its place, if anything is. `clock` is the name of the clock where
/// there is a clock generator, and with `may_start` the process may set the clock before its first wait where it is an `initial`.
pub fn process_fault(
    alloc: Global,
    scope: &Scope,
    clock: Option<&str>,
    may_start: bool,
    process: &Process,
) -> Result<Option<BenchFault>, AllocError>
    ensures { IfOk result (λ o. IsFirst (process_faults (names_of scope.now) (option_copied clock.entry) may_start process.now) o) }
{
    match process.kind {
        ProcessKind::Initial => {
            let rules = StatementRules {
                alloc,
                scope,
                clock,
                may_wait: true,
            };
            initial_fault(&rules, may_start, process.body.get())
        }
        ProcessKind::Always => {
            let rules = StatementRules {
                alloc,
                scope,
                clock,
                may_wait: false,
            };
            always_fault(&rules, process.span, process.body.get())
        }
    }
}

/// Whether a process is an `initial` that sets the clock before its first wait.
pub fn starts_clock(alloc: Global, scope: &Scope, clock: Option<&str>, process: &Process) -> bool
    ensures { result ≡ begins_clock (names_of scope.now) (option_copied clock.entry) process.now }
{
    let rules = StatementRules {
        alloc,
        scope,
        clock,
        may_wait: true,
    };
    match process.kind {
        ProcessKind::Initial => sets_clock(&rules, process.body.get()),
        ProcessKind::Always => false,
    }
}
