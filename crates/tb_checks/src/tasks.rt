//! System tasks, with their arguments.
ghost use Rattle.std.specs.Prelude.{◌≡◌, ◌++◌, IfOk};
ghost use Rattle.vlog_meaning.specs.Scopes.{names_of};
ghost use Rattle.tb_tasks.specs.Tasks.{arguments_fit};
ghost use Rattle.tb_faults.specs.Order.{IsFirst};
ghost use Rattle.tb_checks.specs.Statements.{test_faults, is_dump, is_print, is_finish, argument_faults, format_faults, arguments_faults, other_task, task_faults};

use crate::expressions::own_fault;
use std::alloc::{AllocError, Global};
use tb_faults::{BenchFault, earlier, wrong};
use tb_tasks::arguments_fit;
use vlog_meaning::Scope;
use vlog_syntax::{Argument, Expr, Feature, Identifier};

/// What is wrong in a condition, a count or an argument.
pub(crate) fn test_fault(scope: &Scope, expr: &Expr) -> Option<BenchFault>
    ensures { IsFirst (test_faults (names_of scope.now) expr.now) result }
{
    wrong(own_fault(expr, scope))
}

/// Whether a task writes a dump.
fn is_dump(name: &str) -> bool
    ensures { result ≡ is_dump name.now }
{
    name == "$dumpfile" || name == "$dumpvars"
}

/// Whether a task prints.
fn is_print(name: &str) -> bool
    ensures { result ≡ is_print name.now }
{
    name == "$display" || name == "$write"
}

/// Whether a task ends the simulation.
fn is_finish(name: &str) -> bool
    ensures { result ≡ is_finish name.now }
{
    name == "$finish"
}

/// What is wrong in an argument.
fn argument_fault(scope: &Scope, argument: &Argument) -> Option<BenchFault>
    ensures { IsFirst (argument_faults (names_of scope.now) argument.now) result }
{
    match argument {
        Argument::String(..) => None,
        Argument::Expr(expr) => test_fault(scope, expr.get()),
    }
}

/// What is wrong first in several arguments.
fn arguments_fault(scope: &Scope, arguments: &[Argument]) -> Option<BenchFault>
    ensures { IsFirst (arguments_faults (names_of scope.now) arguments.now) result }
{
    let mut found = None;
    for argument in arguments {
        found = earlier(found, argument_fault(scope, argument));
    }
    found
}

/// A format that the arguments do not fit, at its string.
fn format_fault(fits: bool, arguments: &[Argument]) -> Option<BenchFault>
    ensures { IsFirst (format_faults fits arguments.now) result }
{
    match arguments {
        [Argument::String(_, at), ..] => {
            if fits {
                None
            } else {
                Some(BenchFault::Unsupported(*at, Feature::FormatText))
            }
        }
        [Argument::Expr(..), ..] => None,
        [] => None,
    }
}

/// What is wrong first in a task that prints.
fn print_fault(
    alloc: Global,
    scope: &Scope,
    arguments: &[Argument],
) -> Result<Option<BenchFault>, AllocError>
    ensures { IfOk result (λ o. IsFirst (format_faults (arguments_fit arguments.now) arguments.now ++ arguments_faults (names_of scope.now) arguments.now) o) }
{
    let fits = arguments_fit(alloc, arguments)?;
    let found = format_fault(fits, arguments);
    Ok(earlier(found, arguments_fault(scope, arguments)))
}

/// A task that is not supported.
fn name_fault(name: &Identifier) -> Option<BenchFault>
    ensures { IsFirst (other_task name.now) result }
{
    if is_finish(name.name.as_str()) {
        None
    } else {
        Some(BenchFault::Unsupported(name.span, Feature::SystemTask))
    }
}

/// What is wrong first in a system task.
pub(crate) fn task_fault(
    alloc: Global,
    scope: &Scope,
    name: &Identifier,
    arguments: &[Argument],
) -> Result<Option<BenchFault>, AllocError>
    ensures { IfOk result (λ o. IsFirst (task_faults (names_of scope.now) name.now arguments.now) o) }
{
    if is_print(name.name.as_str()) {
        print_fault(alloc, scope, arguments)
    } else if is_dump(name.name.as_str()) {
        Ok(None)
    } else {
        let found = name_fault(name);
        Ok(earlier(found, arguments_fault(scope, arguments)))
    }
}
