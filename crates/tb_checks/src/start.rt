//! The start of the clock, in a statement of an `initial` before its first wait.
ghost use Rattle.std.specs.Prelude.{◌≡◌, ◌≤◌, ◌&&◌, ◌||◌, not, true, List, map, IfOk, Some};
ghost use Rattle.vlog_syntax.specs.declared.left_side.LeftSide.{out-LeftSide};
ghost use Rattle.vlog_syntax.specs.declared.stmt.Stmt.{out-Stmt};
ghost use Rattle.vlog_meaning.specs.Scopes.{names_of};
ghost use Rattle.vlog_effects.specs.Expressions.{constant_of};
ghost use Rattle.tb_faults.specs.declared.fault.BenchFault.{BenchFault as Reason};
ghost use Rattle.tb_faults.specs.Order.{IsFirst};
ghost use Rattle.tb_checks.specs.Starts.{start_value, signal_width, clock_width, start_faults, first_faults, is_start, some_sets, turn_faults, may_behind, block_faults, begun, sets, starting};
ghost use Rattle.tb_checks.specs.Statements.{stmt_faults};
ghost use Rattle.tb_checks.specs.Views.{rules_in};

use crate::expressions::Values;
use crate::lefts::is_clock;
use crate::statements::{StatementRules, statement_fault};
use crate::waiting::waits;
use elab_proc::same_form;
use mcy_base::Span;
use std::alloc::AllocError;
use tb_faults::{BenchFault, earlier};
use vlog_meaning::{Decl, Scope, constant_at};
use vlog_refusals::sides_fault;
use vlog_syntax::{Assignment, Expr, Feature, Identifier, LeftSide, Stmt};

/// The width of a signal.
fn signal_width(scope: &Scope, name: &Identifier) -> Option<u8>
    ensures { result ≡ signal_width (names_of scope.now name.now.name) }
{
    match scope.get(name.name.as_str()) {
        Some(Decl::Signal { width, .. }) => Some(width),
        Some(Decl::Constant { .. }) | None => None,
    }
}

/// The width of the clock, where the left side is the clock.
fn clock_width(rules: &StatementRules<'_>, left: &LeftSide) -> Option<u8>
    ensures { result ≡ clock_width (rules_in rules.now) (out-LeftSide left.now) }
{
    match left {
        LeftSide::Name(name) => {
            if is_clock(rules.clock, name.name.as_str()) {
                signal_width(rules.scope, name)
            } else {
                None
            }
        }
        _ => None,
    }
}

/// What is wrong with the value that the clock has at the start.
fn start_value(at: Span, value: &Expr, width: u8, scope: &Scope) -> Option<BenchFault>
    requires some { 1 ≤ width }
    requires narrow { width ≤ 128 }
    ensures { IsFirst (start_value at width (constant_of (names_of scope.now) width value.now)) result }
{
    match constant_at(value, scope, width) {
        Ok(word) => {
            if word.bits() == 0 {
                None
            } else {
                Some(BenchFault::Unsupported(at, Feature::ClockStart))
            }
        }
        Err(_) => Some(BenchFault::Unsupported(at, Feature::Helper)),
    }
}

/// What is wrong first in an assignment to the clock at the start.
fn start_fault(
    rules: &StatementRules<'_>,
    assignment: &Assignment,
    width: u8,
) -> Result<Option<BenchFault>, AllocError>
    requires { clock_width (rules_in rules.now) (out-LeftSide assignment.now.left) ≡ Some width }
    ensures { IfOk result (λ o. (elsewhere : List Reason) → IsFirst (start_faults (rules_in rules.now) assignment.now (Some width) elsewhere) o) }
{
    let left = same_form(rules.alloc, &assignment.left)?;
    match sides_fault(Values, &left, assignment.value.get(), rules.scope) {
        Some(fault) => Ok(Some(BenchFault::Wrong(fault))),
        None => Ok(start_value(
            assignment.left.first_token(),
            assignment.value.get(),
            width,
            rules.scope,
        )),
    }
}

/// What is wrong first in an assignment where it may set the clock. `stmt` is the statement that it is.
fn set_fault(
    rules: &StatementRules<'_>,
    stmt: &Stmt,
    assignment: &Assignment,
) -> Result<Option<BenchFault>, AllocError>
    ensures { IfOk result (λ o. IsFirst (start_faults (rules_in rules.now) assignment.now (clock_width (rules_in rules.now) (out-LeftSide assignment.now.left)) (stmt_faults (rules_in rules.now) stmt.now)) o) }
{
    match clock_width(rules, &assignment.left) {
        Some(width) => start_fault(rules, assignment, width),
        None => statement_fault(rules, stmt),
    }
}

/// What is wrong first in a statement that is no block, where it may set the clock.
fn first_fault(rules: &StatementRules<'_>, stmt: &Stmt) -> Result<Option<BenchFault>, AllocError>
    ensures { IfOk result (λ o. IsFirst (first_faults (rules_in rules.now) stmt.now) o) }
{
    match stmt {
        Stmt::BlockingAssignment(assignment) => set_fault(rules, stmt, assignment),
        Stmt::NonblockingAssignment(assignment) => set_fault(rules, stmt, assignment),
        _ => statement_fault(rules, stmt),
    }
}

/// Whether a statement is an assignment to the clock.
fn is_start(rules: &StatementRules<'_>, stmt: &Stmt) -> bool
    ensures { result ≡ is_start (rules_in rules.now) (out-Stmt stmt.now) }
{
    match stmt {
        Stmt::BlockingAssignment(assignment) => clock_width(rules, &assignment.left).is_some(),
        Stmt::NonblockingAssignment(assignment) => clock_width(rules, &assignment.left).is_some(),
        _ => false,
    }
}

/// Whether a statement sets the clock before its first wait.
#[cycle(sets)]
pub(crate) fn sets_clock(rules: &StatementRules<'_>, stmt: &Stmt) -> bool
    ensures { result ≡ sets (rules_in rules.now) stmt.now }
{
    match stmt {
        Stmt::SeqBlock(_, _, body) => one_sets_clock(rules, body.as_slice()),
        _ => is_start(rules, stmt),
    }
}

/// Whether one of statements does, and nothing before it waits.
#[cycle(sets)]
fn one_sets_clock(rules: &StatementRules<'_>, body: &[Stmt]) -> bool
    ensures { result ≡ some_sets (map (begun (rules_in rules.now)) body.now) }
{
    for stmt in body {
        if sets_clock(rules, stmt) {
            return true;
        }
        if waits(stmt) {
            return false;
        }
    }
    false
}

/// Whether the clock may be set behind what sets it or not, and waits or not.
fn is_open(may_start: bool, sets: bool, waits: bool) -> bool
    ensures { result ≡ (may_start && not (sets || waits)) }
{
    may_start && !(sets || waits)
}

/// Whether statements behind one may set the clock.
fn may_behind(rules: &StatementRules<'_>, may_start: bool, stmt: &Stmt) -> bool
    ensures { result ≡ may_behind may_start (begun (rules_in rules.now) stmt.now) }
{
    is_open(may_start, sets_clock(rules, stmt), waits(stmt))
}

/// What is wrong first in the body of an `initial` that may set the clock.
#[cycle(starting)]
pub(crate) fn starting_fault(
    rules: &StatementRules<'_>,
    stmt: &Stmt,
) -> Result<Option<BenchFault>, AllocError>
    ensures { IfOk result (λ o. IsFirst (starting (rules_in rules.now) stmt.now) o) }
{
    match stmt {
        Stmt::SeqBlock(_, _, body) => block_fault(rules, body.as_slice()),
        _ => first_fault(rules, stmt),
    }
}

/// What is wrong first in a statement that may set the clock or not.
#[cycle(starting)]
fn turn_fault(
    rules: &StatementRules<'_>,
    may_start: bool,
    stmt: &Stmt,
) -> Result<Option<BenchFault>, AllocError>
    ensures { IfOk result (λ o. IsFirst (turn_faults (rules_in rules.now) may_start (begun (rules_in rules.now) stmt.now)) o) }
{
    if may_start {
        starting_fault(rules, stmt)
    } else {
        statement_fault(rules, stmt)
    }
}

/// What is wrong first in the statements of a block that may set the clock.
#[cycle(starting)]
fn block_fault(rules: &StatementRules<'_>, body: &[Stmt]) -> Result<Option<BenchFault>, AllocError>
    ensures { IfOk result (λ o. IsFirst (block_faults (rules_in rules.now) true (map (begun (rules_in rules.now)) body.now)) o) }
{
    let mut found = None;
    let mut may_start = true;
    for stmt in body {
        found = earlier(found, turn_fault(rules, may_start, stmt)?);
        may_start = may_behind(rules, may_start, stmt);
    }
    Ok(found)
}
