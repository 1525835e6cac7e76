//! What an assignment assigns and reads: its right side and its indices are read, and then its bits are assigned
//! (IEEE 1364-2005, 9.2). What is refused reads nothing.
ghost use Rattle.std.specs.Prelude.{◌≡◌, [], false, OnOk};
ghost use Rattle.vlog_meaning.specs.Answers.{least};
ghost use Rattle.vlog_meaning.specs.Scopes.{names_of};
ghost use Rattle.vlog_meaning.specs.Senses.{no_bits, sense, assigned, or_else, IsWhole};
ghost use Rattle.vlog_effects.specs.Expressions.{width_of};
ghost use Rattle.vlog_effects.specs.Steps.{Assign, Done, assigning};
ghost use Rattle.elab_proc.specs.Refusals.{AreSized, wrong, divisions, same_form};
ghost use Rattle.process_latches.specs.Marking.{Added, Marked, reads_by};
ghost use Rattle.process_latches.specs.Sound.{sound, right_faults};

use crate::left::{Manner, mark_left};
use crate::marks::Marks;
use elab_proc::{same_form, wrong_in};
use std::alloc::{AllocError, Global};
use vlog_meaning::{Fault, Scope, Shape, shape_of, zero_in};
use vlog_syntax::{Assignment, Expr};

/// What is wrong in the right side of an assignment whose left one has this form, with nothing wrong in it.
fn assigned_fault(left: &Expr, right: &Expr, scope: &Scope) -> Option<Fault>
    requires { IsWhole (names_of scope.now) left.now }
    ensures { result ≡ least (or_else (wrong (names_of scope.now) right.now) (divisions ((sense (names_of scope.now) right.now).zeros (assigned (sense (names_of scope.now) right.now) (width_of (names_of scope.now) left.now))))) }
{
    match wrong_in(right, scope) {
        Some(fault) => Some(fault),
        None => {
            let to = shape_of(left, scope);
            let own = shape_of(right, scope);
            let context = Shape {
                width: own.width.max(to.width),
                is_signed: own.is_signed,
            };
            zero_in(right, scope, context)
        }
    }
}

/// What is wrong in the right side of an assignment whose left one has this form.
fn right_fault(left: &Expr, right: &Expr, scope: &Scope) -> Option<Fault>
    ensures { result ≡ least (right_faults (names_of scope.now) left.now right.now) }
{
    match wrong_in(left, scope) {
        Some(_) => wrong_in(right, scope),
        None => assigned_fault(left, right, scope),
    }
}

/// The right side of an assignment is read.
fn read_right(
    alloc: Global,
    assignment: &Assignment,
    scope: &Scope,
    marks: &mut Marks,
) -> Result<(), AllocError>
    ensures { OnOk result (Added no_bits (reads_by (names_of scope.now) (right_faults (names_of scope.now) (same_form assignment.now.left) assignment.now.value) assignment.now.value) [] false marks.old marks.new) }
{
    let form = same_form(alloc, &assignment.left)?;
    let value = assignment.value.get();
    let fault = right_fault(&form, value, scope);
    marks.read_by(alloc, value, fault, scope)
}

/// Adds an assignment.
pub fn mark_assignment(
    alloc: Global,
    assignment: &Assignment,
    is_blocking: bool,
    scope: &Scope,
    marks: &mut Marks,
) -> Result<(), AllocError>
    requires { AreSized (names_of scope.now) }
    ensures { OnOk result (Marked (sound (Assign (assigning is_blocking assignment.now (names_of scope.now)) Done)) marks.old marks.new) }
{
    read_right(alloc, assignment, scope, marks)?;
    let manner = Manner {
        first: assignment.left.first_token(),
        is_blocking,
    };
    let mut left = Marks::new(alloc);
    mark_left(alloc, &assignment.left, manner, scope, &mut left)?;
    marks.add(&left)?;
    Ok(())
}
