//! What is wrong in assigns and in the connections of the instance, in which nothing is drawn.
ghost use Rattle.std.specs.Prelude.{◌≡◌, ◌≤◌, ◌++◌, IfOk};
ghost use Rattle.vlog_meaning.specs.Answers.{least};
ghost use Rattle.vlog_meaning.specs.Scopes.{names_of};
ghost use Rattle.tb_checks.specs.Nets.{net_wrong, value_faults, form_faults, net_faults, assign_faults};
ghost use Rattle.tb_faults.specs.Order.{IsFirst};

use crate::expressions::Values;
use crate::indices::indices_fault;
use crate::lefts::names_fault;
use crate::randoms::random_in;
use elab_proc::same_form;
use std::alloc::{AllocError, Global};
use tb_faults::{BenchFault, earlier as sooner, wrong};
use vlog_meaning::{Fault, Scope, Shape, earlier, fault_in, shape_of, zero_in};
use vlog_refusals::wrong_in;
use vlog_syntax::{Expr, LeftSide};

/// What is wrong in an expression of a net.
fn net_wrong_in(expr: &Expr, scope: &Scope) -> Option<Fault>
    ensures { result ≡ least (net_wrong (names_of scope.now) expr.now) }
{
    earlier(wrong_in(Values, expr, scope), random_in(expr))
}

/// What is wrong in the value of a net of so many bits.
pub fn value_fault(expr: &Expr, width: u8, scope: &Scope) -> Option<Fault>
    requires { width ≤ 128 }
    ensures { result ≡ least (value_faults (names_of scope.now) width expr.now) }
{
    match net_wrong_in(expr, scope) {
        Some(fault) => Some(fault),
        None => {
            let own = shape_of(expr, scope);
            let context = Shape {
                width: own.width.max(width),
                is_signed: own.is_signed,
            };
            zero_in(expr, scope, context)
        }
    }
}

/// What is wrong in an expression that stands as a left side.
pub fn form_fault(expr: &Expr, scope: &Scope) -> Option<Fault>
    ensures { result ≡ least (form_faults (names_of scope.now) expr.now) }
{
    match net_wrong_in(expr, scope) {
        Some(fault) => Some(fault),
        None => zero_in(expr, scope, shape_of(expr, scope)),
    }
}

/// What is wrong in the sides of an assign, of which the left one is given with the expression of its form.
fn net_fault(form: &Expr, left: &LeftSide, right: &Expr, scope: &Scope) -> Option<Fault>
    ensures { result ≡ least (net_faults (names_of scope.now) form.now left.now right.now) }
{
    let written = earlier(fault_in(form, scope), indices_fault(left, scope));
    match earlier(written, net_wrong_in(right, scope)) {
        Some(fault) => Some(fault),
        None => {
            let to = shape_of(form, scope);
            let own = shape_of(right, scope);
            let context = Shape {
                width: own.width.max(to.width),
                is_signed: own.is_signed,
            };
            zero_in(right, scope, context)
        }
    }
}

/// What is wrong first in an assign.
pub fn assign_fault(
    alloc: Global,
    left: &LeftSide,
    value: &Expr,
    scope: &Scope,
) -> Result<Option<BenchFault>, AllocError>
    ensures { IfOk result (λ o. IsFirst (assign_faults (names_of scope.now) left.now value.now) o) }
{
    let form = same_form(alloc, left)?;
    let sides = wrong(net_fault(&form, left, value, scope));
    let names = names_fault(left, scope, None);
    Ok(sooner(sides, names))
}
