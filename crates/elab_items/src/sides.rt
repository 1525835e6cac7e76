//! Assignments between scopes: an `assign`, an initial value of a net, and what an output is connected to.
ghost use Rattle.std.specs.Prelude.{◌≡◌, IfSome, IfErr, OnOk};
ghost use Rattle.vlog_meaning.specs.Scopes.{names_of};
ghost use Rattle.net_builder.specs.Building.{HasSignals};
ghost use Rattle.flat_assigns.specs.Built.{IsReady};
ghost use Rattle.flat_items.specs.Views.{flat_of};
ghost use Rattle.elab_items.specs.Starts.{names_at};
ghost use Rattle.elab_items.specs.Items.{BuildsSides, FailsSides, Stands, assign_error, found_in};

use crate::error::{BuildError, Reason};
use elab_proc::Refusal;
use flat_assigns::{AssignError, build_assign};
use flat_items::Flat;
use net_builder::Builder;
use vlog_meaning::Scope;
use vlog_syntax::{Expr, LeftSide};

/// The names of the scope of this number.
#[tactic(auto, using(crate::proofs::Standing::names_found))]
pub(crate) fn scope_at<'a>(flat: &'a Flat<'_>, number: u32) -> Option<&'a Scope>
    ensures { IfSome result (λ scope. names_at (flat_of flat.now).places number ≡ names_of scope.now) }
{
    match flat.scope(number) {
        Some(scope) => Some(scope),
        None => None,
    }
}

/// What is refused in an assignment.
fn found_in(refusal: flat_assigns::Refusal) -> Reason
    ensures { result ≡ found_in refusal }
{
    match refusal {
        flat_assigns::Refusal::Wrong(fault) => Reason::Found(Refusal::Wrong(fault)),
        flat_assigns::Refusal::TwoWriters(span, number) => {
            Reason::Found(Refusal::TwoWriters(span, number))
        }
    }
}

/// Why an assignment is not built.
fn assign_error(error: AssignError) -> BuildError
    ensures { result ≡ assign_error error }
{
    match error {
        AssignError::Refused(refusal) => BuildError::Refused(found_in(refusal)),
        AssignError::TooMany(kind) => BuildError::TooMany(kind),
        AssignError::Memory => BuildError::Memory,
    }
}

/// Builds an assignment whose sides are read in two scopes.
fn build_between(
    builder: &mut Builder,
    inputs: &[bool],
    left: &LeftSide,
    left_scope: &Scope,
    right: &Expr,
    right_scope: &Scope,
) -> Result<(), BuildError>
    requires ready { IsReady builder.old }
    requires lefts { HasSignals (names_of left_scope.now) builder.old }
    requires rights { HasSignals (names_of right_scope.now) builder.old }
    ensures built { OnOk result (BuildsSides inputs.now (names_of left_scope.now) left.now (names_of right_scope.now) right.now builder.old builder.new) }
    ensures fails { IfErr result (λ e. FailsSides inputs.now (names_of left_scope.now) left.now (names_of right_scope.now) right.now builder.old e) }
{
    match build_assign(builder, inputs, left, left_scope, right, right_scope) {
        Ok(()) => Ok(()),
        Err(error) => Err(assign_error(error)),
    }
}

/// Builds an assignment whose left side is read in a scope of the design, and the right side in another.
#[tactic(auto, using(crate::proofs::Building::between_built, crate::proofs::Building::between_fails))]
pub(crate) fn build_sides(
    builder: &mut Builder,
    inputs: &[bool],
    flat: &Flat,
    outside: u32,
    left: &LeftSide,
    inside: u32,
    right: &Expr,
) -> Result<(), BuildError>
    requires { Stands (flat_of flat.now).places builder.old }
    ensures built { OnOk result (BuildsSides inputs.now (names_at (flat_of flat.now).places outside) left.now (names_at (flat_of flat.now).places inside) right.now builder.old builder.new) }
    ensures fails { IfErr result (λ e. FailsSides inputs.now (names_at (flat_of flat.now).places outside) left.now (names_at (flat_of flat.now).places inside) right.now builder.old e) }
{
    let Some(left_scope) = scope_at(flat, outside) else {
        return Err(BuildError::Memory);
    };
    let Some(right_scope) = scope_at(flat, inside) else {
        return Err(BuildError::Memory);
    };
    build_between(builder, inputs, left, left_scope, right, right_scope)
}
