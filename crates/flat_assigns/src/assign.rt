//! A continuous assignment is built: the cells of its right side, and then a joint for each bit of its left side.
ghost use Rattle.std.specs.Prelude.{◌≡◌, ◌+◌, ◌≤◌, ◌++◌, List, [], Some, None, Err, length, IfErr, OnOk};
ghost use Rattle.mcy_base.specs.declared.kind.Kind.{Kind as Limit};
ghost use Rattle.vlog_meaning.specs.declared.fault.Fault.{Fault as Flaw};
ghost use Rattle.vlog_meaning.specs.Answers.{least};
ghost use Rattle.vlog_meaning.specs.Scopes.{names_of};
ghost use Rattle.vlog_meaning.specs.Senses.{sense, or_else};
ghost use Rattle.vlog_effects.specs.Expressions.{width_of};
ghost use Rattle.net_builder.specs.Building.{HasSignals};
ghost use Rattle.elab_proc.specs.Refusals.{wrong, divisions};
ghost use Rattle.flat_runs.specs.Meanings.{Assign};
ghost use Rattle.flat_assigns.specs.declared.refusal.Refusal.{Refusal as Reason};
ghost use Rattle.flat_assigns.specs.declared.refusal.AssignError.TheVariants.{Refused, TooMany};
ghost use Rattle.flat_assigns.specs.Assignments.{IsRefusal, assignment};
ghost use Rattle.flat_assigns.specs.Built.{IsBuilt, IsLimit, IsReady};
ghost use Rattle.flat_assigns.specs.Laid.{lay_assignment, lay_value};
ghost use Rattle.flat_assigns.specs.Parts.{AllInside, slices_of};
ghost use Rattle.flat_assigns.specs.Sides.{all_places, left_width};
ghost use Rattle.flat_assigns.specs.Values.{right_cells, right_refusals, right_shape, right_value};

use crate::connection::right_shape;
use crate::joining::join_parts;
use crate::refusal::{AssignError, first_refusal};
use crate::scan::scan;
use crate::second::second_writer;
use crate::slice::Slice;
use elab_expr::build_expr;
use elab_proc::same_form;
use expr_plans::unsupported_in;
use net_builder::Builder;
use vlog_meaning::{Fault, Scope, earlier, fault_in, shape_of, zero_in};
use vlog_syntax::{Expr, LeftSide};

/// What is wrong in a right side, or not supported there.
fn wrong_in(right: &Expr, scope: &Scope) -> Option<Fault>
    ensures { result ≡ least (wrong (names_of scope.now) right.now) }
{
    earlier(fault_in(right, scope), unsupported_in(right, scope))
}

/// What is wrong in both sides: `form` is the expression of the left side's form, and `target` what else is wrong in the
/// left side.
fn sides_fault(
    form: &Expr,
    target: Option<Fault>,
    left_scope: &Scope,
    right: &Expr,
    right_scope: &Scope,
) -> Option<Fault>
    ensures { (targets : List Flaw) → target ≡ least targets → result ≡ least (or_else (((sense (names_of left_scope.now) form.now).faults ++ targets) ++ wrong (names_of right_scope.now) right.now) (divisions ((sense (names_of right_scope.now) right.now).zeros (right_shape (names_of right_scope.now) right.now (width_of (names_of left_scope.now) form.now))))) }
{
    let left = earlier(fault_in(form, left_scope), target);
    match earlier(left, wrong_in(right, right_scope)) {
        Some(fault) => Some(fault),
        None => {
            let to = shape_of(form, left_scope);
            let context = right_shape(right, right_scope, to.width);
            zero_in(right, right_scope, context)
        }
    }
}

/// Adds the cells of the right side at a width, and joins the parts to its bits.
fn build_parts(
    builder: &mut Builder,
    slices: &[Slice],
    width: u8,
    right: &Expr,
    scope: &Scope,
) -> Result<(), AssignError>
    requires ready { IsReady builder.old }
    requires inside { AllInside builder.old slices.now }
    requires signals { HasSignals (names_of scope.now) builder.old }
    requires narrow { width ≤ 128 }
    requires enough { length (all_places (slices_of slices.now)) ≤ width }
    requires accepted { right_refusals (names_of scope.now) right.now width ≡ [] }
    ensures built { OnOk result (IsBuilt builder.old builder.new (Assign (all_places (slices_of slices.now)) (right_value (names_of scope.now) right.now width)) (right_cells (names_of scope.now) right.now width)) }
    ensures laid { OnOk result (builder.new ≡ lay_value (all_places (slices_of slices.now)) width (names_of scope.now) right.now builder.old) }
    ensures limit { IfErr result (λ e. IsLimit (length builder.old.cells + length (right_cells (names_of scope.now) right.now width)) e) }
{
    let context = right_shape(right, scope, width);
    match build_expr(builder, right, scope, context.width, context.is_signed) {
        Ok(bits) => Ok(join_parts(builder, slices, bits.as_slice())?),
        Err(error) => Err(AssignError::of(error)),
    }
}

/// Builds an assignment: each bit of the left side is joined to the bit of the right side's value, from the lowest on, and
/// bits above the left side are dropped.
///
/// The left side is read in one scope and the right side in another, since a connection of an instance has one side in
/// the instance: an output's right side is the port's name. `inputs` tells by their numbers which signals are inputs of
/// the top. A left side that names a constant is `Unknown` at the name, and an index that is no constant `NotConstant`.
///
/// Where it is refused the builder stays as it was; where there are too many cells, or there is no memory, the builder may
/// hold a part of the assignment and is only to be dropped.
pub fn build_assign(
    builder: &mut Builder,
    inputs: &[bool],
    left: &LeftSide,
    left_scope: &Scope,
    right: &Expr,
    right_scope: &Scope,
) -> Result<(), AssignError>
    requires ready { IsReady builder.old }
    requires lefts { HasSignals (names_of left_scope.now) builder.old }
    requires rights { HasSignals (names_of right_scope.now) builder.old }
    ensures built { OnOk result (IsBuilt builder.old builder.new (assignment (names_of left_scope.now) left.now (names_of right_scope.now) right.now) (right_cells (names_of right_scope.now) right.now (left_width (names_of left_scope.now) left.now))) }
    ensures laid { OnOk result (builder.new ≡ lay_assignment (names_of left_scope.now) left.now (names_of right_scope.now) right.now builder.old) }
    ensures accepted { OnOk result (IsRefusal builder.old inputs.now (names_of left_scope.now) left.now (names_of right_scope.now) right.now None) }
    ensures refused { (reason : Reason) → result ≡ Err (Refused reason) → IsRefusal builder.old inputs.now (names_of left_scope.now) left.now (names_of right_scope.now) right.now (Some reason) × (builder.new ≡ builder.old) }
    ensures limit { (kind : Limit) → result ≡ Err (TooMany kind) → IsRefusal builder.old inputs.now (names_of left_scope.now) left.now (names_of right_scope.now) right.now None × IsLimit (length builder.old.cells + length (right_cells (names_of right_scope.now) right.now (left_width (names_of left_scope.now) left.now))) (TooMany kind) }
{
    let form = same_form(builder.alloc(), left)?;
    let mut slices = Vec::new(builder.alloc());
    let target = scan(builder.alloc(), &mut slices, left_scope, left)?;
    let wrong = sides_fault(&form, target, left_scope, right, right_scope);
    match first_refusal(wrong, second_writer(builder, inputs, &slices)?) {
        Some(refusal) => Err(AssignError::Refused(refusal)),
        None => {
            let to = shape_of(&form, left_scope);
            build_parts(builder, &slices, to.width, right, right_scope)
        }
    }
}
