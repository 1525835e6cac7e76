//! Expressions become cells: the first refusal of an expression, or its bits.
ghost use Rattle.std.specs.Prelude.{◌≡◌, ◌+◌, ◌≤◌, [], Some, Err, length, IfOk, IfErr};
ghost use Rattle.vlog_meaning.specs.declared.fault.Fault.{Fault as Wrong};
ghost use Rattle.vlog_meaning.specs.Answers.{least};
ghost use Rattle.vlog_meaning.specs.Scopes.{names_of};
ghost use Rattle.vlog_meaning.specs.Senses.{sense, IsWhole, IsContext};
ghost use Rattle.net_builder.specs.Building.{HasSignals};
ghost use Rattle.elab_expr.specs.Evaluates.{Evaluates};
ghost use Rattle.net_builder.specs.Errors.{elab_error};
ghost use Rattle.elab_expr.specs.Expressions.{refusals};
ghost use Rattle.elab_expr.specs.Laid.{lay, showing};
ghost use Rattle.expr_plans.specs.Made.{made};
ghost use Rattle.net_builder.specs.Refusals.{IsShort, max_cells};

use crate::build::build;
use expr_plans::unsupported_in;
use net_builder::{Builder, ElabError, MAX_CELLS};
use netlist_core::BitList;
use vlog_meaning::{Fault, Scope, Shape, earlier, fault_in, zero_in};
use vlog_syntax::Expr;

/// The first reason for which an expression is refused.
fn refusal(expr: &Expr, scope: &Scope, context: Shape) -> Option<Fault>
    requires { IsWhole (names_of scope.now) expr.now → IsContext (sense (names_of scope.now) expr.now).shape context }
    ensures { result ≡ least (refusals (names_of scope.now) expr.now context) }
{
    let found = earlier(fault_in(expr, scope), unsupported_in(expr, scope));
    match found {
        Some(fault) => Some(fault),
        None => zero_in(expr, scope, context),
    }
}

/// Adds the cells of an expression that is evaluated at a width and sign, and gives its bits, which have its value in
/// every run of the builder (IEEE 1364-2005, 5.4 and 5.5). An operand's cells come before the operator's, left to right,
/// and constants make none. An expression that is refused leaves the builder as it was; where there are too many cells, or
/// there is no memory, the builder may hold some of the cells and is only to be dropped.
pub fn build_expr(
    builder: &mut Builder,
    expr: &Expr,
    scope: &Scope,
    width: u8,
    is_signed: bool,
) -> Result<BitList, ElabError>
    requires some { 1 ≤ width }
    requires narrow { width ≤ 128 }
    requires context { IsWhole (names_of scope.now) expr.now → IsContext (sense (names_of scope.now) expr.now).shape (record { width = width; is_signed = is_signed }) }
    requires signals { HasSignals (names_of scope.now) builder.old }
    ensures built { IfOk result (λ bits. Evaluates (names_of scope.now) expr.now (record { width = width; is_signed = is_signed }) builder.old builder.new bits) }
    ensures laid { IfOk result (λ bits. showing builder.new bits ≡ lay (names_of scope.now) expr.now (record { width = width; is_signed = is_signed }) builder.old) }
    ensures refused { (f : Wrong) → least (refusals (names_of scope.now) expr.now (record { width = width; is_signed = is_signed })) ≡ Some f → (result ≡ Err (elab_error f)) × (builder.new ≡ builder.old) }
    ensures room { IfOk result (λ bits. length builder.old.cells + length (made (names_of scope.now) expr.now (record { width = width; is_signed = is_signed })) ≤ max_cells) }
    ensures short { refusals (names_of scope.now) expr.now (record { width = width; is_signed = is_signed }) ≡ [] → IfErr result (λ e. IsShort (length builder.old.cells + length (made (names_of scope.now) expr.now (record { width = width; is_signed = is_signed }))) e) }
{
    let context = Shape { width, is_signed };
    match refusal(expr, scope, context) {
        Some(fault) => Err(ElabError::of(fault)),
        None => {
            let bits = build(builder, expr, scope, context)?;
            prove!(builder.cells().len() <= MAX_CELLS);
            Ok(bits)
        }
    }
}
