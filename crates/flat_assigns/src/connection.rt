//! The connection of an instance's input is built: the cells of the value, and then a joint for each bit of the port.
ghost use Rattle.std.specs.Prelude.{◌≡◌, ◌+◌, ◌<◌, ◌≤◌, [], Some, Err, length, IfErr, OnOk};
ghost use Rattle.vlog_meaning.specs.declared.fault.Fault.{Fault as Wrong};
ghost use Rattle.vlog_meaning.specs.Answers.{least};
ghost use Rattle.vlog_meaning.specs.Scopes.{names_of};
ghost use Rattle.vlog_meaning.specs.Senses.{sense, IsWhole, IsContext};
ghost use Rattle.net_builder.specs.Building.{HasSignals, signal};
ghost use Rattle.net_builder.specs.Errors.{elab_error};
ghost use Rattle.net_builder.specs.Refusals.{IsShort};
ghost use Rattle.flat_runs.specs.Meanings.{Assign};
ghost use Rattle.flat_runs.specs.Parts.{whole};
ghost use Rattle.flat_assigns.specs.Built.{IsBuilt, IsReady};
ghost use Rattle.flat_assigns.specs.Laid.{lay_input, lay_open};
ghost use Rattle.flat_assigns.specs.Values.{right_cells, right_refusals, right_shape, right_value};

use crate::joining::join_port;
use elab_expr::{build_expr, constant_bits};
use net_builder::{Builder, ElabError};
use std::alloc::AllocError;
use vlog_meaning::{Scope, Shape, fault_in, shape_of};
use vlog_syntax::Expr;

/// The width and sign at which a right side is evaluated where so many bits are written.
pub(crate) fn right_shape(right: &Expr, scope: &Scope, width: u8) -> Shape
    requires whole { IsWhole (names_of scope.now) right.now }
    requires narrow { width ≤ 128 }
    ensures shape { result ≡ right_shape (names_of scope.now) right.now width }
    ensures some { 1 ≤ result.width }
    ensures narrow { result.width ≤ 128 }
    ensures wide { width ≤ result.width }
    ensures context { IsContext (sense (names_of scope.now) right.now).shape result }
{
    let own = shape_of(right, scope);
    Shape {
        width: own.width.max(width),
        is_signed: own.is_signed,
    }
}

/// The same, or any other where something is wrong in the right side.
fn context_of(right: &Expr, scope: &Scope, width: u8) -> Shape
    requires some { 1 ≤ width }
    requires narrow { width ≤ 128 }
    ensures shape { IsWhole (names_of scope.now) right.now → result ≡ right_shape (names_of scope.now) right.now width }
    ensures some { 1 ≤ result.width }
    ensures narrow { result.width ≤ 128 }
    ensures wide { width ≤ result.width }
{
    match fault_in(right, scope) {
        Some(_) => Shape {
            width,
            is_signed: false,
        },
        None => right_shape(right, scope, width),
    }
}

/// Builds the connection of an instance's input: all bits of the port are joined to the value of the expression, which is
/// read outside and sized as in an assignment. An expression that is refused leaves the builder as it was; where there are
/// too many cells, or there is no memory, the builder may hold a part of the connection and is only to be dropped.
pub fn build_input(
    builder: &mut Builder,
    port: u32,
    right: &Expr,
    scope: &Scope,
) -> Result<(), ElabError>
    requires ready { IsReady builder.old }
    requires signals { HasSignals (names_of scope.now) builder.old }
    requires port { port < length builder.old.signals }
    requires some { 1 ≤ length (signal builder.old port) }
    requires narrow { length (signal builder.old port) ≤ 128 }
    ensures built { OnOk result (IsBuilt builder.old builder.new (Assign (whole builder.old port) (right_value (names_of scope.now) right.now (length (signal builder.old port)))) (right_cells (names_of scope.now) right.now (length (signal builder.old port)))) }
    ensures laid { OnOk result (builder.new ≡ lay_input (names_of scope.now) right.now port builder.old) }
    ensures refused { (f : Wrong) → least (right_refusals (names_of scope.now) right.now (length (signal builder.old port))) ≡ Some f → (result ≡ Err (elab_error f)) × (builder.new ≡ builder.old) }
    ensures short { right_refusals (names_of scope.now) right.now (length (signal builder.old port)) ≡ [] → IfErr result (λ e. IsShort (length builder.old.cells + length (right_cells (names_of scope.now) right.now (length (signal builder.old port)))) e) }
{
    let width = builder.bits(port).len() as u8;
    let context = context_of(right, scope, width);
    match build_expr(builder, right, scope, context.width, context.is_signed) {
        Ok(bits) => Ok(join_port(builder, port, width, bits.as_slice())?),
        Err(error) => Err(error),
    }
}

/// Builds an instance's input that nothing is connected to: all bits of the port are joined to 0. Where there is no memory
/// the builder may hold some of the joints and is only to be dropped.
pub fn tie_input(builder: &mut Builder, port: u32) -> Result<(), AllocError>
    requires ready { IsReady builder.old }
    requires port { port < length builder.old.signals }
    requires narrow { length (signal builder.old port) ≤ 128 }
    ensures built { OnOk result (IsBuilt builder.old builder.new (Assign (whole builder.old port) (λ store. 0)) []) }
    ensures laid { OnOk result (builder.new ≡ lay_open port builder.old) }
{
    let width = builder.bits(port).len() as u8;
    let zeros = constant_bits(builder.alloc(), 0, width)?;
    join_port(builder, port, width, zeros.as_slice())?;
    Ok(())
}
