//! Connections of the inputs of instances.
ghost use Rattle.std.specs.Prelude.{◌≡◌, ◌<◌, ◌≤◌, None, length, IfErr, OnOk};
ghost use Rattle.vlog_meaning.specs.Answers.{least};
ghost use Rattle.vlog_meaning.specs.Scopes.{names_of};
ghost use Rattle.net_builder.specs.Building.{HasSignals, signal};
ghost use Rattle.flat_runs.specs.Meanings.{Assign};
ghost use Rattle.flat_runs.specs.Parts.{whole};
ghost use Rattle.flat_assigns.specs.Built.{IsBuilt, IsReady};
ghost use Rattle.flat_assigns.specs.Laid.{lay_input};
ghost use Rattle.flat_assigns.specs.Values.{right_cells, right_refusals, right_value};
ghost use Rattle.flat_items.specs.Views.{flat_of};
ghost use Rattle.flat_instances.specs.declared.item.FlatItem.TheVariants.{Enters, Open};
ghost use Rattle.elab_items.specs.Items.{Builds, Fails, FailsInput, Stands, input_error, unsupported, wrong};

use crate::error::{BuildError, Reason};
use crate::sides::scope_at;
use crate::writers::has_writer;
use elab_proc::Refusal;
use flat_assigns::{build_input, tie_input};
use flat_items::Flat;
use mcy_base::Span;
use net_builder::{Builder, ElabError};
use vlog_meaning::{Cause, Fault, Scope};
use vlog_syntax::{Expr, Feature};

/// What is wrong in a value.
fn wrong(cause: Cause, span: Span) -> BuildError
    ensures { result ≡ wrong cause span }
{
    BuildError::Refused(Reason::Found(Refusal::Wrong(Fault { cause, span })))
}

/// What is not supported in a value.
fn unsupported(span: Span, feature: Feature) -> BuildError
    ensures { result ≡ unsupported span feature }
{
    match feature {
        Feature::RangeForm => wrong(Cause::RangeForm, span),
        Feature::SystemFunction => wrong(Cause::SystemFunction, span),
        Feature::DivideOrPower => wrong(Cause::DivideOrPower, span),
        Feature::IndexedBase => wrong(Cause::IndexedBase, span),
        _ => BuildError::Memory,
    }
}

/// Why the value of a connection is not built.
fn input_error(error: ElabError) -> BuildError
    ensures { result ≡ input_error error }
{
    match error {
        ElabError::Unknown(span) => wrong(Cause::Unknown, span),
        ElabError::NotConstant(span) => wrong(Cause::NotConstant, span),
        ElabError::Drawn(span) => wrong(Cause::Drawn, span),
        ElabError::DivideByZero(span) => wrong(Cause::DivideByZero, span),
        ElabError::TooWide(span) => wrong(Cause::TooWide, span),
        ElabError::Unsupported(span, feature) => unsupported(span, feature),
        ElabError::TooMany(kind) => BuildError::TooMany(kind),
        ElabError::Memory => BuildError::Memory,
    }
}

/// Gives a port the value of an expression.
fn enter(builder: &mut Builder, port: u32, value: &Expr, scope: &Scope) -> Result<(), BuildError>
    requires ready { IsReady builder.old }
    requires signals { HasSignals (names_of scope.now) builder.old }
    requires port { port < length builder.old.signals }
    requires some { 1 ≤ length (signal builder.old port) }
    requires narrow { length (signal builder.old port) ≤ 128 }
    ensures accepted { OnOk result (least (right_refusals (names_of scope.now) value.now (length (signal builder.old port))) ≡ None) }
    ensures built { OnOk result (IsBuilt builder.old builder.new (Assign (whole builder.old port) (right_value (names_of scope.now) value.now (length (signal builder.old port)))) (right_cells (names_of scope.now) value.now (length (signal builder.old port)))) }
    ensures laid { OnOk result (builder.new ≡ lay_input (names_of scope.now) value.now port builder.old) }
    ensures fails { IfErr result (λ e. FailsInput (names_of scope.now) value.now (length (signal builder.old port)) (length builder.old.cells) e) }
{
    match build_input(builder, port, value, scope) {
        Ok(()) => Ok(()),
        Err(error) => Err(input_error(error)),
    }
}

/// Builds the connection of an input of an instance to the value of an expression of a scope.
#[tactic(auto, using(crate::proofs::Building::enters_built, crate::proofs::Building::enters_fail))]
pub(crate) fn build_enter(
    builder: &mut Builder,
    inputs: &[bool],
    flat: &Flat,
    port: u32,
    place: u32,
    value: &Expr,
) -> Result<(), BuildError>
    requires { Stands (flat_of flat.now).places builder.old }
    ensures built { OnOk result (Builds inputs.now (flat_of flat.now).places (Enters port place value.now) builder.old builder.new) }
    ensures fails { IfErr result (λ e. Fails inputs.now (flat_of flat.now).places (Enters port place value.now) builder.old e) }
{
    let Some(scope) = scope_at(flat, place) else {
        return Err(BuildError::Memory);
    };
    if port >= builder.signal_count() {
        return Err(BuildError::Memory);
    }
    if has_writer(builder, inputs, port) {
        return Err(BuildError::Memory);
    }
    enter(builder, port, value, scope)
}

/// Builds an input of an instance that nothing is connected to.
#[tactic(auto, using(crate::proofs::Building::opens_built))]
pub(crate) fn build_open(
    builder: &mut Builder,
    inputs: &[bool],
    flat: &Flat,
    port: u32,
) -> Result<(), BuildError>
    requires { Stands (flat_of flat.now).places builder.old }
    ensures built { OnOk result (Builds inputs.now (flat_of flat.now).places (Open port) builder.old builder.new) }
    ensures fails { IfErr result (λ e. Fails inputs.now (flat_of flat.now).places (Open port) builder.old e) }
{
    if port >= builder.signal_count() {
        return Err(BuildError::Memory);
    }
    if has_writer(builder, inputs, port) {
        return Err(BuildError::Memory);
    }
    match tie_input(builder, port) {
        Ok(()) => Ok(()),
        Err(_) => Err(BuildError::Memory),
    }
}
