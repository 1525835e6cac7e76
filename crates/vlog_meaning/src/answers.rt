//! What an expression says, or why it says nothing: its shape, its value, and its value as a constant.
ghost use Rattle.std.specs.Prelude.{◌≡◌, ◌<◌, ◌≤◌, ◌%◌, ◌^◌, max, [], IfOk};
ghost use Rattle.std.specs.Option.{option_map};
ghost use Rattle.vlog_meaning.specs.Integers.{bound_integer};
ghost use Rattle.vlog_meaning.specs.Operators.{IsSized};
ghost use Rattle.vlog_meaning.specs.Scopes.{names_of, store_of, nothing, FitsSignals};
ghost use Rattle.vlog_meaning.specs.Senses.{sense, own, assigned, not_constant, constant_faults, constant_faults_at, constant_integer, IsWhole, IsContext};
ghost use Rattle.vlog_meaning.specs.Answers.{least, refusal, const_error};

use crate::bound::Bound;
use crate::fault::{ConstError, Fault, earlier};
use crate::faults::{constant_fault, fault_in};
use crate::integer::truncate;
use crate::once::{bound_of, own_of, shape_of, value_of, zero_in};
use crate::own::word;
use crate::scope::Scope;
use crate::shapes::Shape;
use crate::signals::signal_in;
use mcy_base::Word;
use vlog_syntax::Expr;

/// The width and sign of an expression (IEEE 1364-2005, Table 5-22 and 5.5.1), or why it has none: the first of its
/// faults by place.
#[tactic(auto, using(crate::proofs::Firsts::least_none))]
pub fn shape(expr: &Expr, scope: &Scope) -> Result<Shape, ConstError>
    ensures refused { refusal result ≡ option_map const_error (least (sense (names_of scope.now) expr.now).faults) }
    ensures shape { IfOk result (λ s. s ≡ (sense (names_of scope.now) expr.now).shape) }
    ensures sized { IfOk result (λ s. IsSized s) }
    ensures whole { IfOk result (λ s. IsWhole (names_of scope.now) expr.now) }
{
    match fault_in(expr, scope) {
        Some(fault) => Err(fault.const_error()),
        None => Ok(shape_of(expr, scope)),
    }
}

/// The value of a constant expression that stands for itself, or why it has none: a signal in it or a fault, the first by
/// place, or else a division by 0.
#[tactic(auto, using(crate::proofs::Refusals::constant_is_whole, crate::proofs::Refusals::constant_is_settled))]
pub fn constant(expr: &Expr, scope: &Scope) -> Result<Word, ConstError>
    ensures refused { refusal result ≡ option_map const_error (least (constant_faults (sense (names_of scope.now) expr.now))) }
    ensures width { IfOk result (λ w. w.width ≡ (sense (names_of scope.now) expr.now).shape.width) }
    ensures value { IfOk result (λ w. w.bits ≡ own nothing (sense (names_of scope.now) expr.now)) }
    ensures whole { IfOk result (λ w. IsWhole (names_of scope.now) expr.now) }
    ensures constant { IfOk result (λ w. (sense (names_of scope.now) expr.now).signals ≡ []) }
{
    match constant_fault(expr, scope) {
        Some(fault) => Err(fault.const_error()),
        None => {
            let own = own_of(expr, scope, &[]);
            Ok(word(own.shape.width, own.value))
        }
    }
}

/// The integer that a constant expression is, by its sign: bounds of ranges and selects, and counts, are read so. The
/// refusals are those of `constant`.
#[tactic(auto, using(crate::proofs::Refusals::constant_is_whole, crate::proofs::Refusals::constant_is_settled))]
pub fn constant_integer(expr: &Expr, scope: &Scope) -> Result<Bound, ConstError>
    ensures refused { refusal result ≡ option_map const_error (least (constant_faults (sense (names_of scope.now) expr.now))) }
    ensures value { IfOk result (λ b. bound_integer b ≡ constant_integer (sense (names_of scope.now) expr.now)) }
    ensures whole { IfOk result (λ b. IsWhole (names_of scope.now) expr.now) }
    ensures constant { IfOk result (λ b. (sense (names_of scope.now) expr.now).signals ≡ []) }
{
    match constant_fault(expr, scope) {
        Some(fault) => Err(fault.const_error()),
        None => Ok(bound_of(expr, scope)),
    }
}

/// The width and sign at which an expression of this shape is evaluated where it is assigned to so many bits.
fn assigned(own: Shape, width: u8) -> Shape
    ensures { result ≡ record { width = max own.width width; is_signed = own.is_signed } }
{
    Shape {
        width: own.width.max(width),
        is_signed: own.is_signed,
    }
}

/// The first place at which an expression is no constant, or has no shape.
fn not_constant(expr: &Expr, scope: &Scope) -> Option<Fault>
    ensures { result ≡ least (not_constant (sense (names_of scope.now) expr.now)) }
{
    earlier(signal_in(expr, scope), fault_in(expr, scope))
}

/// Why an expression has no constant value where it is assigned to so many bits, of which `found` is the first if it is
/// no constant: else its first division by 0.
#[tactic(auto, using(crate::proofs::Refusals::kept, crate::proofs::Refusals::passed, crate::proofs::Refusals::rest_is_whole))]
fn assigned_fault(expr: &Expr, scope: &Scope, width: u8, found: Option<Fault>) -> Option<Fault>
    requires some { 1 ≤ width }
    requires narrow { width ≤ 128 }
    requires found { found ≡ least (not_constant (sense (names_of scope.now) expr.now)) }
    ensures { result ≡ least (constant_faults_at (sense (names_of scope.now) expr.now) (assigned (sense (names_of scope.now) expr.now) width)) }
{
    match found {
        Some(fault) => Some(fault),
        None => zero_in(expr, scope, assigned(shape_of(expr, scope), width)),
    }
}

/// The value of a constant expression that is assigned to so many bits: it is evaluated at the greater of both widths
/// (IEEE 1364-2005, 5.4.1). The refusals are those of `constant`, with divisions by 0 at this width.
#[tactic(auto, using(crate::proofs::Refusals::constant_is_whole_at, crate::proofs::Refusals::constant_is_settled_at))]
pub fn constant_at(expr: &Expr, scope: &Scope, width: u8) -> Result<Word, ConstError>
    requires some { 1 ≤ width }
    requires narrow { width ≤ 128 }
    ensures refused { refusal result ≡ option_map const_error (least (constant_faults_at (sense (names_of scope.now) expr.now) (assigned (sense (names_of scope.now) expr.now) width))) }
    ensures width { IfOk result (λ w. w.width ≡ width) }
    ensures value { IfOk result (λ w. w.bits ≡ (sense (names_of scope.now) expr.now).value nothing (assigned (sense (names_of scope.now) expr.now) width) % 2 ^ width) }
    ensures whole { IfOk result (λ w. IsWhole (names_of scope.now) expr.now) }
    ensures constant { IfOk result (λ w. (sense (names_of scope.now) expr.now).signals ≡ []) }
{
    let found = not_constant(expr, scope);
    match assigned_fault(expr, scope, width, found) {
        Some(fault) => Err(fault.const_error()),
        None => {
            let context = assigned(shape_of(expr, scope), width);
            Ok(word(width, truncate(value_of(expr, scope, &[], context), width)))
        }
    }
}

/// The value of an expression that has a shape, evaluated at a width and sign, from the values of the signals by their
/// numbers (IEEE 1364-2005, 5.4 and 5.5). A division by 0 is 0 here, and so is a bit outside a vector.
pub fn value(expr: &Expr, scope: &Scope, store: &[Word], width: u8, is_signed: bool) -> Word
    requires whole { IsWhole (names_of scope.now) expr.now }
    requires stored { FitsSignals (names_of scope.now) store.now }
    requires context { IsContext (sense (names_of scope.now) expr.now).shape (record { width = width; is_signed = is_signed }) }
    ensures width { result.width ≡ width }
    ensures value { result.bits ≡ (sense (names_of scope.now) expr.now).value (store_of store.now) (record { width = width; is_signed = is_signed }) }
{
    let own = shape_of(expr, scope);
    let context = Shape { width, is_signed };
    prove!(own.width <= width);
    word(width, value_of(expr, scope, store, context))
}
