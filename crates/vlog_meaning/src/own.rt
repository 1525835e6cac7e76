//! What an expression is where it stands for itself, from what its parts are: selects, operators before an operand, and
//! replications.
//!
//! Each value fits the width beside it.
ghost use Rattle.std.specs.Prelude.{◌≡◌, ◌≤◌, ◌<◌, ◌*◌, ◌^◌, IsTrue, pos, ◌-ℤ◌};
ghost use Rattle.vlog_meaning.specs.Integers.{window, bound_integer};
ghost use Rattle.vlog_meaning.specs.Operators.{IsSized, unary_shape, unary_value};
ghost use Rattle.vlog_meaning.specs.Scopes.{names_of, store_of, FitsSignals, decl_shape, decl_value, decl_low};
ghost use Rattle.vlog_meaning.specs.Senses.{unsigned, repeated, part_width};

use crate::bound::{Bound, part_width, window};
use crate::integer::repeated;
use crate::operator::{BIT, unary_shape, unary_value};
use crate::scope::{Decl, Scope};
use crate::shapes::Shape;
use mcy_base::Word;
use vlog_syntax::{Identifier, UnaryOperator};

/// What an expression is where it stands for itself.
#[derive(Clone, Copy)]
pub struct Own {
    pub shape: Shape,
    pub value: u128,
}

/// The word of these bits.
pub fn word(width: u8, bits: u128) -> Word
    requires some { 1 ≤ width }
    requires narrow { width ≤ 128 }
    requires fits { bits < 2 ^ width }
    ensures { (result.width ≡ width) × (result.bits ≡ bits) }
{
    Word::new(width, bits).unwrap()
}

/// An unsigned shape.
pub fn unsigned(width: u8) -> Shape
    ensures { result ≡ unsigned width }
{
    Shape {
        width,
        is_signed: false,
    }
}

/// The shape of a name.
pub fn name_shape(scope: &Scope, name: &Identifier) -> Shape
    ensures { result ≡ decl_shape (names_of scope.now name.now.name) }
{
    match scope.get(name.name.as_str()) {
        Some(
            Decl::Signal {
                width,
                is_signed,
                ..
            },
        ) => Shape { width, is_signed },
        Some(
            Decl::Constant {
                value,
                is_signed,
                ..
            },
        ) => Shape {
            width: value.width(),
            is_signed,
        },
        None => BIT,
    }
}

/// The value of a name.
pub fn name_value(scope: &Scope, store: &[Word], name: &Identifier) -> u128
    requires { FitsSignals (names_of scope.now) store.now }
    ensures value { result ≡ decl_value (store_of store.now) (names_of scope.now name.now.name) }
    ensures fits { result < 2 ^ (decl_shape (names_of scope.now name.now.name)).width }
{
    match scope.get(name.name.as_str()) {
        Some(Decl::Signal { number, .. }) => match store.get(number as usize) {
            Some(word) => word.bits(),
            None => 0,
        },
        Some(Decl::Constant { value, .. }) => value.bits(),
        None => 0,
    }
}

/// A part select with these bounds.
#[tactic(auto, using(crate::proofs::Contexts::window_fits))]
pub fn part_of(name: &Identifier, msb: Bound, lsb: Bound, scope: &Scope, store: &[Word]) -> Own
    requires some { 1 ≤ part_width (bound_integer msb) (bound_integer lsb) }
    requires narrow { part_width (bound_integer msb) (bound_integer lsb) ≤ 128 }
    requires small { IsTrue lsb.is_negative → lsb.magnitude ≤ 2 ^ 127 }
    requires stored { FitsSignals (names_of scope.now) store.now }
    ensures shape { result.shape ≡ unsigned (part_width (bound_integer msb) (bound_integer lsb)) }
    ensures sized { IsSized result.shape }
    ensures value { result.value ≡ window (bound_integer lsb -ℤ pos (decl_low (names_of scope.now name.now.name))) (part_width (bound_integer msb) (bound_integer lsb)) (decl_value (store_of store.now) (names_of scope.now name.now.name)) }
    ensures fits { result.value < 2 ^ result.shape.width }
{
    let width = part_width(msb, lsb);
    let whole = name_value(scope, store, name);
    Own {
        shape: unsigned(width),
        value: window(whole, lsb, scope.low_of(name.name.as_str()), width),
    }
}

/// So many bits from a place on.
#[tactic(auto, using(crate::proofs::Contexts::window_fits))]
pub fn indexed_of(name: &Identifier, at: Bound, width: u8, scope: &Scope, store: &[Word]) -> Own
    requires some { 1 ≤ width }
    requires narrow { width ≤ 128 }
    requires small { IsTrue at.is_negative → at.magnitude ≤ 2 ^ 127 }
    requires stored { FitsSignals (names_of scope.now) store.now }
    ensures shape { result.shape ≡ unsigned width }
    ensures sized { IsSized result.shape }
    ensures value { result.value ≡ window (bound_integer at -ℤ pos (decl_low (names_of scope.now name.now.name))) width (decl_value (store_of store.now) (names_of scope.now name.now.name)) }
    ensures fits { result.value < 2 ^ result.shape.width }
{
    let whole = name_value(scope, store, name);
    Own {
        shape: unsigned(width),
        value: window(whole, at, scope.low_of(name.name.as_str()), width),
    }
}

/// An operator before this operand, which stands for itself.
#[tactic(auto, using(crate::proofs::Contexts::unary_own_fits, crate::proofs::Contexts::unary_sized))]
pub fn unary_of(op: UnaryOperator, operand: Own) -> Own
    requires sized { IsSized operand.shape }
    requires fits { operand.value < 2 ^ operand.shape.width }
    ensures shape { result.shape ≡ unary_shape op operand.shape }
    ensures sized { IsSized result.shape }
    ensures value { result.value ≡ unary_value op operand.shape operand.value }
    ensures fits { result.value < 2 ^ result.shape.width }
{
    Own {
        shape: unary_shape(op, operand.shape),
        value: unary_value(op, operand.shape, operand.value),
    }
}

/// So many times the same bits.
pub fn times_of(times: u8, parts: Own) -> Own
    requires some { 1 ≤ times * parts.shape.width }
    requires narrow { times * parts.shape.width ≤ 128 }
    requires fits { parts.value < 2 ^ parts.shape.width }
    ensures shape { result.shape ≡ unsigned (times * parts.shape.width) }
    ensures sized { IsSized result.shape }
    ensures value { result.value ≡ repeated times parts.shape.width parts.value }
    ensures fits { result.value < 2 ^ result.shape.width }
{
    Own {
        shape: unsigned(times * parts.shape.width),
        value: repeated(times, parts.shape.width, parts.value),
    }
}
