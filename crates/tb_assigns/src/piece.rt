//! The parts of a left side, each as the bits of a signal that it writes (IEEE 1364-2005, A.8.5).
ghost use Rattle.std.specs.Prelude.{◌≡◌, ◌≤◌, ℕ, ◌+ℤ◌, ◌-ℤ◌, pos, Some, IfOk};
ghost use Rattle.rand_pcg.specs.Lcg.{Lcg};
ghost use Rattle.vlog_meaning.specs.Integers.{natural, bound_integer};
ghost use Rattle.vlog_meaning.specs.Scopes.{Store, names_of, store_of, FitsSignals};
ghost use Rattle.vlog_meaning.specs.Senses.{IsWhole};
ghost use Rattle.vlog_effects.specs.LeftSides.{Whole, Bit, Range, Indexed, Vector as Known, vector_of};
ghost use Rattle.tb_assigns.specs.Pieces.{vector_is, IsDrawn};
ghost use Rattle.tb_assigns.specs.Updates.{IsPart, index_drawn};

use expr_plans::{bound_of, count_of};
use mcy_base::Span;
use rand_pcg::Lcg64Xsh32;
use std::alloc::AllocError;
use tb_values::{Moment, evaluate};
use vlog_meaning::{Bound, Decl, Scope, shape_of};
use vlog_syntax::{Expr, Identifier};

/// A signal: its number, how many bits it has, and the declared number of its lowest bit.
#[derive(Clone, Copy)]
pub struct Vector {
    pub number: u32,
    pub width: u8,
    pub low: u32,
}

/// So many bits of a signal, from the one with a declared number on. They may lie outside of it.
#[derive(Clone, Copy)]
pub struct Piece {
    pub vector: Vector,
    pub base: Bound,
    pub size: u8,
}

/// The signal of a name.
pub fn vector_of(name: &Identifier, scope: &Scope) -> Vector
    requires { (v : Known) × (vector_of (names_of scope.now name.now.name) ≡ Some v) }
    ensures { vector_of (names_of scope.now name.now.name) ≡ Some (vector_is result) }
{
    match scope.get(name.name.as_str()) {
        Some(
            Decl::Signal {
                width,
                low,
                number,
                ..
            },
        ) => Vector { number, width, low },
        Some(Decl::Constant { .. }) | None => unreachable!(),
    }
}

/// How many numbers there are from one bound up to another, at most 128.
pub(crate) fn range_size(msb: Bound, lsb: Bound) -> u8
    requires some { 1 ≤ natural (bound_integer msb -ℤ bound_integer lsb +ℤ pos 1) }
    requires narrow { natural (bound_integer msb -ℤ bound_integer lsb +ℤ pos 1) ≤ 128 }
    ensures { result ≡ natural (bound_integer msb -ℤ bound_integer lsb +ℤ pos 1) }
{
    match (msb.is_negative, lsb.is_negative) {
        (false, false) => (msb.magnitude - lsb.magnitude + 1) as u8,
        (false, true) => (msb.magnitude + lsb.magnitude + 1) as u8,
        (true, _) => (lsb.magnitude - msb.magnitude + 1) as u8,
    }
}

/// A number that is not negative.
pub(crate) fn positive(magnitude: u128) -> Bound
    ensures { bound_integer result ≡ pos magnitude }
{
    Bound {
        is_negative: false,
        magnitude,
    }
}

/// The integer that an index is in this evaluation.
fn index_at(index: &Expr, moment: &Moment<'_>, words: &mut Lcg64Xsh32) -> Result<Bound, AllocError>
    requires whole { IsWhole (names_of moment.now.scope.now) index.now }
    requires stored { FitsSignals (names_of moment.now.scope.now) moment.now.store.now }
    ensures { IfOk result (λ b. (bound_integer b, words.new) ≡ index_drawn (names_of moment.now.scope.now) moment.now.phase (store_of moment.now.store.now) index.now words.old) }
{
    let shape = shape_of(index, moment.scope);
    let value = evaluate(index, moment, shape, words)?;
    Ok(Bound::of(shape, value.bits()))
}

/// A whole signal.
pub fn whole_piece(name: &Identifier, scope: &Scope) -> Piece
    requires { (v : Known) × IsPart (names_of scope.now) (record { name = name.now; select = Whole }) v }
    ensures { (phase : ℕ) (store : Store) (g : Lcg) → IsDrawn (names_of scope.now) phase store (record { name = name.now; select = Whole }) g g result }
{
    let vector = vector_of(name, scope);
    Piece {
        vector,
        base: positive(u128::from(vector.low)),
        size: vector.width,
    }
}

/// `name[index]`
pub(crate) fn bit_piece(
    name: &Identifier,
    span: Span,
    index: &Expr,
    moment: &Moment<'_>,
    words: &mut Lcg64Xsh32,
) -> Result<Piece, AllocError>
    requires part { (v : Known) × IsPart (names_of moment.now.scope.now) (record { name = name.now; select = Bit span index.now }) v }
    requires stored { FitsSignals (names_of moment.now.scope.now) moment.now.store.now }
    ensures { IfOk result (λ p. IsDrawn (names_of moment.now.scope.now) moment.now.phase (store_of moment.now.store.now) (record { name = name.now; select = Bit span index.now }) words.old words.new p) }
{
    let base = index_at(index, moment, words)?;
    Ok(Piece {
        vector: vector_of(name, moment.scope),
        base,
        size: 1,
    })
}

/// `name[msb:lsb]`
pub fn range_piece(name: &Identifier, span: Span, msb: &Expr, lsb: &Expr, scope: &Scope) -> Piece
    requires { (v : Known) × IsPart (names_of scope.now) (record { name = name.now; select = Range span msb.now lsb.now }) v }
    ensures { (phase : ℕ) (store : Store) (g : Lcg) → IsDrawn (names_of scope.now) phase store (record { name = name.now; select = Range span msb.now lsb.now }) g g result }
{
    let base = bound_of(lsb, scope);
    Piece {
        vector: vector_of(name, scope),
        base,
        size: range_size(bound_of(msb, scope), base),
    }
}

/// `name[base +: count]`
pub(crate) fn indexed_piece(
    name: &Identifier,
    span: Span,
    base: &Expr,
    count: &Expr,
    moment: &Moment<'_>,
    words: &mut Lcg64Xsh32,
) -> Result<Piece, AllocError>
    requires part { (v : Known) × IsPart (names_of moment.now.scope.now) (record { name = name.now; select = Indexed span base.now count.now }) v }
    requires stored { FitsSignals (names_of moment.now.scope.now) moment.now.store.now }
    ensures { IfOk result (λ p. IsDrawn (names_of moment.now.scope.now) moment.now.phase (store_of moment.now.store.now) (record { name = name.now; select = Indexed span base.now count.now }) words.old words.new p) }
{
    let base = index_at(base, moment, words)?;
    Ok(Piece {
        vector: vector_of(name, moment.scope),
        base,
        size: count_of(count, moment.scope),
    })
}
