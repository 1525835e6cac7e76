//! Formulas, and what they come to.
//!
//! Nothing is looked up in an evaluation, and no memory is taken.
ghost use Rattle.std.specs.Prelude.{◌≡◌, ◌<◌, ◌≤◌, ◌^◌, ◌-ℤ◌, pos, ℕ, length, map, slice_index};
ghost use Rattle.mcy_base.specs.declared.word.Word.{Word as Held};
ghost use Rattle.vlog_meaning.specs.Integers.{integer, window};
ghost use Rattle.vlog_meaning.specs.Operators.{IsSized};
ghost use Rattle.vlog_meaning.specs.Scopes.{store_of};
ghost use Rattle.tb_formulas.specs.Formulas.{signed, formula_value, FitsIn};

use mcy_base::Word;
use vlog_meaning::{
    Bound, Shape, binary_value, extend, repeated, shift_left, truncate, unary_value, window,
};
use vlog_syntax::{BinaryOperator, Boxed, UnaryOperator};

/// Which bits are selected: as many as the width, from an index of the shape `index` on, where the lowest bit has the number `low`.
#[derive(Clone, Copy, Debug, PartialEq, Eq)]
pub struct Part {
    pub low: u32,
    pub width: u8,
    pub index: Shape,
}

/// What an expression comes to at a width and sign.
pub enum Formula {
    Number(u128),
    /// A signal, at a width that is not less than its own.
    Signal(u32, u8),
    /// A signed signal of the first width, at the second.
    SignedSignal(u32, u8, u8),
    /// Bits of a signal from a place on, as many as the width.
    Slice(u32, u8, u8),
    /// Bits of a signal from an index on.
    Select(u32, Part, Boxed<Formula>),
    /// Bits of a number from an index on.
    NumberSelect(u128, Part, Boxed<Formula>),
    /// A number of this shape at another width.
    Extended(Shape, u8, Boxed<Formula>),
    /// An operator, and the shape at which its operand is evaluated.
    Unary(UnaryOperator, Shape, Boxed<Formula>),
    /// An operator, and the shapes at which its operands are evaluated.
    Binary(BinaryOperator, Shape, Shape, Boxed<Formula>, Boxed<Formula>),
    /// The second where the first is not 0, and else the third.
    Conditional(Boxed<Formula>, Boxed<Formula>, Boxed<Formula>),
    /// The first in front of the second, which has so many bits.
    Joined(Boxed<Formula>, u8, Boxed<Formula>),
    /// So many times a number of so many bits.
    Repeated(u8, u8, Boxed<Formula>),
}

impl Drop for Formula {
    fn drop(self) {
        match self {
            Formula::Number(_) => {}
            Formula::Signal(_, _) => {}
            Formula::SignedSignal(_, _, _) => {}
            Formula::Slice(_, _, _) => {}
            Formula::Select(_, _, _index) => {}
            Formula::NumberSelect(_, _, _index) => {}
            Formula::Extended(_, _, _inner) => {}
            Formula::Unary(_, _, _inner) => {}
            Formula::Binary(_, _, _, _first, _second) => {}
            Formula::Conditional(_condition, _yes, _no) => {}
            Formula::Joined(_upper, _, _lower) => {}
            Formula::Repeated(_, _, _inner) => {}
        }
    }
}

/// The value of a signal.
fn bits_of(store: &[Word], signal: u32) -> u128
    requires { signal < length store.now }
    ensures value { result ≡ store_of store.now signal }
    ensures fits { result < 2 ^ slice_index (map (λ (w : Held). w.width) store.now) signal }
{
    store[signal as usize].bits()
}

/// So many bits in two's complement.
fn signed(width: u8) -> Shape
    ensures { result ≡ signed width }
{
    Shape {
        width,
        is_signed: true,
    }
}

/// The selected bits of a number, from an index on.
fn part_from(bits: u128, part: Part, index: u128) -> u128
    requires sized { IsSized part.index }
    requires fits { index < 2 ^ part.index.width }
    requires narrow { part.width ≤ 128 }
    ensures { result ≡ window (integer part.index index -ℤ pos part.low) part.width bits }
{
    window(bits, Bound::of(part.index, index), part.low, part.width)
}

impl Formula {
    /// What it comes to, with these values of the signals. A number or a signal, as most parts are, is read without a call.
    #[inline]
    #[cycle(value)]
    pub fn value(&self, store: &[Word]) -> u128
        requires { (n : ℕ) × FitsIn (map (λ (w : Held). w.width) store.now) self.now n }
        ensures value { result ≡ formula_value self.now (store_of store.now) }
        ensures fits { (n : ℕ) → FitsIn (map (λ (w : Held). w.width) store.now) self.now n → result < 2 ^ n }
    {
        match self {
            Formula::Number(bits) => *bits,
            Formula::Signal(signal, _) => bits_of(store, *signal),
            _ => self.computed(store),
        }
    }

    /// The same, of any kind.
    #[inline(never)]
    #[cycle(value)]
    fn computed(&self, store: &[Word]) -> u128
        requires { (n : ℕ) × FitsIn (map (λ (w : Held). w.width) store.now) self.now n }
        ensures value { result ≡ formula_value self.now (store_of store.now) }
        ensures fits { (n : ℕ) → FitsIn (map (λ (w : Held). w.width) store.now) self.now n → result < 2 ^ n }
    {
        match self {
            Formula::Number(bits) => *bits,
            Formula::Signal(signal, _) => bits_of(store, *signal),
            Formula::SignedSignal(signal, from, to) => {
                extend(signed(*from), bits_of(store, *signal), *to)
            }
            Formula::Slice(signal, at, width) => truncate(bits_of(store, *signal) >> *at, *width),
            Formula::Select(signal, part, index) => part_from(
                bits_of(store, *signal),
                *part,
                index.get().value(store),
            ),
            Formula::NumberSelect(bits, part, index) => {
                part_from(*bits, *part, index.get().value(store))
            }
            Formula::Extended(shape, to, inner) => extend(*shape, inner.get().value(store), *to),
            Formula::Unary(op, shape, inner) => {
                unary_value(*op, *shape, inner.get().value(store))
            }
            Formula::Binary(op, left, right, first, second) => {
                let first = first.get().value(store);
                let second = second.get().value(store);
                binary_value(*op, *left, first, *right, second)
            }
            Formula::Conditional(condition, yes, no) => {
                if condition.get().value(store) == 0 {
                    no.get().value(store)
                } else {
                    yes.get().value(store)
                }
            }
            Formula::Joined(upper, width, lower) => {
                let upper = upper.get().value(store);
                let lower = lower.get().value(store);
                shift_left(upper, u128::from(*width), 128) + lower
            }
            Formula::Repeated(count, width, inner) => {
                repeated(*count, *width, inner.get().value(store))
            }
        }
    }
}
