//! The values of a report: exact fractions in lowest terms, what the operators make of them, and their texts.
//!
//! A numerator or a denominator past 10^12 is out of range, so that products of two fit in 128 bits.
//!
//! `Fractions` says lowest terms by the greatest number that divides both parts, without a way to find it; the code has Euclid's,
//! and `Dividing` proves that it finds that number, and what is left to be the same value with nothing but 1 to divide both
//! parts. A fraction is a sign and two numbers, so that all arithmetic is of numbers from 0 on; products of two numbers in range
//! fit in 128 bits.
#![tactic(auto)]

mod arithmetic;
mod fraction;
mod order;
mod text;

pub use arithmetic::{difference, product, quotient, sum};
pub use fraction::{Fault, Fraction, lowest, whole};
pub use order::{is_equal, is_less, is_true, truth};
pub use text::{push_two_places, push_whole};
