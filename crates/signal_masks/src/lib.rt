//! Sets of bits of signals, which bits expressions read, and which left sides assign (IEEE 1364-2005, 5.2 and 9.2).
//!
//! A set has a mask for each signal that was touched, so that a set costs what it holds and not what the design has. `mask` has
//! the bits of a number, `masks` the sets, and `reads` goes over an expression: at a constant place a select reads its own bits,
//! at any other all bits of the name. `writes` goes over a left side: a part at a constant place assigns its own bits, any other
//! none for sure; `indices` has what its indices read.
#![tactic(auto)]

mod indices;
mod mask;
mod masks;
mod reads;
mod writes;

pub use indices::indices_of;
pub use mask::Mask;
pub use masks::Masks;
pub use reads::reads_of;
pub use writes::covered_by;
