//! What expressions mean: their widths and signs, their values, and which of them are constant
//! (IEEE 1364-2005, 5), in two values.
//!
//! `specs/Senses` says by one line for each production and question what an expression says: its shape, its value at a width and
//! sign, the bits that it reads, the signals in it, what is wrong, and where it divides by 0. `Operators` has the tables of the
//! operators, `Integers` two's complement, `Answers` which of several faults is answered. `values` computes shapes and values of
//! expressions in which nothing is wrong, and `own` both of a node from what its parts are; `signals`, `zeros` and `faults` look
//! for the first thing that is wrong. `literals` puts numbers in the places of bounds, widths and counts, and `once` asks for
//! shapes and values so, where these stand in one another (`nests`); `answers` has the public calls.
#![tactic(auto)]

mod answers;
mod arithmetic;
mod bound;
mod fault;
mod faults;
mod function;
mod integer;
mod laws;
mod literals;
mod nests;
mod once;
mod operator;
mod own;
mod scope;
mod shapes;
mod signals;
mod values;
mod zeros;

pub use answers::{constant, constant_at, constant_integer, shape, value};
pub use bound::{Bound, count, part_width, window};
pub use fault::{Cause, ConstError, Fault, earlier};
pub use faults::{constant_fault, fault_in};
pub use function::{Function, function_of};
pub use integer::{clog2, extend, repeated, shift_left, shift_right, truncate};
pub use laws::{names_declared_again, values_rest_on_reads};
pub use once::{index_of, shape_of, value_of, zero_in};
pub use operator::{Sizing, binary_value, is_reduction, operand_context, sizing_of, unary_value};
pub use scope::{Decl, Scope, ScopeError};
pub use shapes::Shape;
pub use signals::signal_in;
