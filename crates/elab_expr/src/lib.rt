//! Expressions become cells of the same value: what each operator adds to the builder of a netlist.
//!
//! Operators make cells; the others are wiring: constants, extension, selects at a constant place, bits side by side. `Laid` says
//! what netlist an expression adds, wiring included, `Evaluates` what it is that bits have its value in every run. `expression`
//! looks for the first refusal, and `build` goes over an expression that has none; `folded`, `names` and `operators` have the
//! leaves of that recursion.
#![tactic(auto)]

mod build;
mod expression;
mod folded;
mod names;
mod nodes;
mod operators;
mod wiring;

pub use expression::build_expr;
pub use nodes::{binary_cell, mux_cell, pick_cell, put_cell, ror_cell, unary_cell};
pub use wiring::{
    constant_bits, extended_bits, index_bits, joined_bits, repeated_bits, window_bits,
};
