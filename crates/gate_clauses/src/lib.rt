//! Gates as clauses.
//!
//! Each gate is three or four clauses (`Encoding`). In its proofs `Models` compares them with the gate's value as tables of truth
//! values, and `Settling` finds the unit clause among them once what the gate reads has values.
#![tactic(auto)]

mod encode;

pub use encode::miter;
