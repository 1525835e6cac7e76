//! Cells as gates: the literals of a cell's Y, from those at its input ports.
//!
//! Each kind has its rows (`CellRows`). In its proofs `CellLemmas` goes over the kinds, one equation each: the number of the row
//! is the kind's `cell_value`, and the gates are at most its weight. `CellNumbers` and `Laying` have what is told of bits and
//! numbers alone.
#![tactic(auto)]

mod arithmetic;
mod bits;
mod cells;
mod choices;
mod error;
mod reductions;
mod relations;

pub use cells::{GateBits, cell_gates};
pub use error::GateError;
