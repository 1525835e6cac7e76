//! Which bits the items of a testbench write, and second writers.
//!
//! The bits that items have written, those of nets and those of processes, are each in a table of masks by the number of the
//! signal (`table`). `mask` has the bits of one part of a left side, `lefts` the left sides in a statement. In its proofs
//! `Tables` has masks, `Parts` a part, and `Sums` parts and left sides one after the other.
#![tactic(auto)]

mod lefts;
mod mask;
mod table;
mod writers;

pub use writers::{Writer, Writers};
