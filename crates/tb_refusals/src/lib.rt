//! The first reason for which the items of a testbench are refused.
//!
//! The first fault of an item is what is wrong in the item itself (`start`, `generator`, and `tb_checks` for assignments and
//! processes), what is a second one of its kind (`seen`), and second writers (`tb_writers`). In its proofs `Notes` has what was
//! noted of items, one more, and `Firsts` items without a fault, and the first that has one.
#![tactic(auto)]

mod check;
mod context;
mod first;
mod generator;
mod laws;
mod seen;
mod start;

pub use context::{Context, is_free};
pub use first::first_fault;
pub use laws::one_first;
pub use start::start_value;
