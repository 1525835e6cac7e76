//! Gates over free bits, each gate once, and the words in which all above speak of them.
//!
//! The gates are in an `IndexSet`, so a gate is found by its inputs, and its place in the set is its number. `Folding` has the
//! equations by which an operation makes no gate; `Adding` proves each one's value from them, for all values in which the gates
//! hold.
#![tactic(auto)]

mod gate;
mod laws;
mod list;
mod literal;

pub use gate::Gate;
pub use laws::gates_have_values;
pub use list::GateList;
pub use literal::GateLit;
