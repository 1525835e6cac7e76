//! Statements of a testbench as the nodes that its processes run by.
//!
//! The nodes of a statement's parts stand in front of its own, so that a number stays for good. `Adds` of `Codes` says what an
//! addition is: of whatever statements the nodes were code, they are code of these and of more, and the ones that were added
//! stand at their numbers. `Tests` says when all in a statement passes tests of expressions, assignments and tasks; what the
//! nodes hold then passes too, whatever the tests are.
//!
//! In its proofs `Adding` has one addition after another, `Pushing` one node more, and `Arms` goes over the kinds of statements;
//! a node rests on its parts alone (`Agreeing`), and what stands in a list stays there (`Trees`).
#![tactic(auto)]

mod code;
mod copies;
mod kinds;
mod laws;
mod statement;

pub use code::{Code, begin};
pub use kinds::event_of;
pub use laws::code_has_its_statements;
