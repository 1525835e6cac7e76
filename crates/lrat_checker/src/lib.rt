//! A checker of lemmas: each is derived by propagation through the clauses that its hints name.
//!
//! A `Checker` holds clauses and, behind them in the same store, the lemmas that it accepted. `judge` makes a lemma's literals
//! false, looks for an earlier lemma that is a part of it (one whose literals are then all false), and goes over the hints; the
//! partial assignment is always given back. `Guards` keeps each lemma in the list of one of its literals and moves those in the
//! lists of false literals to literals that aren't; only where one can't be moved are all looked at, for the first one.
#![tactic(auto)]

mod checker;
mod guards;
mod judge;
mod partial;
mod refusal;
mod trail;

pub use checker::Checker;
pub use partial::{Step, examine, is_false, literal_value};
pub use refusal::CheckError;
