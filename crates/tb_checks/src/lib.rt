//! What the expressions, assigns and processes of a testbench may not hold: the first fault of each, by its place.
//!
//! `Expressions` says what is wrong in an expression at the width at which it is evaluated, `Nets` the same where nothing may be
//! drawn, `Lefts` which names may be written, `Statements` goes over the statements, which wait for edges of the clock alone, and
//! `Starts` has the one assignment by which an `initial` may set the clock before its first wait, and `Processes` the lists of `always`.
//! In its proofs `Layers` has a statement's faults from those of its parts, and `Arms` the first one of each kind of statement.
#![tactic(auto)]

mod controls;
mod expressions;
mod features;
mod indices;
mod lefts;
mod nets;
mod processes;
mod randoms;
mod start;
mod statements;
mod tasks;
mod waiting;

pub use expressions::own_fault;
pub use nets::{assign_fault, form_fault, value_fault};
pub use processes::{process_fault, starts_clock};
pub use statements::{StatementRules, statement_fault};
