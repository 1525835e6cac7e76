//! How many turns the loops of a process take (IEEE 1364-2005, 9.6), counted before anything is built.
//!
//! `specs/Counts` says how many there are. `walk` takes the turns of statements from those that are left, a loop turn by turn with
//! its variable as a constant of the scope, as `statement` of `elab_proc` does; it ends where none is left. So the work of a count
//! goes by the turns that are left, however many a loop within a loop would take. `process` does so for a process.
//!
//! In its proofs, `Turning` is about one turn of a loop and what comes after it, `Walking` about each kind of statement.
#![tactic(auto)]

mod process;
mod walk;

pub use process::process_left;
