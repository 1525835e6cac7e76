//! The phases of a bench's simulation.
//!
//! `active` runs the processes, `settle` ends a phase in which they wait, and `phase` has the steps in their order. A `Run` holds
//! no bench: a bench is given to each call, and `IsOf` says that the two go together. `Stands` says at which state of a
//! simulation a run stands; the transcript so far is in none, since a run keeps only what the last phase printed. It keeps the
//! stacks of the `always` processes too, which begin anew in each phase, so that a phase takes no memory for them.
//!
//! In its proofs `Following` has the three ends of a phase, `Answered` that what statements ask for is answered, and `Keeping`
//! that processes leave the widths of signals, since evaluations do.
#![tactic(auto)]

mod active;
mod begin;
mod clock;
mod phase;
mod run;
mod settle;

pub use run::Run;
