//! Benches: testbenches that can run, as their processes, their nets and their clock.
//!
//! `Settings` says what the parts of a bench mean: `setting_of` has the meaning of expressions, the processes, the nets and the
//! clock of the bench with a design at its instance, and `start_of` where its simulation starts. Each port of the design stands
//! for a signal of the bench. `Runnable` says what parts can run, and which designs fit them. Plans stand beside the code and the
//! nets; the setting does not speak of them, since each plan means what its statement or assign means.
#![tactic(auto)]

mod bench;
mod parts;

pub use bench::Bench;
pub use parts::{Clock, Parts, Waiting, WaitingList};
