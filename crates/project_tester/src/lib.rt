//! The tests of a prepared campaign, as jobs that take turns: a search of lemmas for an equality, a simulation for a bench.
//!
//! A turn adds at most 256 lemmas or simulates at most 256 cycles, so a test has at most a 256th of its bound, or of the project's
//! cycles, in turns without a word, rounded up. Where a job gave UNKNOWN it has the attempt that it was given up with.
//!
//! `working` begins the work of a job and lets it go on, by `equality` and `simulation`; `tester` is the `Tester` over it. In its
//! specs, `ProjectJobs` says what the jobs of a campaign are and how their tests end, and `JobTurns` what a turn comes to.
#![tactic(auto)]

mod equality;
mod job;
mod simulation;
mod tester;
mod working;

pub use job::ProjectJob;
pub use tester::ProjectTester;
