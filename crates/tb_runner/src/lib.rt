//! Simulations of benches: their transcripts, and jobs that simulate in turns until there is a verdict.
//!
//! A run is put together with its bench (`Simulation`, a `Phases` of `tb_turns`). `transcript` and `SimJob` are `transcript_of`
//! and `Turns` over it. In its specs, `Simulated` says what simulations of a bench, a design and a seed come to, for whatever
//! statements the code of the bench stands for, and `Jobs` what holds of a job that goes on.
#![tactic(auto)]

mod job;
mod simulation;
mod transcribe;

pub use job::SimJob;
pub use tb_turns::{SimVerdict, Transcript};
pub use transcribe::transcript;
