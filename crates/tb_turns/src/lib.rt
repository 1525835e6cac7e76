//! Simulations in turns: how phases are run one after the other, what is heard of them, their transcript and their verdict.
//!
//! A run of phases is a trait (`Phases`), and so is what hears their text (`Listener`): a watch, or a vector for a transcript.
//! `run_to` goes up to a phase or to the last one of the simulation; `IsRunTo` of `Reached` says where that leads. A turn counts
//! phases, not cycles: phase 0 goes before the first cycle, so it belongs to the first turn.
#![tactic(auto)]

mod laws;
mod listener;
mod phases;
mod running;
mod transcript;
mod turns;
mod verdict;

pub use laws::one_verdict;
pub use listener::Listener;
pub use phases::Phases;
pub use transcript::{Transcript, transcript_of};
pub use turns::Turns;
pub use verdict::SimVerdict;
