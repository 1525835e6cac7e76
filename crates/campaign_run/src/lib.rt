//! What the rows of a campaign's book say: which words are right, how a book grows by a run, and what a crash may leave of it; and what
//! the benches say of the design itself. The crate has definitions and lemmas, and the type of a baseline.
#![tactic(auto)]

mod baseline;

pub use baseline::Baseline;
