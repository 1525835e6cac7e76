//! The tests of a campaign as they are run.
use mcy_base::{Bytes, Items};
use tb_bench::Bench;

/// What a test does with a mutant.
pub enum Trial {
    /// It compares the mutant with the design.
    Equality,
    /// It runs a bench with the mutant in the design's place: the bench, the text by which it passes, and the one by which it fails.
    Simulation {
        bench: Bench,
        pass: Bytes,
        fail: Bytes,
    },
}

impl Drop for Trial {
    fn drop(self) {
        match self {
            Trial::Equality => {}
            Trial::Simulation {
                bench: _bench,
                pass: _pass,
                fail: _fail,
            } => {}
        }
    }
}

/// Tests in the order of the project.
pub type TrialList = Items<Trial>;
