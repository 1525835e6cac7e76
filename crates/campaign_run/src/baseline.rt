//! What a bench says of the design.
ghost use Rattle.std.specs.Prelude.{◌≡◌, ◌↔◌, IsTrue};

use tb_runner::SimVerdict;

/// What the bench of a test, by its number, says of the design, and in which cycle it ended, counted from 1.
#[derive(Clone, Copy, Debug, PartialEq, Eq)]
pub struct Baseline {
    pub test: u32,
    pub verdict: SimVerdict,
    pub cycles: u32,
}

impl Baseline {
    /// Whether the bench passes with the design.
    pub fn passes(self) -> bool
        ensures { IsTrue result ↔ (self.verdict ≡ SimVerdict.Pass) }
    {
        match self.verdict {
            SimVerdict::Pass => true,
            SimVerdict::Fail => false,
            SimVerdict::Hang => false,
        }
    }
}
