//! A sink that is written, a piece at a time.
//!
//! `written` is all that it has taken, where the sink tells it. `faults` counts the writes that failed: it
//! never falls, and rises in each write that fails. Such a write has taken a first part of its piece.
ghost use Rattle.std.specs.Prelude.{◌≡◌, ℕ, List, Option, None, OnOk, OnErr, IsErr};
ghost use Rattle.mcy_base.specs.Causes.{IsCaused};
ghost use Rattle.mcy_outside.specs.Written.{Appends, AppendsPart};

/// A sink did not take a whole piece. Its count of faults has risen.
#[derive(Clone, Copy, Debug, PartialEq, Eq)]
pub struct SinkFailed;

/// A sink that is written.
pub trait Sink {
    /// All that was written, where the sink tells it.
    ghost written: { Self → Option (List ℕ) };

    /// How often a write has failed.
    ghost faults: { Self → ℕ };

    /// Writes the whole piece. It takes no memory.
    fn write_all(&mut self, piece: &[u8]) -> Result<(), SinkFailed>
        ensures done { OnOk result (Appends (written self.old) (written self.new) piece.now) }
        ensures part { OnErr result (AppendsPart (written self.old) (written self.new) piece.now) }
        ensures cause { IsCaused (faults self.old) (faults self.new) (IsErr result) };
}

/// A sink that keeps nothing and never fails. It does not tell what was written.
#[derive(Clone, Copy, Debug, PartialEq, Eq)]
pub struct CleanSink;

impl CleanSink {
    /// The sink.
    pub fn new() -> CleanSink
        ensures { ⟦<CleanSink as Sink>⟧.faults result ≡ 0 }
    {
        CleanSink
    }
}

impl Sink for CleanSink {
    ghost written = { λ _. None };

    ghost faults = { λ _. 0 };

    fn write_all(&mut self, _piece: &[u8]) -> Result<(), SinkFailed> {
        Ok(())
    }
}
