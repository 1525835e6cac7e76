//! How what is asked of a builder follows from what its items leave.
ghost use Rattle.elab_finish.specs.Laws.{RegistersHaveSignals, SignalsHaveRegisters, JoinedAreCovered};

/// The registers of a builder are those of their signals, and where each joined net is written by a left side, so is a net of
/// each loop.
pub fn builders_can_finish()
    ensures registers { RegistersHaveSignals }
    ensures signals { SignalsHaveRegisters }
    ensures covered { JoinedAreCovered }
{}
