//! Laws of benches' simulations, over their definitions alone.
ghost use Rattle.tb_once.specs.Laws.{BenchesEndOnce, BenchesHaveOneOutcome, SettingsByDesign, StartsByRegisters};

use tb_settling::nets_settle_once;

/// The simulation of a bench with a design comes to one outcome.
pub fn benches_have_one_outcome()
    ensures { BenchesHaveOneOutcome }
{
    nets_settle_once();
}

/// The simulation of a bench with a design ends in one phase.
pub fn benches_end_once()
    ensures { BenchesEndOnce }
{
    nets_settle_once();
}

/// What a bench's simulations share with designs that have as wide outputs, and the same start values.
pub fn designs_in_benches()
    ensures settings { SettingsByDesign }
    ensures starts { StartsByRegisters }
{}
