//! The law of steps.
ghost use Rattle.cycle_sim.specs.Steps.{StepsAreRuns};

/// Steps one after the other, each as `Sim::step` says, go through the cycles of the netlist's run: from the start values
/// after `Sim::new`, and else from what the registers hold.
pub fn steps_are_runs()
    ensures { StepsAreRuns }
{}
