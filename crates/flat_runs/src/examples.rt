//! Runs of small designs, as they were worked out by hand.
ghost use Rattle.flat_runs.specs.Examples.{SuccessorsAreShown, CounterCounts, StartValueStays, ContradictionHasNoRun, FollowerFollows, WireIsOneNet, CounterIsOneCell};

/// The runs of an assignment, a register, a start value, a contradiction and a combinational process.
pub fn runs_of_examples()
    ensures assign { SuccessorsAreShown }
    ensures register { CounterCounts }
    ensures start { StartValueStays }
    ensures contradiction { ContradictionHasNoRun }
    ensures combinational { FollowerFollows }
{}

/// Netlists that are built by hand have their designs' runs.
pub fn netlists_of_examples()
    ensures wire { WireIsOneNet }
    ensures counter { CounterIsOneCell }
{}
