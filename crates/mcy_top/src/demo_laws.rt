//! What follows of demos from their contract, as the contract of a function that does nothing.
ghost use Rattle.mcy_top.specs.ShownLaws.{DemoRefusalsAreExact, DemosComplete};

/// A demo is refused just where the texts that its numbers make are, for that cause. Where they make a campaign, it is done, unless the
/// sink or memory failed.
pub fn demos_are_exact()
    ensures refusals { DemoRefusalsAreExact }
    ensures complete { DemosComplete }
{}
