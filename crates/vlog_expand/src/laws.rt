//! Laws of what files come to, each as the contract of a function that does nothing.
ghost use Rattle.vlog_expand.specs.Laws.{ConditionsHaveTheirEnds, FilesComeToOneOutcome};

/// A file comes to one outcome under a limit: what it gives and each refusal exclude each other.
pub fn files_come_to_one_outcome()
    ensures { FilesComeToOneOutcome }
{}

/// Where a file is read to its end, each of its conditions has its end.
pub fn conditions_have_their_ends()
    ensures { ConditionsHaveTheirEnds }
{}
