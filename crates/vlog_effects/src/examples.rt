//! Effects and latches of small statements, as they were worked out by hand.
ghost use Rattle.vlog_effects.specs.Examples.{AllPathsAssign, BitsPastTheEndAreDropped, BitwiseKeepsItsWidth, BlockingIsSeen, DontCareMatches, FirstValueServes, IndexIsReadBefore, InvertedIsGreater, LastItemIsDefault, LastScheduledStays, LeastPlaceCounts, LeftPartGetsHighBits, LeftPartStays, LoopReverses, NonblockingIsNotSeen, NonblockingSwaps, OneBitIsMissing, OneValueIsMissing, OtherBitsDiffer, PartIsWritten, PathLeavesY, ReadBeforeAssigned, VariableIndexCoversNothing};

/// What assignments of both kinds leave, also to concatenations and selects.
pub fn assignments_of_examples()
    ensures seen { BlockingIsSeen }
    ensures not_seen { NonblockingIsNotSeen }
    ensures swap { NonblockingSwaps }
    ensures last { LastScheduledStays }
    ensures high { LeftPartGetsHighBits }
    ensures left { LeftPartStays }
    ensures index { IndexIsReadBefore }
    ensures part { PartIsWritten }
    ensures end { BitsPastTheEndAreDropped }
{}

/// What a loop and cases leave.
pub fn turns_of_examples()
    ensures reversal { LoopReverses }
    ensures dont_care { DontCareMatches }
    ensures other { OtherBitsDiffer }
{}

/// Which variables are latches.
pub fn latches_of_examples()
    ensures all_paths { AllPathsAssign }
    ensures path { PathLeavesY }
    ensures before { FirstValueServes }
    ensures one_bit { OneBitIsMissing }
    ensures variable_index { VariableIndexCoversNothing }
    ensures early { ReadBeforeAssigned }
    ensures least_place { LeastPlaceCounts }
    ensures all_values { LastItemIsDefault }
    ensures one_value { OneValueIsMissing }
    ensures inverted { InvertedIsGreater }
    ensures bitwise { BitwiseKeepsItsWidth }
{}
