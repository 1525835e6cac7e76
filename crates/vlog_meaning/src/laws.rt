//! Laws of scopes and of what expressions say in them.
ghost use Rattle.vlog_meaning.specs.Laws.{ConstantsAreSettled, ValuesRestOnReads, WordsAreWithin, LastCounts, Restores, SignalsStay};

/// A constant has one value, whatever the signals are; any expression has one value where the bits that it reads are the
/// same, and words that fit signals are numbers of their widths.
pub fn values_rest_on_reads()
    ensures constants { ConstantsAreSettled }
    ensures reads { ValuesRestOnReads }
    ensures words { WordsAreWithin }
{}

/// Of two declarations of one name the last counts; its own declaration put back makes a scope what it was; and a name
/// that becomes a constant makes no signal of another.
pub fn names_declared_again()
    ensures last { LastCounts }
    ensures restored { Restores }
    ensures signals { SignalsStay }
{}
