//! Laws about pairs of netlists, each as the contract of a function that does nothing.
ghost use Rattle.pair_gates.specs.Laws.{MutantsAreAlike, AlikeAreNotApart, MutantsAreAccepted, AcceptedWantMemory};

/// A mutant has its netlist's ports and registers, and such a pair is not refused for a port or a register.
pub fn mutants_are_alike()
    ensures alike { MutantsAreAlike }
    ensures accepted { AlikeAreNotApart }
{}

/// A mutant of a netlist that counts at most 100,000 gates, with at most 2,048 free bits, has clauses beside it: nothing but want of
/// memory refuses the pair.
pub fn mutants_are_accepted()
    ensures accepted { MutantsAreAccepted }
    ensures memory { AcceptedWantMemory }
{}
