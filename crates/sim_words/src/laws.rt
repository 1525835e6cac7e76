//! Laws of the words of mutations, each as the contract of a function that does nothing.
ghost use Rattle.sim_words.specs.Laws.{MutantsTellTheSame, OneSimWord};

/// A bench tells the same of any two netlists that run as the mutant of a design at one site.
pub fn mutants_tell_the_same()
    ensures { MutantsTellTheSame }
{}

/// A mutation has one word, whichever netlist that runs as its mutant was simulated.
pub fn one_sim_word()
    ensures { OneSimWord }
{}
