//! Laws of netlists and their mutants, each as the contract of a function that does nothing.
ghost use Rattle.step_trials.specs.EqualLaws.{DesignsHaveOneSolution, MutantsAreNetlists, MutantsHaveOneSolution, OneStepEqualityLasts};

use netlist_core::one_run;

/// Machines that are equal in one step have equal outputs on every list of inputs.
pub fn one_step_equality_lasts()
    ensures { OneStepEqualityLasts }
{}

/// A sound netlist has exactly one solution for all inputs and registers that fit.
pub fn designs_have_one_solution()
    ensures { DesignsHaveOneSolution }
{
    one_run();
}

/// The mutant of a sound netlist at a site has exactly one solution for all inputs and registers that fit.
pub fn mutants_have_one_solution()
    ensures { MutantsHaveOneSolution }
{
    one_run();
}

/// A netlist that runs as the mutant at a site, as the one that `mutate` gives, is equal to its design in one step exactly where the
/// mutant is.
pub fn mutants_are_netlists()
    ensures { MutantsAreNetlists }
{}
