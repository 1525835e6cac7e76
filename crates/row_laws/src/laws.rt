//! What the rows of a good book say of the mutants.
ghost use Rattle.row_laws.specs.Laws.{FailsDiffer, PassesAreAlike, SimulationsAreSaid, UnknownsAreLong};

use step_trials::one_step_equality_lasts;

/// A row PASS of an equivalence test says that the mutant gives what the design gives, on every list of inputs from equal registers, and a row FAIL that
/// there is a cycle in which it does not, or leaves other values in the registers. A row UNKNOWN
/// stands only where its bound on lemmas is below 3 ^ k for k free bits. A row of a simulation has the word that its bench says.
pub fn rows_tell_of_all_runs()
    ensures pass { PassesAreAlike }
    ensures fail { FailsDiffer }
    ensures unknown { UnknownsAreLong }
    ensures said { SimulationsAreSaid }
{
    one_step_equality_lasts();
}
