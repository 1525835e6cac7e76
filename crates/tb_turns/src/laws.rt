//! Laws of verdicts, over their definitions alone.
ghost use Rattle.tb_turns.specs.Verdicts.{OneVerdict};

use tb_machine::simulations_agree;

/// A simulation has one verdict, where what settles is determined: it does not depend on how its cycles were shared among turns.
pub fn one_verdict()
    ensures { OneVerdict }
{
    simulations_agree();
}
