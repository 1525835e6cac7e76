//! Laws of simulations, over their definitions alone.
ghost use Rattle.tb_machine.specs.Laws.{InPieces, OneMore, OneOutcome};

/// A simulation in pieces is the simulation at once.
pub fn simulations_go_on()
    ensures pieces { InPieces }
    ensures more { OneMore }
{}

/// A simulation comes to one outcome, where what settles is determined.
pub fn simulations_agree()
    ensures { OneOutcome }
{}
