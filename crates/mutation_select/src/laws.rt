//! Laws of selections, as the contract of a function that does nothing.
ghost use Rattle.mutation_select.specs.Laws.{SelectionsAreFew};

/// No more sites are selected than are asked for, whatever the words of the generator are.
pub fn selections_are_few()
    ensures { SelectionsAreFew }
{}
