//! Laws of the scopes of cells, as the contract of a function that does nothing.
ghost use Rattle.cell_scopes.specs.Laws.{CellsHaveScopes, ScopesAreOne};

/// Modules have one list of the scopes of their cells, with one scope for each cell that their items add.
pub fn cells_have_their_scopes()
    ensures one { ScopesAreOne }
    ensures each { CellsHaveScopes }
{}
