//! Laws of refusals and of left sides.
ghost use Rattle.elab_proc.specs.Laws.{FirstIsOne, LeftSideIsOne};

/// Of several refusals just one stands first.
pub fn first_is_one()
    ensures { FirstIsOne }
{}

/// Left sides whose expressions of the same form are one are one.
pub fn left_sides_are_one()
    ensures { LeftSideIsOne }
{}
