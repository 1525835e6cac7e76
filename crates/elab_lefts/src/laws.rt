//! The law of left sides.
ghost use Rattle.elab_lefts.specs.Laws.{BuiltAreCovered};

/// Where all items of a design are built, each loop of nets has one of its left sides.
pub fn loops_have_left_sides()
    ensures { BuiltAreCovered }
{}
