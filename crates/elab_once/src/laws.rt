//! What is refused in the items of a flattened design, what they mean, and what is built of them.
ghost use Rattle.elab_once.specs.Laws.{BeginAlike, BuiltAlike, BuiltOnce, BuiltOrRefused, HasOneMeaning, ItemsAreLaid, RefusedOnce, StopsOnce};

/// Items are refused in one way: whether the first refusal of an item is there, and where, is the same in all builders in which the
/// same items were built; and items that are all built are not refused.
pub fn items_are_refused_once()
    ensures begin { BeginAlike }
    ensures item { RefusedOnce }
    ensures built { BuiltAlike }
    ensures either { BuiltOrRefused }
    ensures stops { StopsOnce }
{}

/// A flattened design means one design.
pub fn designs_are_one()
    ensures { HasOneMeaning }
{}

/// What is built of items has one netlist, wiring included: that of the items, laid one after the other.
pub fn items_are_built_once()
    ensures laid { ItemsAreLaid }
    ensures once { BuiltOnce }
{}
