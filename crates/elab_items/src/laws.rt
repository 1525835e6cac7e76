//! The laws of flattened designs that are built item by item.
ghost use Rattle.elab_items.specs.Laws.{DesignsBegin, ItemsAreAdded, SoundAreDeclared};

/// Where all items are built, what they mean is added: the design's runs are those of the builder.
pub fn items_are_added()
    ensures { ItemsAreAdded }
{}

/// The builder in which the signals of a sound design are declared has what is asked where its items are built, and begins the
/// design.
pub fn sound_designs_are_declared()
    ensures stands { SoundAreDeclared }
    ensures begins { DesignsBegin }
{}
