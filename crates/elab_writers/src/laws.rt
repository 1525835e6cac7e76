//! The laws of builders in which the items of a design are built, one after the other.
ghost use Rattle.elab_writers.specs.Laws.{BuildersAreOfDesigns, DesignsCanFinish, ItemsHaveOneWriter};

use process_cells::accepted_bodies_can_be_built;

/// Where all items of a design are built, each bit has one writer at most, and no bit of an input of the top has one.
pub fn items_have_one_writer()
    ensures { ItemsHaveOneWriter }
{
    accepted_bodies_can_be_built();
}

/// Where all items of a sound design are built, the builder has what is asked where its netlist is made, and is that of the design:
/// registers are those of the variables of clocked processes, in the order in which they are declared.
pub fn designs_can_finish()
    ensures can { DesignsCanFinish }
    ensures design { BuildersAreOfDesigns }
{
    items_have_one_writer();
}
