//! Laws over the definitions alone.
ghost use Rattle.tb_apart.specs.Laws.{NetsAreApart, NetsAreClean, ItemsAreClean};

/// Where the items of a testbench have no fault, no bit of its nets has two writers.
pub fn nets_are_apart()
    ensures { NetsAreApart }
{}

/// Then nothing is wrong with the assignments among its nets, with its processes, and with its start values.
pub fn items_are_clean()
    ensures nets { NetsAreClean }
    ensures items { ItemsAreClean }
{}
