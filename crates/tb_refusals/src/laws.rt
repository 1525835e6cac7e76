//! Laws over the definitions alone.
ghost use Rattle.tb_refusals.specs.Refusals.{OneFirst};

/// The items of a testbench have one first fault, or none.
pub fn one_first()
    ensures { OneFirst }
{}
