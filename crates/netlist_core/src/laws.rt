//! The laws of a netlist that can be run.
ghost use Rattle.netlist_core.specs.Solutions.{OneAnswerBySight, OneOrder, OneRunBySight, OrderSettles};

/// There is one order, computing the cells in it solves the equations of a cycle, and whatever readers see of the nets,
/// there is exactly one run where that rests on what stands where they read, and beside it. Any two solutions of a cycle
/// show the same there, and leave the same in the registers.
pub fn one_run()
    ensures order { OneOrder }
    ensures settles { OrderSettles }
    ensures run { OneRunBySight }
    ensures answer { OneAnswerBySight }
{}
