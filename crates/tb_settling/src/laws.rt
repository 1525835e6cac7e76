//! Laws of assignments among nets and of nets that settle, over their definitions alone.
ghost use Rattle.tb_settling.specs.Laws.{UpdatesRestOnReads, UpdatesStayInside, SidesFit, NetsSettleOnce};

use netlist_core::one_run;

/// The updates of an assignment depend on the bits that it reads alone, and give values to bits that its left side can write.
/// Sides with shapes fit.
pub fn assignments_rest()
    ensures reads { UpdatesRestOnReads }
    ensures inside { UpdatesStayInside }
    ensures fit { SidesFit }
{}

/// What nets settle to is determined.
pub fn nets_settle_once()
    ensures { NetsSettleOnce }
{
    one_run();
}
