//! Laws of the netlists of campaigns, as the contract of a function that does nothing.
ghost use Rattle.mcy_top.specs.NetlistLaws.{CampaignsAreSound, CampaignsHaveOneSolution};

use netlist_core::one_run;

/// The netlist of a campaign is sound: it has no loop, and each net has one driver. So it has exactly one solution for
/// all inputs and registers that fit, and each of its mutants has: no PASS and no FAIL is an answer on machines that have none.
pub fn campaigns_have_one_solution()
    ensures sound { CampaignsAreSound }
    ensures solutions { CampaignsHaveOneSolution }
{
    one_run();
}
