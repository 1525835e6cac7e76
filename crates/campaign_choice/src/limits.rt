//! The limits of a netlist: on its sites, and where a test is an equality, on its gates and on its free bits.
ghost use Rattle.std.specs.Prelude.{MatchOption};
ghost use Rattle.campaign_choice.specs.Limits.{IsExcess, IsWithinLimits};

use crate::mutations::site_total;
use crate::project::has_equality;
use mcy_base::Kind;
use netlist_core::Netlist;
use pair_gates::design_gates;
use project_file::Project;

/// How many sites a netlist may have.
const MAX_SITES: u64 = 2_000_000;

/// How many gates a design may count, and how many bits its inputs and registers may have, where a test is an equality.
const MAX_GATES: usize = 100_000;

const MAX_FREE_BITS: u32 = 2048;

/// What there is too much of, if anything is: sites, or else, where a test is an equality, gates, or else free bits.
pub fn excess(project: &Project, netlist: &Netlist) -> Option<Kind>
    ensures { MatchOption result (IsWithinLimits project.now netlist.now.raw) (IsExcess project.now netlist.now.raw) }
{
    if site_total(project, netlist) > MAX_SITES {
        Some(Kind::Sites)
    } else if !has_equality(project) {
        None
    } else if design_gates(netlist) > MAX_GATES {
        Some(Kind::Gates)
    } else if netlist.free_bits() > MAX_FREE_BITS {
        Some(Kind::FreeBits)
    } else {
        None
    }
}
