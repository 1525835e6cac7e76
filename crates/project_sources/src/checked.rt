//! A netlist that can be run, of which contracts see the parts alone.
ghost use Rattle.std.specs.Prelude.{◌≡◌};

use netlist_core::Netlist;
use std::marker::Model;

/// A netlist that can be run. The order of its cells and the numbers above its nets follow from its parts.
#[derive(Drop)]
pub struct CheckedNetlist {
    netlist: Netlist,
}

impl Model for CheckedNetlist {
    ghost use Rattle.netlist_core.specs.declared.raw.RawNetlist.{RawNetlist};

    ghost Value = { RawNetlist };

    ghost view = { λ n. n.netlist.raw };
}

impl CheckedNetlist {
    pub(crate) fn new(netlist: Netlist) -> CheckedNetlist
        ensures { result ≡ netlist.raw }
    {
        CheckedNetlist { netlist }
    }

    /// The netlist.
    pub fn netlist(&self) -> &Netlist
        ensures { result.now.raw ≡ self.now }
    {
        &self.netlist
    }
}
