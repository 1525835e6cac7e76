//! The connections of an instance, so that it costs no look at all of them to tell whether a port has one.
//!
//! Invariant: `names` has the names of the ports that have one, in order.
ghost use Rattle.std.specs.Prelude.{◌≡◌, ◌++◌, IfOk};
ghost use Rattle.flat_instances.specs.Wires.{is_wired, port_in, ports_in};

use flat_scopes::{Lent, NameList, Wire};
use std::alloc::{AllocError, Global};

/// Connections, and the names of the ports that they connect, in order.
#[derive(Drop)]
pub(crate) struct Wired<'w, 'a> {
    pub(crate) wires: &'w [Wire<'a>],
    names: NameList<'a>,
    pub(crate) ghost listed: { names ≡ ports_in wires.now },
}

/// The names, and that of the port that a connection connects.
fn with_port<'a>(names: NameList<'a>, wire: &Wire<'a>) -> Result<NameList<'a>, AllocError>
    ensures { IfOk result (λ list. list ≡ names.entry ++ port_in wire.now) }
{
    match wire {
        Wire::To(port, _) => names.with(Lent::of(port.get())),
        Wire::Mismatch(_) => Ok(names),
    }
}

/// The names of the ports that these connect.
fn ports_in<'a>(alloc: Global, wires: &[Wire<'a>]) -> Result<NameList<'a>, AllocError>
    ensures { IfOk result (λ names. names ≡ ports_in wires.now) }
{
    let mut names = NameList::new(alloc);
    for wire in wires {
        names = with_port(names, wire)?;
    }
    Ok(names)
}

impl<'w, 'a> Wired<'w, 'a> {
    /// These connections.
    pub(crate) fn of(alloc: Global, wires: &'w [Wire<'a>]) -> Result<Wired<'w, 'a>, AllocError>
        ensures { IfOk result (λ w. w.wires.now ≡ wires.now) }
    {
        let names = ports_in(alloc, wires)?;
        Ok(Wired { wires, names })
    }

    /// Whether a port of this name has a connection.
    pub(crate) fn has(&self, name: &str) -> bool
        ensures { result ≡ is_wired self.now.wires.now name.now }
    {
        self.names.has(name)
    }
}
