//! A number for a new net.
//!
//! The numbers from `Netlist::nets` on are no nets. Where that is beyond the numbers of nets, the least one is looked for: a
//! netlist has at most 1,048,577 net bits, so that one of the numbers up to this is no net.
ghost use Rattle.std.specs.Prelude.{◌≡◌, nat_lt};
ghost use Rattle.netlist_core.specs.Checked.{IsSound, IsFirst};
ghost use Rattle.netlist_core.specs.Drivers.{times, times_at, y_bits, drivers};
ghost use Rattle.netlist_core.specs.Runs.{bits_at, q_bits};
ghost use Rattle.mutation_sites.specs.Wiring.{IsNewNet};

use netlist_core::{Bit, Cell, Netlist, Port, RawNetlist, Register, output_port};

/// The number of a new net.
pub(crate) fn unused_net(netlist: &Netlist) -> u32
    ensures new { IsNewNet netlist.now result }
    ensures sound { IsSound netlist.now }
{
    match u32::try_from(netlist.nets()) {
        Ok(net) => net,
        Err(_) => first_unused(netlist),
    }
}

/// The least number that is no net.
fn first_unused(netlist: &Netlist) -> u32
    ensures { IsFirst (λ net. drivers netlist.now.raw net ≡ 0) result }
{
    let raw = netlist.raw();
    let mut net = 0;
    while is_driven(raw, net) {
        net += 1;
    }
    net
}

/// An input, a Q or a Y drives the net.
fn is_driven(raw: &RawNetlist, net: u32) -> bool
    ensures { result ≡ nat_lt 0 (drivers raw.now net) }
{
    is_at_port(raw.inputs.as_slice(), net)
        || is_at_q(raw.registers.as_slice(), net)
        || is_at_y(raw.cells.as_slice(), net)
}

/// The net is among the bits of the ports.
fn is_at_port(ports: &[Port], net: u32) -> bool
    ensures { result ≡ nat_lt 0 (times_at net (bits_at ports.now)) }
{
    for port in ports {
        if is_among(port.bits.as_slice(), net) {
            return true;
        }
    }
    false
}

/// The net is among the bits of the registers' Q.
fn is_at_q(registers: &[Register], net: u32) -> bool
    ensures { result ≡ nat_lt 0 (times_at net (q_bits registers.now)) }
{
    for register in registers {
        if is_among(register.q.as_slice(), net) {
            return true;
        }
    }
    false
}

/// The net is among the bits of the cells' Y.
fn is_at_y(cells: &[Cell], net: u32) -> bool
    ensures { result ≡ nat_lt 0 (times_at net (y_bits cells.now)) }
{
    for cell in cells {
        if is_among(output_port(cell.ports.as_slice()), net) {
            return true;
        }
    }
    false
}

/// The net is one of the bits.
fn is_among(bits: &[Bit], net: u32) -> bool
    ensures { result ≡ nat_lt 0 (times net bits.now) }
{
    for bit in bits {
        if *bit == Bit::Net(net) {
            return true;
        }
    }
    false
}
